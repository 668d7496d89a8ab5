//! Laws of the line.

ghost use Rattle.std.specs.Prelude.{◌≡◌, ◌≢◌, ◌<◌, ◌+◌, ◌⊎◌, ℕ, List, [], ◌∷◌, ◌++◌, IsTrue, false, length, map};
ghost use Rattle.block_words.specs.declared.Way.{Way};
ghost use Rattle.line_plan.specs.Frames.{BoxFields};
ghost use Rattle.line_plan.specs.Plans.{IsPlan, PlanFields};
ghost use Rattle.line_plan.specs.Ways.{leaves};
ghost use Rattle.line_law.specs.declared.call.Act.{Act};
ghost use Rattle.line_law.specs.declared.call.Call.{Call};
ghost use Rattle.line_law.specs.declared.call.Entry.{Entry};
ghost use Rattle.line_law.specs.declared.call.Reply.{Reply};
ghost use Rattle.line_law.specs.declared.link.Link.TheVariants.{Out};
ghost use Rattle.line_law.specs.declared.state.Bell.{Bell};
ghost use Rattle.line_law.specs.declared.state.Block.{Block};
ghost use Rattle.line_law.specs.declared.state.BoxState.{BoxState};
ghost use Rattle.line_law.specs.declared.state.Passage.{Passage};
ghost use Rattle.line_law.specs.History.{IsLegal, IsLegalFrom, IsRun, asked, calls_of, entry_of, opened};
ghost use Rattle.line_law.specs.History.{state_after, state_of};
ghost use Rattle.line_law.specs.Known.{KnowsCall};
ghost use Rattle.line_law.specs.Law.{MayCall, box_plan_of, decide, done_at, link_of, pair_of, step, step_at};
ghost use Rattle.line_law.specs.Lines.{IsLineOf, IsSectionBetween, PlainState};
ghost use Rattle.line_law.specs.Outcomes.{Outcome};
ghost use Rattle.line_law.specs.Refusals.{is_refused, is_refused_here};
ghost use Rattle.line_law.specs.SectionFacts.{HasLink, IsLocal, decided};
ghost use Rattle.line_law.specs.Serial.{AreCalls, AreScripts, calls_left, serial_journal};
ghost use Rattle.line_law.specs.States.{IsStateOf, LineState, box_at, pair_at};
ghost use Rattle.line_law.specs.States.{opening_box, opening_pair, opening_state};
ghost use Rattle.line_law.specs.Trains.{holds};
ghost use Rattle.line_law.specs.Ways.{of_way};

/// A law: each call comes out in one of the listed ways, refused in its box or past every test there; and what a box
/// refuses a call with is a refusal.
#[tactic(auto, using(crate::proofs::Outcomes::outcome_of, crate::proofs::Refusing::here_refused))]
pub fn outcome_law()
    ensures outcome { (plan : PlanFields) (box_plan : BoxFields) (act : Act) (here : BoxState)
        → Outcome plan box_plan here act (decide plan box_plan act here) }
    ensures refused { (reply : Reply) → IsTrue (is_refused_here reply) → IsTrue (is_refused reply) }
{}

/// A law: a legal history grows by a call that may be made where it ends, with the law's reply; every prefix of a legal
/// history is legal; and what was called, and by whom, determines every reply.
#[tactic(auto, using(crate::proofs::Histories::history_grows, crate::proofs::Histories::state_grows, crate::proofs::Histories::prefix_legal, crate::proofs::Histories::entry_determined, crate::proofs::Histories::history_determined))]
pub fn history_law()
    ensures begins { (plan : PlanFields) → IsLegal plan [] }
    ensures grows { (plan : PlanFields) (es : List Entry) (b : ℕ) (call : Call) → IsLegal plan es
        → MayCall plan (state_of plan es) b call → IsLegal plan (es ++ entry_of plan (state_of plan es) b call ∷ []) }
    ensures state { (plan : PlanFields) (es : List Entry) (e : Entry)
        → state_of plan (es ++ e ∷ []) ≡ (step plan (state_of plan es) e.box_no e.call).after }
    ensures prefix { (plan : PlanFields) (es more : List Entry) → IsLegal plan (es ++ more) → IsLegal plan es }
    ensures determined { (plan : PlanFields) (es more : List Entry) (e : Entry) → IsLegal plan (es ++ e ∷ more)
        → MayCall plan (state_of plan es) e.box_no e.call × (e ≡ entry_of plan (state_of plan es) e.box_no e.call) }
    ensures one { (plan : PlanFields) (es others : List Entry) → IsLegal plan es → IsLegal plan others
        → map (λ e. asked e) es ≡ map (λ e. asked e) others → es ≡ others }
{}

/// A law: entries are legal from a state on exactly where the first of them are, and the others from the state in which
/// those end; and both together end where the others do.
pub fn growing_law()
    ensures first { (plan : PlanFields) (state : LineState) (es more : List Entry)
        → IsLegalFrom plan state (es ++ more) → IsLegalFrom plan state es }
    ensures others { (plan : PlanFields) (state : LineState) (es more : List Entry)
        → IsLegalFrom plan state (es ++ more) → IsLegalFrom plan (state_after plan state es) more }
    ensures both { (plan : PlanFields) (state : LineState) (es more : List Entry)
        → IsLegalFrom plan state es → IsLegalFrom plan (state_after plan state es) more
        → IsLegalFrom plan state (es ++ more) }
    ensures ends { (plan : PlanFields) (state : LineState) (es more : List Entry)
        → state_after plan state (es ++ more) ≡ state_after plan (state_after plan state es) more }
{}

/// A law: the calls that are performed on a line from its opening on make a legal history, whose state is the line's;
/// and every legal history is made so.
#[tactic(auto, using(crate::proofs::Histories::run_legal, crate::proofs::Histories::run_state, crate::proofs::Histories::run_calls, crate::proofs::Histories::legal_run))]
pub fn run_law()
    ensures legal { (plan : PlanFields) (es : List Entry) (new : PlainState) → IsRun plan (opened plan) es new
        → IsLegal plan es }
    ensures state { (plan : PlanFields) (es : List Entry) (new : PlainState) → IsRun plan (opened plan) es new
        → state_of plan es ≡ new.line }
    ensures calls { (plan : PlanFields) (es : List Entry) (new : PlainState) → IsRun plan (opened plan) es new
        → new.calls ≡ length es }
    ensures run { (plan : PlanFields) (es : List Entry) → IsLegal plan es
        → IsRun plan (opened plan) es (record { line = state_of plan es; calls = length es }) }
{}

/// A law of the box `b`: its calls in a legal history are calls that it may make in turn from the start of the day.
#[tactic(auto, using(crate::proofs::Turns::calls_in_turn))]
pub fn box_law()
    ensures { (plan : PlanFields) (es : List Entry) (b : ℕ) → IsPlan plan → IsLegal plan es
        → AreCalls plan b 0 (calls_of b es) }
{}

/// A law: every legal history ends in a state of a line of that plan, and in each section the rear box has counted the
/// codes rung and the trains sent, and the box in advance the turns and the trains taken.
pub fn shape_law()
    ensures shape { (plan : PlanFields) (es : List Entry) → IsStateOf plan (state_of plan es) }
    ensures line { (plan : PlanFields) (es : List Entry) → IsPlan plan → IsLegal plan es
        → IsLineOf plan (record { line = state_of plan es; calls = length es }) }
{}

/// A law: a line opens as a line of its plan, with each box and each two neighbours as they begin.
pub fn opening_law()
    ensures shape { (plan : PlanFields) → IsStateOf plan (opening_state plan) }
    ensures line { (plan : PlanFields) → IsLineOf plan (opened plan) }
    ensures boxes { (plan : PlanFields) (b : ℕ) → b < length plan.boxes
        → box_at (opening_state plan) b ≡ opening_box (length plan.trains) (box_plan_of plan b) }
    ensures pairs { (plan : PlanFields) (p : ℕ) → pair_at (opening_state plan) p ≡ opening_pair }
{}

/// A law: a call is decided by its box and what the two neighbours that it reaches share, and changes nothing else. Its
/// moment becomes the last moment of its box.
pub fn step_law()
    ensures decided { (plan : PlanFields) (state : LineState) (b : ℕ) (call : Call)
        → step plan state b call ≡ done_at state b (pair_of plan b call)
        (step_at plan (box_plan_of plan b) call (box_at state b) (pair_at state (pair_of plan b call))) }
    ensures moment { (plan : PlanFields) (state : LineState) (b : ℕ) (call : Call) → b < length state.boxes
        → (box_at (step plan state b call).after b).moment ≡ call.moment }
    ensures others { (plan : PlanFields) (state : LineState) (b other : ℕ) (call : Call) → other ≢ b
        → box_at (step plan state b call).after other ≡ box_at state other }
{}

/// A law: a line of a plan stays one by every call that the plan knows. Any call at all leaves a state for each box and
/// for each two neighbours.
pub fn keeping_law()
    ensures line { (plan : PlanFields) (plain : PlainState) (b : ℕ) (call : Call) → IsPlan plan
        → IsLineOf plan plain → KnowsCall plan b call
        → IsLineOf plan (record { line = (step plan plain.line b call).after; calls = plain.calls + 1 }) }
    ensures shape { (plan : PlanFields) (state : LineState) (b : ℕ) (call : Call) → IsStateOf plan state
        → IsStateOf plan (step plan state b call).after }
{}

/// A law of a section: its plain line holds the trains that were sent and not taken; and where it doesn't hold the
/// train four before the next one, it holds fewer than four.
pub fn section_law()
    ensures count { (way : Way) (rear advance : BoxState) (bell : Bell) (block : Block) (line : List Passage)
        → IsSectionBetween way rear advance bell block line
        → (of_way advance.incoming way).taken + length line ≡ of_way rear.sent way }
    ensures room { (way : Way) (rear advance : BoxState) (bell : Bell) (block : Block) (line : List Passage)
        → IsSectionBetween way rear advance bell block line → holds line (of_way rear.sent way + 1) ≡ false
        → length line < 4 }
{}

/// A law: a call that the plan knows is of a box of the line, and reaches two neighbours of the line. Its line leads to
/// a neighbour of the box, or it is decided in the box alone; an outgoing line leaves the box in any case.
pub fn neighbour_law()
    ensures box_no { (plan : PlanFields) (b : ℕ) (call : Call) → KnowsCall plan b call → b < length plan.boxes }
    ensures pair { (plan : PlanFields) (b : ℕ) (call : Call) → IsPlan plan → KnowsCall plan b call
        → pair_of plan b call + 1 < length plan.boxes }
    ensures link { (plan : PlanFields) (b : ℕ) (call : Call) (here : BoxState) → IsPlan plan → KnowsCall plan b call
        → HasLink (length plan.boxes) b (link_of (box_plan_of plan b) call.act)
        ⊎ IsLocal (decided plan b call here) }
    ensures outgoing { (plan : PlanFields) (b : ℕ) (call : Call) (way : Way) → IsPlan plan → KnowsCall plan b call
        → link_of (box_plan_of plan b) call.act ≡ Out way → IsTrue (leaves (length plan.boxes) b way) }
{}

/// A law: the journal of scripts that are worked one call at a time is a legal history of the line, and the calls of
/// each box in it are exactly those of its script, in order.
#[tactic(auto, using(crate::proofs::SerialLaws::journal_legal, crate::proofs::SerialLaws::journal_parts))]
pub fn serial_law()
    ensures legal { (plan : PlanFields) (scripts : List (List Call)) → IsPlan plan → AreScripts plan scripts
        → IsLegal plan (serial_journal plan scripts) }
    ensures parts { (plan : PlanFields) (scripts : List (List Call)) (b : ℕ)
        → calls_of b (serial_journal plan scripts) ≡ calls_left scripts b }
{}
