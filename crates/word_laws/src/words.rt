//! Laws of the shared words: on which word a call is decided, what its reply tells of the word, and what its operations
//! make of it.

ghost use Rattle.std.specs.Prelude.{◌≡◌, ◌≢◌, ℕ, ◌<◌, ◌^◌, ◌++◌, ◌∷◌, [], List, length};
ghost use Rattle.block_words.specs.declared.Way.{Way};
ghost use Rattle.line_plan.specs.Frames.{BoxFields};
ghost use Rattle.line_plan.specs.Plans.{PlanFields, IsPlan};
ghost use Rattle.line_plan.specs.Sections.{IsSection};
ghost use Rattle.line_plan.specs.declared.section.Section.{Section};
ghost use Rattle.line_law.specs.declared.call.Act.{Act};
ghost use Rattle.line_law.specs.declared.call.Call.{Call};
ghost use Rattle.line_law.specs.declared.call.Entry.{Entry};
ghost use Rattle.line_law.specs.declared.state.BoxState.{BoxState};
ghost use Rattle.line_law.specs.declared.state.PairState.{PairState};
ghost use Rattle.word_laws.specs.Footprint.{Tally, kind_at, kind_of, way_at};
ghost use Rattle.line_law.specs.Decisions.{on_pair};
ghost use Rattle.line_law.specs.History.{IsLegal, state_of};
ghost use Rattle.line_law.specs.Known.{KnowsCall};
ghost use Rattle.line_law.specs.Law.{at_moment, decide, link_of, pair_of, box_plan_of, step};
ghost use Rattle.line_law.specs.Links.{way_of};
ghost use Rattle.line_law.specs.SectionFacts.{HasLink};
ghost use Rattle.word_laws.specs.Operations.{FollowsLaw, HasTrainNos, IsOnWord, MovesWord, word_met};
ghost use Rattle.word_laws.specs.SameNumbers.{IsToldAlike};
ghost use Rattle.line_law.specs.States.{IsStateOf, LineState, box_at, pair_at};
ghost use Rattle.word_laws.specs.TellsWord.{IsReplyAt, NeverFalls, TellsCount, kind_told};
ghost use Rattle.word_laws.specs.WordEnds.{AtEnd};
ghost use Rattle.word_laws.specs.WordPlaces.{IsWordOf, word_count, word_place};
ghost use Rattle.word_laws.specs.WordNumbers.{
  Word,
  word_of,
  Agrees,
  NumberAgrees,
  SectionAgrees,
  number_after,
  word_named,
};

/// A law: the reply of a call alone tells on which kind of word the call is decided, whatever the box has done and
/// whatever its neighbours show; so an entry of a legal history does.
pub fn kind_law()
    ensures told { (plan : PlanFields) (state : LineState) (b : ℕ) (call : Call) →
        kind_told (step plan state b call).reply ≡ kind_at plan state b call }
    ensures decided { (plan : PlanFields) (box_plan : BoxFields) (act : Act) (here : BoxState) (way : Way)
        (pair : PairState) → kind_told (on_pair way (decide plan box_plan act here) pair).reply
        ≡ kind_of (decide plan box_plan act here) }
{}

/// A law: the reply of a call on a word tells the count that goes with the word: codes rung, turns, trains sent or
/// trains taken, as it was before the call and as it is after it.
#[tactic(auto, using(crate::proofs::TellsCount::count_is_told))]
pub fn count_law()
    ensures { (plan : PlanFields) (state : LineState) (b : ℕ) (call : Call) → IsPlan plan →
        IsStateOf plan state → KnowsCall plan b call → TellsCount plan state b call }
{}

/// A law: no call and no history lowers a count of codes rung, of turns, of trains sent or of trains taken.
pub fn rising_law()
    ensures call { (plan : PlanFields) (state : LineState) (b : ℕ) (call : Call) → IsPlan plan →
        IsStateOf plan state → KnowsCall plan b call →
        NeverFalls state (step plan state b call).after }
    ensures history { (plan : PlanFields) (es more : List Entry) → IsPlan plan →
        IsLegal plan (es ++ more) → NeverFalls (state_of plan es) (state_of plan (es ++ more)) }
{}

/// A law: where a call is decided at one of its operations on a shared word, and the word is the number of a pair that
/// agrees with the box, the new word is the number of what the law makes of that pair.
pub fn operation_law()
    ensures { (plan : PlanFields) (box_plan : BoxFields) (act : Act) (here : BoxState) (pair : PairState) →
        IsOnWord (kind_of (decide plan box_plan act here)) → HasTrainNos here →
        Agrees (kind_of (decide plan box_plan act here)) (link_of box_plan act) here pair →
        FollowsLaw plan box_plan act here pair }
{}

/// A law: two pairs that agree with a box and give the same number of the word on which its call is decided give the
/// call the same reply, and leave the same box. So a number that agrees with the box tells both.
pub fn number_law()
    ensures { (plan : PlanFields) (box_plan : BoxFields) (act : Act) (here : BoxState) (pair other : PairState) →
        Agrees (kind_of (decide plan box_plan act here)) (link_of box_plan act) here pair →
        Agrees (kind_of (decide plan box_plan act here)) (link_of box_plan act) here other →
        word_met plan box_plan act here pair ≡ word_met plan box_plan act here other →
        IsToldAlike plan box_plan act here pair other }
{}

/// A law: each call that is decided on a word is what a box does at its end of that word, by the line on which it
/// reaches it; and each that is decided in its box alone has a reply that tells so. So its reply is one that is told at
/// that end; and the line of a call that the plan knows leads to a neighbour, unless its reply is of the box alone.
pub fn end_law()
    ensures act { (plan : PlanFields) (box_plan : BoxFields) (act : Act) (here : BoxState) →
        AtEnd (link_of box_plan act) (decide plan box_plan act here) }
    ensures reply { (plan : PlanFields) (box_plan : BoxFields) (act : Act) (here : BoxState) (pair : PairState) →
        IsReplyAt (link_of box_plan act)
        (on_pair (way_of (link_of box_plan act)) (decide plan box_plan act here) pair).reply }
    ensures neighbour { (plan : PlanFields) (state : LineState) (b : ℕ) (call : Call) → IsPlan plan →
        KnowsCall plan b call → kind_told (step plan state b call).reply ≢ Tally →
        HasLink (length plan.boxes) b (link_of (box_plan_of plan b) call.act) }
{}

/// A law: after every legal history of fewer than 2^32 entries the words of each section agree with both of its boxes;
/// the word on which a call is decided agrees with the box that calls; and each train at a place has a number that fits
/// a lane.
pub fn agreement_law()
    ensures sections { (plan : PlanFields) (es : List Entry) (section : Section) → IsPlan plan →
        IsLegal plan es → length es < 2 ^ 32 → IsSection plan section →
        SectionAgrees (state_of plan es) section }
    ensures met { (plan : PlanFields) (es : List Entry) (b : ℕ) (call : Call) → IsPlan plan →
        IsLegal plan es → length es < 2 ^ 32 → KnowsCall plan b call →
        Agrees (kind_at plan (state_of plan es) b call) (link_of (box_plan_of plan b) call.act)
        (at_moment (box_at (state_of plan es) b) call.moment) (pair_at (state_of plan es) (pair_of plan b call)) }
    ensures number { (plan : PlanFields) (es : List Entry) (b : ℕ) (call : Call) → IsPlan plan →
        IsLegal plan es → length es < 2 ^ 32 → KnowsCall plan b call →
        IsOnWord (kind_at plan (state_of plan es) b call) →
        NumberAgrees (kind_at plan (state_of plan es) b call) (link_of (box_plan_of plan b) call.act)
        (at_moment (box_at (state_of plan es) b) call.moment)
        (number_after plan es (word_named (kind_at plan (state_of plan es) b call) b (pair_of plan b call)
        (way_at plan b call))) }
    ensures trains { (plan : PlanFields) (es : List Entry) (b : ℕ) → IsPlan plan →
        IsLegal plan es → b < length plan.boxes → HasTrainNos (box_at (state_of plan es) b) }
{}

/// A law: an entry of a legal history leaves the number of every shared word but the one that it tells by its act and
/// reply; and where its call is decided at an operation, the operation makes of that word's number the next.
pub fn words_law()
    ensures kind { (plan : PlanFields) (es more : List Entry) (e : Entry) →
        IsLegal plan (es ++ e ∷ more) →
        kind_told e.reply ≡ kind_at plan (state_of plan es) e.box_no e.call }
    ensures moves { (plan : PlanFields) (es : List Entry) (e : Entry) → IsPlan plan →
        IsLegal plan (es ++ e ∷ []) → length es < 2 ^ 32 → MovesWord plan es e }
{}

/// A law: each shared word of a line has a place of its own behind that of the posts; and every known call is on one of
/// them.
pub fn places_law()
    ensures within { (n : ℕ) (w : Word) → IsWordOf n w → (0 < word_place n w) × (word_place n w < word_count n) }
    ensures one { (n : ℕ) (w v : Word) → IsWordOf n w → IsWordOf n v → word_place n w ≡ word_place n v → w ≡ v }
    ensures entry { (plan : PlanFields) (e : Entry) → IsPlan plan → KnowsCall plan e.box_no e.call
        → IsWordOf (length plan.boxes) (word_of plan e) }
{}
