//! Laws of the words and of the order.

ghost use Rattle.std.specs.Prelude.{◌≡◌, ◌≢◌, ◌-◌, ℕ, ◌⊎◌, List, [], ◌∷◌, ◌++◌, false, length};
ghost use Rattle.block_words.specs.declared.Way.{Way};
ghost use Rattle.line_plan.specs.Frames.{BoxFields};
ghost use Rattle.line_plan.specs.Plans.{IsPlan, PlanFields};
ghost use Rattle.line_law.specs.declared.call.Act.{Act};
ghost use Rattle.line_law.specs.declared.call.Entry.{Entry};
ghost use Rattle.line_law.specs.declared.state.BoxState.{BoxState};
ghost use Rattle.line_law.specs.declared.state.PairState.{PairState};
ghost use Rattle.line_law.specs.History.{IsLegal, IsLegalFrom, after_entry, part_of, state_of};
ghost use Rattle.line_law.specs.Law.{decide};
ghost use Rattle.line_law.specs.States.{IsStateOf, LineState, box_at, opening_state};
ghost use Rattle.train_register.specs.Registers.{AreParts, RegisterFields};
ghost use Rattle.line_journal.specs.Exchanges.{AreOnOtherWords, IsLost, MayChangePlaces};
ghost use Rattle.line_journal.specs.Lists.{HaveEnded};
ghost use Rattle.line_journal.specs.Merging.{Remains, SomeReady};
ghost use Rattle.line_journal.specs.OneOrder.{ArePlaced, HaveOneOrder, history_behind, lists_behind};
ghost use Rattle.line_journal.specs.Order.{IsBoxReady, IsOrder, IsOrderFrom, keeps_back};
ghost use Rattle.line_journal.specs.Order.{list_at, lists_of, placed, without};
ghost use Rattle.line_journal.specs.Halves.{FitFrom, Fits, GivesAgain, MayDoAll, Stands, made};

/// A law: where a call got a reply on one pair, it gets the reply again on another exactly where the reply fits the
/// word there; it leaves its box as it was left on the first, and makes of the word what the reply says.
#[tactic(auto, using(crate::proofs::PairFits::serves))]
pub fn reply_law()
    ensures { (plan : PlanFields) (box_plan : BoxFields) (act : Act) (here : BoxState) (way : Way)
        (pair other : PairState) → GivesAgain way act (decide plan box_plan act here) pair other }
{}

/// A law: a history is legal from a state on exactly where each entry fits its word in turn, and each box may do its
/// part.
#[tactic(auto, using(crate::proofs::Legal::words_fit, crate::proofs::Legal::boxes_do, crate::proofs::Legal::is_legal))]
pub fn parts_law()
    ensures words { (plan : PlanFields) (state : LineState) (es : List Entry) → IsLegalFrom plan state es
        → FitFrom plan state.pairs es }
    ensures boxes { (plan : PlanFields) (state : LineState) (es : List Entry) (b : ℕ) → IsPlan plan
        → IsStateOf plan state → IsLegalFrom plan state es → MayDoAll plan (box_at state b) (part_of b es) }
    ensures legal { (plan : PlanFields) (state : LineState) (es : List Entry) → IsPlan plan → IsStateOf plan state
        → ((b : ℕ) → MayDoAll plan (box_at state b) (part_of b es)) → FitFrom plan state.pairs es
        → IsLegalFrom plan state es }
{}

/// A law of two entries of different boxes that both fit their words. On different words they change places. On one
/// word, where the second doesn't keep the first back, they change places, or the first is lost once the second is
/// made. What is lost stays lost whatever the other boxes do, and doesn't fit its word.
pub fn exchange_law()
    ensures apart { (plan : PlanFields) (pairs : List PairState) (e x : Entry) → IsPlan plan
        → length pairs ≡ length plan.boxes - 1 → Stands plan e → Fits plan pairs e → Fits plan pairs x
        → AreOnOtherWords plan e x → MayChangePlaces plan pairs e x }
    ensures places { (plan : PlanFields) (pairs : List PairState) (e x : Entry) → IsPlan plan
        → length pairs ≡ length plan.boxes - 1 → e.box_no ≢ x.box_no → Stands plan e → Stands plan x
        → Fits plan pairs e → Fits plan pairs x → keeps_back plan e x ≡ false
        → MayChangePlaces plan pairs e x ⊎ IsLost plan (made plan pairs x) e }
    ensures stays { (plan : PlanFields) (pairs : List PairState) (e x : Entry) → IsPlan plan
        → length pairs ≡ length plan.boxes - 1 → e.box_no ≢ x.box_no → Stands plan e → Stands plan x
        → Fits plan pairs x → IsLost plan pairs e → IsLost plan (made plan pairs x) e }
    ensures lost { (plan : PlanFields) (pairs : List PairState) (e : Entry) → IsLost plan pairs e
        → Fits plan pairs e → ⊥ }
{}

/// A law: there is one order at most. It is never stuck: while anything remains of a legal history, some box is ready;
/// and whichever ready entry is placed, what remains are again the parts of a legal history. So the order of the parts
/// of a legal history is legal, has the same parts, and as many entries.
#[tactic(auto, using(crate::proofs::Orders::one_order, crate::proofs::Orders::goes_on, crate::proofs::Orders::placing))]
pub fn order_law()
    ensures one { (plan : PlanFields) (state : LineState) (lists : List (List Entry)) (es others : List Entry)
        → IsOrderFrom plan state lists es → IsOrderFrom plan state lists others → es ≡ others }
    ensures goes_on { (plan : PlanFields) (done : List Entry) (state : LineState) (lists : List (List Entry))
        (left : List Entry) → IsPlan plan → Remains plan done state lists left
        → SomeReady plan state lists ⊎ ((b : ℕ) → list_at lists b ≡ []) }
    ensures placing { (plan : PlanFields) (done : List Entry) (state : LineState) (lists : List (List Entry))
        (left : List Entry) (e : Entry) (rest : List Entry) → IsPlan plan → Remains plan done state lists left
        → IsBoxReady plan state lists e.box_no e rest
        → Remains plan (done ++ e ∷ []) (after_entry plan state e) (placed lists e.box_no) (without e.box_no left) }
    ensures legal { (plan : PlanFields) (registers : List RegisterFields) (es : List Entry) → IsPlan plan
        → HaveEnded plan registers → IsOrder plan registers es → IsLegal plan es }
    ensures parts { (plan : PlanFields) (registers : List RegisterFields) (es : List Entry) → HaveEnded plan registers
        → IsOrder plan registers es → AreParts plan es registers }
    ensures count { (plan : PlanFields) (registers : List RegisterFields) (history es : List Entry) → IsPlan plan
        → IsLegal plan history → AreParts plan history registers → IsOrder plan registers es
        → length es ≡ length history }
{}

/// A law: the order of the journal exists, and is one. Of registers that are the parts of a legal history there is a
/// journal in the order of their entries, and no other; it is what comes of their merge.
///
/// Each entry of the order is placed when its box is ready. Whichever entries were placed so, what remains of the
/// registers are the parts of what remains of the history; this is legal after them, and its first entry is ready.
pub fn one_order_law()
    ensures order { (plan : PlanFields) (registers : List RegisterFields) → IsPlan plan → HaveEnded plan registers
        → HaveOneOrder plan registers }
    ensures placed { (plan : PlanFields) (registers : List RegisterFields) (es later : List Entry)
        → IsOrder plan registers (es ++ later) → ArePlaced plan (opening_state plan) (lists_of registers) es }
    ensures remains { (plan : PlanFields) (registers : List RegisterFields) (history es : List Entry) → IsPlan plan
        → IsLegal plan history → AreParts plan history registers
        → ArePlaced plan (opening_state plan) (lists_of registers) es
        → Remains plan es (state_of plan es) (lists_behind registers es) (history_behind history es) }
    ensures ready { (plan : PlanFields) (registers : List RegisterFields) (history es later : List Entry) (e : Entry)
        → IsPlan plan → IsLegal plan history → AreParts plan history registers
        → ArePlaced plan (opening_state plan) (lists_of registers) es → history_behind history es ≡ e ∷ later
        → IsBoxReady plan (state_of plan es) (lists_behind registers es) e.box_no e (part_of e.box_no later) }
{}
