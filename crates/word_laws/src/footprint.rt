//! What a call reads and changes.

ghost use Rattle.std.specs.Prelude.{◌≡◌, ◌≢◌, ℕ, List, ◌∷◌, ◌++◌};
ghost use Rattle.line_plan.specs.Plans.{IsPlan, PlanFields};
ghost use Rattle.line_law.specs.declared.call.Call.{Call};
ghost use Rattle.line_law.specs.declared.call.Entry.{Entry};
ghost use Rattle.line_law.specs.History.{IsLegal, state_of};
ghost use Rattle.line_law.specs.Known.{KnowsCall};
ghost use Rattle.line_law.specs.States.{IsStateOf, LineState};
ghost use Rattle.word_laws.specs.Footprint.{Commute, EndsAlike, HaveSameFootprint, KeepsOthers, OnOtherWords};

/// A law: the reply of a call, its box after it and the word on which it is decided are a function of the call, the box
/// and that word; and nothing else changes.
pub fn footprint_law()
    ensures function { (plan : PlanFields) (state other : LineState) (b : ℕ) (call : Call) → IsPlan plan
        → IsStateOf plan state → IsStateOf plan other → KnowsCall plan b call
        → HaveSameFootprint plan b call state other → EndsAlike plan b call state other }
    ensures others { (plan : PlanFields) (state : LineState) (b : ℕ) (call : Call) → IsPlan plan
        → IsStateOf plan state → KnowsCall plan b call → KeepsOthers plan b call state }
{}

/// A law: calls of two boxes that are decided on different words change places, with the same replies and the same
/// state after both; so do their entries in a legal history.
#[tactic(auto, using(crate::proofs::Commuting::commute, crate::proofs::Exchange::legal_exchange, crate::proofs::Exchange::state_exchange))]
pub fn commuting_law()
    ensures calls { (plan : PlanFields) (state : LineState) (b : ℕ) (call : Call) (c : ℕ) (next : Call) → IsPlan plan
        → IsStateOf plan state → KnowsCall plan b call → KnowsCall plan c next → b ≢ c
        → OnOtherWords plan state b call c next → Commute plan state b call c next }
    ensures legal { (plan : PlanFields) (es more : List Entry) (e f : Entry) → IsPlan plan
        → IsLegal plan (es ++ e ∷ f ∷ more) → e.box_no ≢ f.box_no
        → OnOtherWords plan (state_of plan es) e.box_no e.call f.box_no f.call → IsLegal plan (es ++ f ∷ e ∷ more) }
    ensures state { (plan : PlanFields) (es more : List Entry) (e f : Entry) → IsPlan plan
        → IsLegal plan (es ++ e ∷ f ∷ more) → e.box_no ≢ f.box_no
        → OnOtherWords plan (state_of plan es) e.box_no e.call f.box_no f.call
        → state_of plan (es ++ f ∷ e ∷ more) ≡ state_of plan (es ++ e ∷ f ∷ more) }
{}
