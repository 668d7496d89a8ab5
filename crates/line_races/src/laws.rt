//! A law of entries that don't meet.

ghost use Rattle.std.specs.Prelude.{◌≡◌, ◌≢◌, List, ◌∷◌, ◌++◌};
ghost use Rattle.line_plan.specs.Plans.{IsPlan, PlanFields};
ghost use Rattle.line_law.specs.declared.call.Entry.{Entry};
ghost use Rattle.line_law.specs.History.{IsLegal, state_of};
ghost use Rattle.line_races.specs.Races.{MeetOnWord};

/// A law: two entries of different boxes that stand next to one another in a legal history, and don't meet on their
/// word, change places: the history stays legal, and ends in the same state.
#[tactic(auto, using(crate::proofs::Placing::legal_places, crate::proofs::Placing::state_places))]
pub fn exchange_law()
    ensures legal { (plan : PlanFields) (es more : List Entry) (e x : Entry) → IsPlan plan
        → IsLegal plan (es ++ e ∷ x ∷ more) → e.box_no ≢ x.box_no → (MeetOnWord plan e x → ⊥)
        → IsLegal plan (es ++ x ∷ e ∷ more) }
    ensures state { (plan : PlanFields) (es more : List Entry) (e x : Entry) → IsPlan plan
        → IsLegal plan (es ++ e ∷ x ∷ more) → e.box_no ≢ x.box_no → (MeetOnWord plan e x → ⊥)
        → state_of plan (es ++ x ∷ e ∷ more) ≡ state_of plan (es ++ e ∷ x ∷ more) }
{}
