//! A law of the hints.

ghost use Rattle.std.specs.Prelude.{◌≡◌, ◌<◌, ℕ, List, Some, length};
ghost use Rattle.line_plan.specs.Plans.{PlanFields};
ghost use Rattle.line_law.specs.declared.call.Entry.{Entry};
ghost use Rattle.line_law.specs.History.{IsLegal, state_of};
ghost use Rattle.due_hints.specs.declared.hint.Hint.{Hint};
ghost use Rattle.due_hints.specs.Dues.{IsDue};
ghost use Rattle.due_hints.specs.Hints.{hint_of};

/// A law: what is told behind a legal journal is due there, in the words of the nine rules.
#[tactic(auto, using(crate::proofs::Due::hint_is))]
pub fn hint_law()
    ensures { (plan : PlanFields) (es : List Entry) (b : ℕ) (hint : Hint) → IsLegal plan es → b < length plan.boxes
        → hint_of plan (state_of plan es) b es ≡ Some hint → IsDue plan es b hint }
{}
