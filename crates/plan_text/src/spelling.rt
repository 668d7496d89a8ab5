//! Which texts spell a plan.

ghost use Rattle.std.specs.Prelude.{◌≡◌, ◌≤◌, ℕ, List, Ok, length};
ghost use Rattle.line_plan.specs.Limits.{most_bytes};
ghost use Rattle.line_plan.specs.Plans.{IsPlan, PlanFields};
ghost use Rattle.line_plan.specs.Upgrades.{upgraded};
ghost use Rattle.plan_text.specs.Printing.{plan_text};
ghost use Rattle.plan_draft.specs.Reading.{plan_of};
ghost use Rattle.plan_text.specs.Spelled.{Spells};

/// A law: what is printed of a plan is read as that plan, where it keeps within the limit of a text. It does so where
/// some text spells the plan, since the printed lines are that text's, with no line to be skipped; and where the plan
/// has 32 boxes at most, as all of version 1 have. So the upgrade of a plan that a text spells is read back too.
pub fn printed_is_read()
    ensures short { (plan : PlanFields) → IsPlan plan → length (plan_text plan) ≤ most_bytes
        → plan_of (plan_text plan) ≡ Ok plan }
    ensures no_longer { (bytes : List ℕ) → (plan : PlanFields) → Spells bytes plan
        → length (plan_text plan) ≤ length bytes }
    ensures spelled { (bytes : List ℕ) → (plan : PlanFields) → IsPlan plan → Spells bytes plan
        → plan_of (plan_text plan) ≡ Ok plan }
    ensures few_boxes { (plan : PlanFields) → IsPlan plan → length plan.boxes ≤ 32
        → plan_of (plan_text plan) ≡ Ok plan }
    ensures upgraded { (bytes : List ℕ) → (plan : PlanFields) → IsPlan plan → Spells bytes plan
        → plan_of (plan_text (upgraded plan)) ≡ Ok (upgraded plan) }
{}

/// A law: a text is read as a plan exactly where it spells that plan.
pub fn spelled_is_read()
    ensures plan { (bytes : List ℕ) → (plan : PlanFields) → plan_of bytes ≡ Ok plan → IsPlan plan }
    ensures spelled { (bytes : List ℕ) → (plan : PlanFields) → plan_of bytes ≡ Ok plan → Spells bytes plan }
    ensures read { (bytes : List ℕ) → (plan : PlanFields) → IsPlan plan → Spells bytes plan → plan_of bytes ≡ Ok plan }
{}
