//! A law of the sheets.

ghost use Rattle.std.specs.Prelude.{◌≡◌, ℕ, List, if◌then◌else◌};
ghost use Rattle.line_law.specs.declared.call.Entry.{Entry};
ghost use Rattle.line_plan.specs.Plans.{PlanFields};
ghost use Rattle.register_sheet.specs.Sheets.{is_own, sheet_of, times_in};

/// A law: each entry of a box stands in exactly one place of its sheets, in a column of a line, among the remarks or
/// beside them; and no entry of another box stands there.
#[tactic(auto, using(crate::proofs::Once::once))]
pub fn once_law()
    ensures { (plan : PlanFields) (b : ℕ) (es : List Entry) (number : ℕ)
        → times_in number (sheet_of plan b es) ≡ (if is_own b number 0 es then 1 else 0) }
{}
