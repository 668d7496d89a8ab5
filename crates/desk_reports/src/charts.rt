//! The locking chart of a box, printed.

ghost use Rattle.std.specs.Prelude.{◌≡◌, ℕ, List, IsErrOf};
ghost use Rattle.rail_text.specs.Causes.{Rose};
ghost use Rattle.desk_reports.specs.Charts.{chart_told, plan_chart_told};
ghost use Rattle.text_fetch.specs.FromTexts.{Makes};

use frame_chart::print_box_chart;
use line_plan::Plan;
use rail_text::{Cause, Shelf};
use std::alloc::Global;
use text_fetch::{Stop, fetch_plan};

// The chart of the box with this name as it is printed. Where no box has it, the plan's text is refused at its line 0.
fn named_chart(alloc: Global, plan: &Plan, name: &str) -> Result<Vec<u8>, Stop>
    ensures told { Makes (λ text. text.items) result (chart_told plan.now name.now) }
    ensures no_fault { IsErrOf result Stop.ShelfFault → ⊥ }
{
    match plan.box_names.number_of(name) {
        Some(box_no) => Ok(print_box_chart(alloc, &plan.boxes.as_slice()[box_no as usize])?),
        None => Err(Stop::Refused {
            text: 1,
            line: 0,
            cause: Cause::UnknownName,
        }),
    }
}

/// The locking chart of the named box of the named plan; or why there is none.
pub fn chart_outcome<S: Shelf>(
    alloc: Global,
    shelf: &mut S,
    plan_name: &str,
    name: &str,
) -> Result<Vec<u8>, Stop>
    ensures told { Makes (λ text. text.items) result
        (plan_chart_told (S.held shelf.old) plan_name.now name.now) }
    ensures fault { IsErrOf result Stop.ShelfFault
        → Rose (S.faults shelf.old plan_name.now) (S.faults shelf.new plan_name.now) }
    ensures same { (n : List ℕ) → S.held shelf.new n ≡ S.held shelf.old n }
{
    let plan = fetch_plan(alloc, shelf, plan_name)?;
    let text = named_chart(alloc, &plan, name);
    drop(plan);
    text
}
