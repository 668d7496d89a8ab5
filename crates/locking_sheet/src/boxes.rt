//! The locking table of a box of a plan.

ghost use Rattle.std.specs.Prelude.{◌≡◌, ◌<◌, IfOk, Ok, length, string_bytes};
ghost use Rattle.line_plan.specs.Plans.{box_at};
ghost use Rattle.row_texts.specs.Texts.{rows_of};
ghost use Rattle.locking_sheet.specs.Texts.{IsSheetText};

use crate::printing::sheet_text;
use line_plan::Plan;
use locking_table::NoMemory;
use std::alloc::Global;

/// The text of the locking table of a box, numbered from 0. The rows that are read of it are those of the box.
#[tactic(auto, using(crate::proofs::BoxFrames::box_back))]
pub fn box_table(alloc: Global, plan: &Plan, box_no: u32) -> Result<String, NoMemory>
    requires { box_no < length plan.now.boxes }
    ensures table { IfOk result (λ text. IsSheetText (box_at plan.now.boxes box_no).name
        (box_at plan.now.boxes box_no).levers (box_at plan.now.boxes box_no).rows (string_bytes text)) }
    ensures read_back { IfOk result (λ text. rows_of (string_bytes text) ≡ Ok (box_at plan.now.boxes box_no).rows) }
{
    plan.meets_conditions();
    let here = &plan.boxes.as_slice()[box_no as usize];
    sheet_text(
        alloc,
        here.name.as_str(),
        here.levers.as_slice(),
        here.table.rows(),
    )
}
