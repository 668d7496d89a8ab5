//! The sheets of all boxes, made of a journal.

ghost use Rattle.std.specs.Prelude.{◌≡◌, ◌<◌, ℕ, IfOk, length, slice_index_or};
ghost use Rattle.register_sheet.specs.Sheets.{no_sheet, sheet_of};

use crate::sheet::BoxSheet;
use line_law::Entry;
use line_plan::Plan;
use rail_text::NoMemory;
use std::alloc::Global;

// The sheets of so many boxes that have made no entry.
fn no_sheets(alloc: Global, boxes: usize) -> Result<Vec<BoxSheet>, NoMemory>
    ensures count { IfOk result (λ sheets. length sheets.items ≡ boxes) }
    ensures each { IfOk result (λ sheets. (b : ℕ) → b < boxes → slice_index_or sheets.items b no_sheet ≡ no_sheet) }
{
    let mut sheets = Vec::new(alloc);
    for _ in 0..boxes {
        sheets.push(BoxSheet::new(alloc))?;
    }
    Ok(sheets)
}

/// The sheets of each box of a plan, by a journal of its line: which of its entries stands where. Entries are numbered
/// from 0 in the journal. It goes over the journal once.
pub fn sheets_of(alloc: Global, plan: &Plan, entries: &[Entry]) -> Result<Vec<BoxSheet>, NoMemory>
    ensures count { IfOk result (λ sheets. length sheets.items ≡ length plan.now.boxes) }
    ensures each { IfOk result (λ sheets. (b : ℕ) → b < length plan.now.boxes
        → slice_index_or sheets.items b no_sheet ≡ sheet_of plan.now b entries.now) }
{
    let boxes = plan.boxes.len();
    let mut sheets = no_sheets(alloc, boxes)?;
    for (number, entry) in entries.iter().enumerate() {
        let at = entry.box_no as usize;
        if at < sheets.len() {
            let sheet = &mut sheets[at];
            sheet.write(plan, number, entry)?;
        }
    }
    Ok(sheets)
}
