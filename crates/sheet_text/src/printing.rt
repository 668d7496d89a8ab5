//! The sheets of boxes, as text in pages.

ghost use Rattle.std.specs.Prelude.{◌≡◌, ◌++◌, ◌<◌, ◌^◌, ℕ, IfOk, OnOk, length, slice_index_or, string_bytes};
ghost use Rattle.register_sheet.specs.Sheets.{no_sheet, sheet_of};
ghost use Rattle.sheet_text.specs.Rows.{rows_of};
ghost use Rattle.sheet_text.specs.Texts.{box_text, boxes_from, is_wanted, page_text, pages_text, rows_text, sheet_text};

use crate::cells::put_row;
use crate::headings::{put_beside, put_heading, put_no_train};
use crate::rows::{Row, rows_of};
use block_words::Way;
use line_law::Entry;
use line_plan::Plan;
use rail_text::NoMemory;
use register_sheet::{BoxSheet, sheets_of};
use std::alloc::{AllocError, Global};

/// How many rows a page has.
const PAGE_ROWS: usize = 40;

// The heading before a row of this number on its sheet, from 0, if it is the first of a page.
fn put_page(
    out: &mut String,
    plan: &Plan,
    box_no: u32,
    way: Way,
    at: usize,
) -> Result<(), AllocError>
    ensures { OnOk result (string_bytes out.new ≡ string_bytes out.old ++ page_text plan.now box_no way at) }
{
    if at == 0 {
        put_heading(out, plan, box_no, way, 1)
    } else if at % PAGE_ROWS == 0 {
        out.push('\n')?;
        put_heading(out, plan, box_no, way, at / PAGE_ROWS + 1)
    } else {
        Ok(())
    }
}

// The rows of a sheet, in pages.
fn put_rows(
    out: &mut String,
    alloc: Global,
    plan: &Plan,
    entries: &[Entry],
    box_no: u32,
    way: Way,
    rows: &[Row],
) -> Result<(), AllocError>
    ensures { OnOk result (string_bytes out.new
        ≡ string_bytes out.old ++ rows_text plan.now entries.now box_no way 0 rows.now) }
{
    for (at, row) in rows.iter().enumerate() {
        put_page(out, plan, box_no, way, at)?;
        put_row(out, alloc, plan, entries, row)?;
    }
    Ok(())
}

// A sheet: its rows in pages, or that there is no train.
#[tactic(auto, unfolding(crate::specs::Texts::pages_text))]
fn put_pages(
    out: &mut String,
    alloc: Global,
    plan: &Plan,
    entries: &[Entry],
    box_no: u32,
    way: Way,
    rows: &[Row],
) -> Result<(), AllocError>
    ensures { OnOk result (string_bytes out.new
        ≡ string_bytes out.old ++ pages_text plan.now entries.now box_no way rows.now) }
{
    if rows.is_empty() {
        put_no_train(out, plan, box_no, way)
    } else {
        put_rows(out, alloc, plan, entries, box_no, way, rows)
    }
}

// The sheet of a way at a box.
fn put_sheet(
    out: &mut String,
    alloc: Global,
    plan: &Plan,
    entries: &[Entry],
    box_no: u32,
    way: Way,
    sheet: &BoxSheet,
) -> Result<(), NoMemory>
    ensures { OnOk result (string_bytes out.new
        ≡ string_bytes out.old ++ pages_text plan.now entries.now box_no way (rows_of way sheet.now)) }
{
    let rows = rows_of(alloc, way, sheet)?;
    put_pages(out, alloc, plan, entries, box_no, way, &rows)?;
    Ok(())
}

// The sheets of a box.
#[tactic(auto, unfolding(crate::specs::Texts::box_text))]
fn put_box(
    out: &mut String,
    alloc: Global,
    plan: &Plan,
    entries: &[Entry],
    box_no: u32,
    sheet: &BoxSheet,
) -> Result<(), NoMemory>
    ensures { OnOk result (string_bytes out.new
        ≡ string_bytes out.old ++ box_text plan.now entries.now box_no sheet.now) }
{
    put_sheet(out, alloc, plan, entries, box_no, Way::Down, sheet)?;
    out.push('\n')?;
    put_sheet(out, alloc, plan, entries, box_no, Way::Up, sheet)?;
    out.push('\n')?;
    put_beside(out, plan, box_no, sheet.beside().len())?;
    Ok(())
}

/// Whether a box is asked for: the one that is named, or each where none is.
pub fn is_wanted(only: Option<u32>, box_no: u32) -> bool
    ensures { result ≡ is_wanted only box_no }
{
    match only {
        Some(wanted) => wanted == box_no,
        None => true,
    }
}

// The sheets of the boxes that are asked for.
fn put_boxes(
    out: &mut String,
    alloc: Global,
    plan: &Plan,
    entries: &[Entry],
    only: Option<u32>,
    sheets: &[BoxSheet],
) -> Result<(), NoMemory>
    requires few { length plan.now.boxes < 2 ^ 32 }
    requires count { length sheets.now ≡ length plan.now.boxes }
    requires each { (b : ℕ) → b < length plan.now.boxes
        → slice_index_or sheets.now b no_sheet ≡ sheet_of plan.now b entries.now }
    ensures { OnOk result (string_bytes out.new
        ≡ string_bytes out.old ++ boxes_from plan.now entries.now only 0 plan.now.boxes) }
{
    for (at, _) in plan.boxes.as_slice().iter().enumerate() {
        if is_wanted(only, at as u32) {
            put_box(out, alloc, plan, entries, at as u32, &sheets[at])?;
            out.push('\n')?;
        }
    }
    Ok(())
}

/// The sheets of a journal as text, of one box or of all: of each box the sheet of the down line and that of the up
/// line, and how many entries stand beside them. A sheet is parted into pages of 40 rows, each behind a heading. A row
/// is a line, in columns of fixed width with the moments of the entries that stand there, or a remark, which is what
/// that entry tells.
#[tactic(auto, using(crate::proofs::Few::few_boxes), unfolding(crate::specs::Texts::sheet_text))]
pub fn sheet_text(
    alloc: Global,
    plan: &Plan,
    entries: &[Entry],
    only: Option<u32>,
) -> Result<String, NoMemory>
    ensures { IfOk result (λ text. string_bytes text ≡ sheet_text plan.now entries.now only) }
{
    plan.meets_conditions();
    let sheets = sheets_of(alloc, plan, entries)?;
    let mut out = String::new(alloc);
    put_boxes(&mut out, alloc, plan, entries, only, &sheets)?;
    drop(sheets);
    Ok(out)
}
