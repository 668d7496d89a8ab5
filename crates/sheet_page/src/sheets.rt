//! The sheets of boxes.

ghost use Rattle.std.specs.Prelude.{◌≡◌, ◌++◌, ◌∷◌, ◌<◌, ◌^◌, ℕ, OnOk, length, slice_index_or};
ghost use Rattle.mark_up.specs.declared.tags.Tag.TheVariants.{Section};
ghost use Rattle.register_sheet.specs.Sheets.{no_sheet, sheet_of};
ghost use Rattle.sheet_page.specs.Pages.{beside_html, box_html, boxes_from, no_train_html, section_start, sheet_html};
ghost use Rattle.sheet_page.specs.Pages.{table_html};
ghost use Rattle.sheet_text.specs.Rows.{rows_of};

use crate::columns::{put_groups, put_head};
use crate::rows::put_body;
use crate::words::{beside_of, no_train, title_of};
use block_words::Way;
use line_law::Entry;
use line_plan::Plan;
use mark_up::{Page, Tag};
use rail_text::NoMemory;
use register_sheet::BoxSheet;
use sheet_text::{Row, is_wanted, rows_of};
use std::alloc::{AllocError, Global};

// The table of a sheet, behind its caption.
#[tactic(auto, unfolding(crate::specs::Pages::table_html))]
fn put_table(
    page: &mut Page,
    alloc: Global,
    plan: &Plan,
    entries: &[Entry],
    box_no: u32,
    way: Way,
    rows: &[Row],
) -> Result<(), AllocError>
    requires { 0 < length page.old.open_tags }
    ensures text { OnOk result (page.new.text
        ≡ page.old.text ++ table_html plan.now entries.now box_no way rows.now) }
    ensures tags { OnOk result (page.new.open_tags ≡ page.old.open_tags) }
{
    let title = title_of(alloc, plan, box_no, way)?;
    page.start(Tag::Table, &[])?;
    page.put_text(Tag::Caption, &[], title.as_str())?;
    put_groups(page)?;
    put_head(page, title.as_str())?;
    put_body(page, alloc, plan, entries, rows)?;
    page.end()
}

// That there is no train.
#[tactic(auto, unfolding(crate::specs::Pages::no_train_html))]
fn put_no_train(
    page: &mut Page,
    alloc: Global,
    plan: &Plan,
    box_no: u32,
    way: Way,
) -> Result<(), AllocError>
    ensures text { OnOk result (page.new.text ≡ page.old.text ++ no_train_html plan.now box_no way) }
    ensures tags { OnOk result (page.new.open_tags ≡ page.old.open_tags) }
{
    let text = no_train(alloc, plan, box_no, way)?;
    page.put_text(Tag::Paragraph, &[], text.as_str())
}

// A sheet: the table of its rows, or that there is no train.
fn put_sheet_rows(
    page: &mut Page,
    alloc: Global,
    plan: &Plan,
    entries: &[Entry],
    box_no: u32,
    way: Way,
    rows: &[Row],
) -> Result<(), AllocError>
    requires { 0 < length page.old.open_tags }
    ensures text { OnOk result (page.new.text
        ≡ page.old.text ++ sheet_html plan.now entries.now box_no way rows.now) }
    ensures tags { OnOk result (page.new.open_tags ≡ page.old.open_tags) }
{
    if rows.is_empty() {
        put_no_train(page, alloc, plan, box_no, way)
    } else {
        put_table(page, alloc, plan, entries, box_no, way, rows)
    }
}

// The sheet of a way at a box.
fn put_sheet(
    page: &mut Page,
    alloc: Global,
    plan: &Plan,
    entries: &[Entry],
    box_no: u32,
    way: Way,
    sheet: &BoxSheet,
) -> Result<(), NoMemory>
    requires { 0 < length page.old.open_tags }
    ensures text { OnOk result (page.new.text
        ≡ page.old.text ++ sheet_html plan.now entries.now box_no way (rows_of way sheet.now)) }
    ensures tags { OnOk result (page.new.open_tags ≡ page.old.open_tags) }
{
    let rows = rows_of(alloc, way, sheet)?;
    put_sheet_rows(page, alloc, plan, entries, box_no, way, &rows)?;
    Ok(())
}

// How many entries of a box stand beside its sheets.
#[tactic(auto, unfolding(crate::specs::Pages::beside_html))]
fn put_beside(
    page: &mut Page,
    alloc: Global,
    plan: &Plan,
    box_no: u32,
    count: usize,
) -> Result<(), AllocError>
    ensures text { OnOk result (page.new.text ≡ page.old.text ++ beside_html plan.now box_no count) }
    ensures tags { OnOk result (page.new.open_tags ≡ page.old.open_tags) }
{
    let text = beside_of(alloc, plan, box_no, count)?;
    page.put_text(Tag::Paragraph, &[], text.as_str())
}

// Begins the section of a box, with its name.
#[tactic(auto, unfolding(crate::specs::Pages::section_start))]
fn begin_section(page: &mut Page, plan: &Plan, box_no: u32) -> Result<(), AllocError>
    requires { box_no < length plan.now.boxes }
    ensures text { OnOk result (page.new.text ≡ page.old.text ++ section_start plan.now box_no) }
    ensures tags { OnOk result (page.new.open_tags ≡ Section ∷ page.old.open_tags) }
{
    page.say("\n")?;
    page.start(Tag::Section, &[])?;
    page.put_text(Tag::Subheading, &[], plan.box_name(box_no))
}

// A box: the sheet of the down line and that of the up line, and how many entries stand beside them.
#[tactic(auto, unfolding(crate::specs::Pages::box_html))]
fn put_box(
    page: &mut Page,
    alloc: Global,
    plan: &Plan,
    entries: &[Entry],
    box_no: u32,
    sheet: &BoxSheet,
) -> Result<(), NoMemory>
    requires known { box_no < length plan.now.boxes }
    requires root { 0 < length page.old.open_tags }
    ensures text { OnOk result (page.new.text ≡ page.old.text ++ box_html plan.now entries.now box_no sheet.now) }
    ensures tags { OnOk result (page.new.open_tags ≡ page.old.open_tags) }
{
    begin_section(page, plan, box_no)?;
    put_sheet(page, alloc, plan, entries, box_no, Way::Down, sheet)?;
    put_sheet(page, alloc, plan, entries, box_no, Way::Up, sheet)?;
    put_beside(page, alloc, plan, box_no, sheet.beside().len())?;
    page.end()?;
    Ok(())
}

/// Puts the sheets of the boxes that are asked for, box by box.
pub fn put_boxes(
    page: &mut Page,
    alloc: Global,
    plan: &Plan,
    entries: &[Entry],
    only: Option<u32>,
    sheets: &[BoxSheet],
) -> Result<(), NoMemory>
    requires root { 0 < length page.old.open_tags }
    requires few { length plan.now.boxes < 2 ^ 32 }
    requires count { length sheets.now ≡ length plan.now.boxes }
    requires each { (b : ℕ) → b < length plan.now.boxes
        → slice_index_or sheets.now b no_sheet ≡ sheet_of plan.now b entries.now }
    ensures text { OnOk result (page.new.text
        ≡ page.old.text ++ boxes_from plan.now entries.now only 0 plan.now.boxes) }
    ensures tags { OnOk result (page.new.open_tags ≡ page.old.open_tags) }
{
    for (at, _) in plan.boxes.as_slice().iter().enumerate() {
        if is_wanted(only, at as u32) {
            put_box(page, alloc, plan, entries, at as u32, &sheets[at])?;
        }
    }
    Ok(())
}
