//! The rows of a sheet.

ghost use Rattle.std.specs.Prelude.{◌≡◌, ◌++◌, ◌<◌, OnOk, length};
ghost use Rattle.sheet_page.specs.Rows.{body_html, cell_html, cells_html, description_html, line_html, number_html};
ghost use Rattle.sheet_page.specs.Rows.{remark_html, row_html, rows_html};

use crate::columns::begin_row;
use crate::words::{described, moment_word, number_of, told_word};
use bell_codes::CodeNo;
use line_law::Entry;
use line_plan::Plan;
use mark_up::{Name, Page, Tag, Value};
use register_sheet::Line;
use sheet_text::Row;
use std::alloc::{AllocError, Global};

// The number of a line, which is the head of its row.
#[tactic(auto, unfolding(crate::specs::Rows::number_html))]
fn put_number(page: &mut Page, alloc: Global, number: usize) -> Result<(), AllocError>
    ensures text { OnOk result (page.new.text ≡ page.old.text ++ number_html number) }
    ensures tags { OnOk result (page.new.open_tags ≡ page.old.open_tags) }
{
    let text = number_of(alloc, number)?;
    page.put_text(
        Tag::HeadCell,
        &[(Name::Scope, Value::Text("row"))],
        text.as_str(),
    )
}

// The description of its train.
#[tactic(auto, unfolding(crate::specs::Rows::description_html))]
fn put_description(
    page: &mut Page,
    alloc: Global,
    plan: &Plan,
    code: CodeNo,
) -> Result<(), AllocError>
    ensures text { OnOk result (page.new.text ≡ page.old.text ++ description_html plan.now code) }
    ensures tags { OnOk result (page.new.open_tags ≡ page.old.open_tags) }
{
    let text = described(alloc, plan, code)?;
    page.put_text(Tag::Cell, &[], text.as_str())
}

// A column of it: the moment of the entry that stands there.
#[tactic(auto, unfolding(crate::specs::Rows::cell_html))]
fn put_cell(
    page: &mut Page,
    alloc: Global,
    plan: &Plan,
    entries: &[Entry],
    cell: Option<usize>,
) -> Result<(), AllocError>
    ensures text { OnOk result (page.new.text ≡ page.old.text ++ cell_html plan.now entries.now cell) }
    ensures tags { OnOk result (page.new.open_tags ≡ page.old.open_tags) }
{
    let text = moment_word(alloc, plan, entries, cell)?;
    page.put_text(Tag::Cell, &[], text.as_str())
}

// Its columns.
fn put_cells(
    page: &mut Page,
    alloc: Global,
    plan: &Plan,
    entries: &[Entry],
    cells: &[Option<usize>],
) -> Result<(), AllocError>
    ensures text { OnOk result (page.new.text ≡ page.old.text ++ cells_html plan.now entries.now cells.now) }
    ensures tags { OnOk result (page.new.open_tags ≡ page.old.open_tags) }
{
    for cell in cells {
        put_cell(page, alloc, plan, entries, *cell)?;
    }
    Ok(())
}

// A line.
#[tactic(auto, unfolding(crate::specs::Rows::line_html))]
fn put_line(
    page: &mut Page,
    alloc: Global,
    plan: &Plan,
    entries: &[Entry],
    number: usize,
    line: &Line,
) -> Result<(), AllocError>
    requires { 0 < length page.old.open_tags }
    ensures text { OnOk result (page.new.text ≡ page.old.text ++ line_html plan.now entries.now number line.now) }
    ensures tags { OnOk result (page.new.open_tags ≡ page.old.open_tags) }
{
    begin_row(page)?;
    put_number(page, alloc, number)?;
    put_description(page, alloc, plan, line.code)?;
    put_cells(page, alloc, plan, entries, &line.cells)?;
    page.end()
}

// A remark, over all columns: what the entry of this number tells.
#[tactic(auto, unfolding(crate::specs::Rows::remark_html))]
fn put_remark(
    page: &mut Page,
    alloc: Global,
    plan: &Plan,
    entries: &[Entry],
    at: usize,
) -> Result<(), AllocError>
    requires { 0 < length page.old.open_tags }
    ensures text { OnOk result (page.new.text ≡ page.old.text ++ remark_html plan.now entries.now at) }
    ensures tags { OnOk result (page.new.open_tags ≡ page.old.open_tags) }
{
    let text = told_word(alloc, plan, entries, at)?;
    begin_row(page)?;
    page.put_text(
        Tag::Cell,
        &[
            (Name::Class, Value::Text("remark")),
            (Name::ColumnSpan, Value::Number(12)),
        ],
        text.as_str(),
    )?;
    page.end()
}

// A row: a line in its columns, or a remark below it.
fn put_row(
    page: &mut Page,
    alloc: Global,
    plan: &Plan,
    entries: &[Entry],
    row: &Row,
) -> Result<(), AllocError>
    requires { 0 < length page.old.open_tags }
    ensures text { OnOk result (page.new.text ≡ page.old.text ++ row_html plan.now entries.now row.now) }
    ensures tags { OnOk result (page.new.open_tags ≡ page.old.open_tags) }
{
    match row {
        Row::Line { number, line } => put_line(page, alloc, plan, entries, *number, line),
        Row::Remark { entry } => put_remark(page, alloc, plan, entries, *entry),
    }
}

// The rows of a sheet.
fn put_rows(
    page: &mut Page,
    alloc: Global,
    plan: &Plan,
    entries: &[Entry],
    rows: &[Row],
) -> Result<(), AllocError>
    requires { 0 < length page.old.open_tags }
    ensures text { OnOk result (page.new.text ≡ page.old.text ++ rows_html plan.now entries.now rows.now) }
    ensures tags { OnOk result (page.new.open_tags ≡ page.old.open_tags) }
{
    for row in rows {
        put_row(page, alloc, plan, entries, row)?;
    }
    Ok(())
}

/// Puts the body of a table: the rows of a sheet, each once, in their order.
#[tactic(auto, unfolding(crate::specs::Rows::body_html))]
pub fn put_body(
    page: &mut Page,
    alloc: Global,
    plan: &Plan,
    entries: &[Entry],
    rows: &[Row],
) -> Result<(), AllocError>
    requires { 0 < length page.old.open_tags }
    ensures text { OnOk result (page.new.text ≡ page.old.text ++ body_html plan.now entries.now rows.now) }
    ensures tags { OnOk result (page.new.open_tags ≡ page.old.open_tags) }
{
    page.start(Tag::TableBody, &[])?;
    put_rows(page, alloc, plan, entries, rows)?;
    page.end()
}
