//! The table of a page: its heads, and a line for each lever.

ghost use Rattle.std.specs.Prelude.{◌≡◌, ◌++◌, ◌∷◌, ◌<◌, OnOk, length};
ghost use Rattle.locking_page.specs.Lines.{body_text, column_head, columns_text, first_heads, head_text, lever_text};
ghost use Rattle.locking_page.specs.Lines.{line_text, lines_text, other_heads, table_head, table_text};

use crate::cells::{put_column, put_converse_cell};
use line_plan::{Lever, kind_word};
use locking_sheet::LockingSheet;
use locking_table::{Row, RowKind};
use mark_up::{Name, Page, Tag, Value};
use std::alloc::{AllocError, Global};

// The heads of the columns.
const LEVER: &str = "Lever";

const WORKS: &str = "Works";

const RELEASED_BY: &str = "Released by";

const LOCKS_NORMAL: &str = "Locks normal";

const LOCKS_BOTH: &str = "Locks both ways";

const CONVERSE: &str = "Converse";

// Puts a head of a column or of a line.
#[tactic(auto, unfolding(crate::specs::Lines::head_text))]
fn put_head(page: &mut Page, scope: &str, said: &str) -> Result<(), AllocError>
    ensures text { OnOk result (page.new.text ≡ page.old.text ++ head_text scope.now said.now) }
    ensures tags { OnOk result (page.new.open_tags ≡ page.old.open_tags) }
{
    page.put_text(Tag::HeadCell, &[(Name::Scope, Value::Text(scope))], said)
}

// Puts the head of a lever's line, and what it works.
#[tactic(auto, unfolding(crate::specs::Lines::lever_text))]
fn put_lever(page: &mut Page, alloc: Global, lever: &Lever) -> Result<(), AllocError>
    ensures text { OnOk result (page.new.text ≡ page.old.text ++ lever_text lever.now) }
    ensures tags { OnOk result (page.new.open_tags ≡ page.old.open_tags) }
{
    let number = lever.number;
    let said = format!(in alloc; "{number}")?;
    put_head(page, "row", said.as_str())?;
    page.put_text(Tag::Cell, &[], kind_word(lever.kind))
}

// Puts a lever's own rows, in three columns.
#[tactic(auto, unfolding(crate::specs::Lines::columns_text))]
fn put_columns(
    page: &mut Page,
    alloc: Global,
    rows: &[Row],
    places: &[usize],
) -> Result<(), AllocError>
    requires { 0 < length page.old.open_tags }
    ensures text { OnOk result (page.new.text ≡ page.old.text ++ columns_text rows.now places.now) }
    ensures tags { OnOk result (page.new.open_tags ≡ page.old.open_tags) }
{
    put_column(page, alloc, rows, places, RowKind::ReleasedBy)?;
    put_column(page, alloc, rows, places, RowKind::LocksNormal)?;
    put_column(page, alloc, rows, places, RowKind::LocksBoth)
}

// Puts the line of a lever.
#[tactic(auto, unfolding(crate::specs::Lines::line_text))]
fn put_line(
    page: &mut Page,
    alloc: Global,
    rows: &[Row],
    sheet: &LockingSheet,
    lever: &Lever,
) -> Result<(), AllocError>
    requires { 0 < length page.old.open_tags }
    ensures text { OnOk result (page.new.text ≡ page.old.text ++ line_text rows.now sheet.now lever.now) }
    ensures tags { OnOk result (page.new.open_tags ≡ page.old.open_tags) }
{
    page.say("\n")?;
    page.start(
        Tag::TableRow,
        &[(Name::Class, Value::Text(kind_word(lever.kind)))],
    )?;
    put_lever(page, alloc, lever)?;
    put_columns(page, alloc, rows, sheet.own(lever.number))?;
    put_converse_cell(page, alloc, rows, sheet.converse(lever.number))?;
    page.end()
}

// Puts the lines of levers.
fn put_lines(
    page: &mut Page,
    alloc: Global,
    rows: &[Row],
    sheet: &LockingSheet,
    levers: &[Lever],
) -> Result<(), AllocError>
    requires { 0 < length page.old.open_tags }
    ensures text { OnOk result (page.new.text ≡ page.old.text ++ lines_text rows.now sheet.now levers.now) }
    ensures tags { OnOk result (page.new.open_tags ≡ page.old.open_tags) }
{
    for lever in levers {
        put_line(page, alloc, rows, sheet, lever)?;
    }
    Ok(())
}

// Puts the body of a table.
#[tactic(auto, unfolding(crate::specs::Lines::body_text))]
fn put_body(
    page: &mut Page,
    alloc: Global,
    rows: &[Row],
    sheet: &LockingSheet,
    levers: &[Lever],
) -> Result<(), AllocError>
    requires { 0 < length page.old.open_tags }
    ensures text { OnOk result (page.new.text ≡ page.old.text ++ body_text rows.now sheet.now levers.now) }
    ensures tags { OnOk result (page.new.open_tags ≡ page.old.open_tags) }
{
    page.start(Tag::TableBody, &[])?;
    put_lines(page, alloc, rows, sheet, levers)?;
    page.end()
}

// Puts the head of a column.
#[tactic(auto, unfolding(crate::specs::Lines::column_head))]
fn put_column_head(page: &mut Page, said: &str) -> Result<(), AllocError>
    ensures text { OnOk result (page.new.text ≡ page.old.text ++ column_head said.now) }
    ensures tags { OnOk result (page.new.open_tags ≡ page.old.open_tags) }
{
    put_head(page, "col", said)
}

// Puts the heads of the first columns.
#[tactic(auto, unfolding(crate::specs::Lines::first_heads))]
fn put_first_heads(page: &mut Page) -> Result<(), AllocError>
    ensures text { OnOk result (page.new.text ≡ page.old.text ++ first_heads) }
    ensures tags { OnOk result (page.new.open_tags ≡ page.old.open_tags) }
{
    put_column_head(page, LEVER)?;
    put_column_head(page, WORKS)?;
    put_column_head(page, RELEASED_BY)
}

// Puts those of the others.
#[tactic(auto, unfolding(crate::specs::Lines::other_heads))]
fn put_other_heads(page: &mut Page) -> Result<(), AllocError>
    ensures text { OnOk result (page.new.text ≡ page.old.text ++ other_heads) }
    ensures tags { OnOk result (page.new.open_tags ≡ page.old.open_tags) }
{
    put_column_head(page, LOCKS_NORMAL)?;
    put_column_head(page, LOCKS_BOTH)?;
    put_column_head(page, CONVERSE)
}

// Puts the head of a table.
#[tactic(auto, unfolding(crate::specs::Lines::table_head))]
fn put_table_head(page: &mut Page) -> Result<(), AllocError>
    requires { 0 < length page.old.open_tags }
    ensures text { OnOk result (page.new.text ≡ page.old.text ++ table_head) }
    ensures tags { OnOk result (page.new.open_tags ≡ page.old.open_tags) }
{
    page.start(Tag::TableHead, &[])?;
    page.start(Tag::TableRow, &[])?;
    put_first_heads(page)?;
    put_other_heads(page)?;
    page.end()?;
    page.end()
}

/// Puts the table of these rows, with a line for each of these levers.
#[tactic(auto, unfolding(crate::specs::Lines::table_text))]
pub fn put_table(
    page: &mut Page,
    alloc: Global,
    rows: &[Row],
    sheet: &LockingSheet,
    levers: &[Lever],
) -> Result<(), AllocError>
    requires { 0 < length page.old.open_tags }
    ensures text { OnOk result (page.new.text ≡ page.old.text ++ table_text rows.now sheet.now levers.now) }
    ensures tags { OnOk result (page.new.open_tags ≡ page.old.open_tags) }
{
    page.start(Tag::Table, &[])?;
    put_table_head(page)?;
    put_body(page, alloc, rows, sheet, levers)?;
    page.end()
}
