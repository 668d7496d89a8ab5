//! The text of a locking table.

ghost use Rattle.std.specs.Prelude.{◌≡◌, ◌++◌, IfOk, OnOk, codes, string_bytes};
ghost use Rattle.locking_sheet.specs.Items.{converse_text, item_text};
ghost use Rattle.locking_sheet.specs.Lines.{put};
ghost use Rattle.locking_sheet.specs.Texts.{IsSheetText, converses_onto, items_onto, legend_text, lever_head, lever_onto};
ghost use Rattle.locking_sheet.specs.Texts.{levers_onto, other_onto, own_onto, padded_text, sheet_text, title_text};
ghost use Rattle.locking_sheet.specs.Texts.{works_text};

use crate::items::{put_converse, put_item};
use crate::lines::Lines;
use crate::sheet::{LockingSheet, sheet_of};
use line_plan::{Lever, kind_word};
use locking_table::{NoMemory, Row};
use std::alloc::{AllocError, Global};
use std::fmt::Write;

// The number of a lever in three columns.
fn put_padded(out: &mut String, number: u32) -> Result<(), AllocError>
    ensures { OnOk result (string_bytes out.new ≡ string_bytes out.old ++ padded_text number) }
{
    if number < 10 {
        write!(out, "  {number}")
    } else if number < 100 {
        write!(out, " {number}")
    } else {
        write!(out, "{number}")
    }
}

// The beginning of a lever's lines.
#[tactic(auto, unfolding(crate::specs::Texts::lever_head))]
fn lever_head(alloc: Global, lever: u32) -> Result<String, AllocError>
    ensures { IfOk result (λ head. string_bytes head ≡ lever_head lever) }
{
    let mut head = String::new(alloc);
    put_padded(&mut head, lever)?;
    head.push_str(":")?;
    Ok(head)
}

// Puts a row at its subject.
fn put_own_row(
    lines: &mut Lines,
    alloc: Global,
    head: &str,
    number: usize,
    row: &Row,
) -> Result<(), AllocError>
    ensures { OnOk result (lines.new ≡ put head.now lines.old (item_text number row.now)) }
{
    let mut piece = String::new(alloc);
    put_item(&mut piece, number, row)?;
    lines.put(head, piece.as_str())
}

// Puts one of a lever's own rows.
fn put_own(
    lines: &mut Lines,
    alloc: Global,
    head: &str,
    rows: &[Row],
    place: usize,
) -> Result<(), AllocError>
    ensures { OnOk result (lines.new ≡ own_onto head.now rows.now lines.old place) }
{
    if place < rows.len() {
        put_own_row(lines, alloc, head, place + 1, &rows[place])
    } else {
        Ok(())
    }
}

// Puts a lever's own rows.
fn put_items(
    lines: &mut Lines,
    alloc: Global,
    head: &str,
    rows: &[Row],
    places: &[usize],
) -> Result<(), AllocError>
    ensures { OnOk result (lines.new ≡ items_onto head.now rows.now lines.old places.now) }
{
    for place in places {
        put_own(lines, alloc, head, rows, *place)?;
    }
    Ok(())
}

// Puts a row at its object.
fn put_other_row(
    lines: &mut Lines,
    alloc: Global,
    number: usize,
    row: &Row,
) -> Result<(), AllocError>
    ensures { OnOk result (lines.new ≡ put (codes "     |") lines.old (converse_text number row.now)) }
{
    let mut piece = String::new(alloc);
    put_converse(&mut piece, number, row)?;
    lines.put("     |", piece.as_str())
}

// Puts one of the rows whose object a lever is.
fn put_other(lines: &mut Lines, alloc: Global, rows: &[Row], place: usize) -> Result<(), AllocError>
    ensures { OnOk result (lines.new ≡ other_onto rows.now lines.old place) }
{
    if place < rows.len() {
        put_other_row(lines, alloc, place + 1, &rows[place])
    } else {
        Ok(())
    }
}

// Puts the rows whose object a lever is.
fn put_converses(
    lines: &mut Lines,
    alloc: Global,
    rows: &[Row],
    places: &[usize],
) -> Result<(), AllocError>
    ensures { OnOk result (lines.new ≡ converses_onto rows.now lines.old places.now) }
{
    for place in places {
        put_other(lines, alloc, rows, *place)?;
    }
    Ok(())
}

// What a lever works, behind a bar.
#[tactic(auto, unfolding(crate::specs::Texts::works_text))]
fn works_text(alloc: Global, lever: &Lever) -> Result<String, AllocError>
    ensures { IfOk result (λ text. string_bytes text ≡ works_text lever.now) }
{
    let mut text = String::new(alloc);
    text.push_str(" | ")?;
    text.push_str(kind_word(lever.kind))?;
    text.push_str(";")?;
    Ok(text)
}

// Puts the line of a lever, which goes on where it is full.
#[tactic(auto, unfolding(crate::specs::Texts::lever_onto))]
fn put_lever(
    lines: &mut Lines,
    alloc: Global,
    rows: &[Row],
    sheet: &LockingSheet,
    lever: &Lever,
) -> Result<(), AllocError>
    ensures { OnOk result (lines.new ≡ lever_onto rows.now sheet.now lines.old lever.now) }
{
    let head = lever_head(alloc, lever.number)?;
    let works = works_text(alloc, lever)?;
    lines.begin(head.as_str())?;
    put_items(lines, alloc, head.as_str(), rows, sheet.own(lever.number))?;
    lines.put("    ", works.as_str())?;
    put_converses(lines, alloc, rows, sheet.converse(lever.number))?;
    lines.end_line()
}

fn put_levers(
    lines: &mut Lines,
    alloc: Global,
    rows: &[Row],
    sheet: &LockingSheet,
    levers: &[Lever],
) -> Result<(), AllocError>
    ensures { OnOk result (lines.new ≡ levers_onto rows.now sheet.now lines.old levers.now) }
{
    for lever in levers {
        put_lever(lines, alloc, rows, sheet, lever)?;
    }
    Ok(())
}

// What is told of the lines.
#[tactic(auto, unfolding(crate::specs::Texts::legend_text))]
fn legend() -> &'static str
    ensures { result.now ≡ legend_text }
{
    "# each lever's own rows; behind the bar what it works, and the converse of other levers' rows\n"
}

// What stands above the lines.
#[tactic(auto, unfolding(crate::specs::Texts::title_text))]
fn title_text(alloc: Global, name: &str) -> Result<String, AllocError>
    ensures { IfOk result (λ text. string_bytes text ≡ title_text name.now) }
{
    let mut text = String::new(alloc);
    text.push_str("# locking table of ")?;
    text.push_str(name)?;
    text.push_str("\n")?;
    text.push_str(legend())?;
    Ok(text)
}

/// The text of the locking table with these rows, of a frame that has these levers.
#[tactic(auto, unfolding(crate::specs::Texts::sheet_text))]
pub fn sheet_text(
    alloc: Global,
    name: &str,
    levers: &[Lever],
    rows: &[Row],
) -> Result<String, NoMemory>
    ensures { IfOk result (λ text. IsSheetText name.now levers.now rows.now (string_bytes text)) }
{
    let sheet = sheet_of(alloc, rows)?;
    let title = title_text(alloc, name)?;
    let mut lines = Lines::new(title);
    put_levers(&mut lines, alloc, rows, &sheet, levers)?;
    Ok(lines.into_text())
}
