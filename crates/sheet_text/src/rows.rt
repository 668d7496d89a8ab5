//! The rows of a sheet: its lines, each with its remarks below it.

ghost use Rattle.std.specs.Prelude.{◌≡◌, ◌++◌, ◌<◌, ℕ, IfOk, OnOk, length, slice_index_or};
ghost use Rattle.std.specs.Global.{Vec};
ghost use Rattle.line_plan.specs.Frames.{same_way};
ghost use Rattle.sheet_text.specs.Rows.{is_of_sheet, line_rows, remarks_of, rows_from, rows_of};
ghost use Rattle.sheet_text.specs.Rows.{sheet_remarks};

use block_words::Way;
use rail_text::NoMemory;
use register_sheet::{BoxSheet, Line, Remark};
use std::alloc::Global;

/// A row of a sheet. Entries are numbered from 0 in their journal.
#[derive(Clone, Copy, Debug)]
pub enum Row {
    /// A line, with its number on its sheet, from 1.
    Line { number: usize, line: Line },
    /// An entry among the remarks of the line above, or of the sheet.
    Remark { entry: usize },
}

// No remarks of so many lines.
fn no_remarks(alloc: Global, lines: usize) -> Result<Vec<Vec<usize>>, NoMemory>
    ensures count { IfOk result (λ parts. length parts.items ≡ lines) }
    ensures none { IfOk result (λ parts. (t : ℕ) (d : Vec ℕ) → t < lines
        → length (slice_index_or parts.items t d).items ≡ 0) }
{
    let mut parts = Vec::new(alloc);
    for _ in 0..lines {
        parts.push(Vec::new(alloc))?;
    }
    Ok(parts)
}

// The remarks of each of so many lines.
#[tactic(auto, using(crate::proofs::Dealing::deal_rules))]
fn part_remarks(
    alloc: Global,
    lines: usize,
    remarks: &[Remark],
) -> Result<Vec<Vec<usize>>, NoMemory>
    ensures count { IfOk result (λ parts. length parts.items ≡ lines) }
    ensures each { IfOk result (λ parts. (t : ℕ) (d : Vec ℕ) → t < lines
        → (slice_index_or parts.items t d).items ≡ remarks_of t remarks.now) }
{
    let mut parts = no_remarks(alloc, lines)?;
    for remark in remarks {
        if let Some(line) = remark.line {
            if line < lines {
                parts[line].push(remark.entry)?;
            }
        }
    }
    Ok(parts)
}

// Whether two ways are the same.
fn same_way(one: Way, other: Way) -> bool
    ensures { result ≡ same_way one other }
{
    match one {
        Way::Up => matches!(other, Way::Up),
        Way::Down => matches!(other, Way::Down),
    }
}

// Whether a remark stands at the head of the sheet of a way: it is of no line.
fn is_of_sheet(way: Way, lines: usize, remark: &Remark) -> bool
    ensures { result ≡ is_of_sheet way lines remark.now }
{
    let is_of_line = match remark.line {
        Some(line) => line < lines,
        None => false,
    };
    !is_of_line && same_way(remark.way, way)
}

// Adds the remarks at the head of the sheet of a way.
fn add_sheet_remarks(
    rows: &mut Vec<Row>,
    way: Way,
    lines: usize,
    remarks: &[Remark],
) -> Result<(), NoMemory>
    ensures { OnOk result (rows.new.items ≡ rows.old.items ++ sheet_remarks way lines remarks.now) }
{
    for remark in remarks {
        if is_of_sheet(way, lines, remark) {
            rows.push(Row::Remark {
                entry: remark.entry,
            })?;
        }
    }
    Ok(())
}

// Adds a line with its remarks.
fn add_line(
    rows: &mut Vec<Row>,
    number: usize,
    line: Line,
    remarks: &[usize],
) -> Result<(), NoMemory>
    ensures { OnOk result (rows.new.items ≡ rows.old.items ++ line_rows number line remarks.now) }
{
    rows.push(Row::Line { number, line })?;
    for entry in remarks {
        rows.push(Row::Remark { entry: *entry })?;
    }
    Ok(())
}

// Adds the lines of a way, each with its remarks.
fn add_lines(
    rows: &mut Vec<Row>,
    way: Way,
    lines: &[Line],
    remarks: &[Remark],
    parts: &[Vec<usize>],
) -> Result<(), NoMemory>
    requires count { length parts.now ≡ length lines.now }
    requires each { (t : ℕ) (d : Vec ℕ) → t < length lines.now
        → (slice_index_or parts.now t d).items ≡ remarks_of t remarks.now }
    ensures { OnOk result (rows.new.items ≡ rows.old.items ++ rows_from way 1 0 remarks.now lines.now) }
{
    let mut number = 0;
    for (at, line) in lines.iter().enumerate() {
        if same_way(line.way, way) {
            number += 1;
            add_line(rows, number, *line, &parts[at])?;
        }
    }
    Ok(())
}

/// The rows of the sheet of a way at a box: the remarks that are of no line, and then its lines, each with its remarks.
pub fn rows_of(alloc: Global, way: Way, sheet: &BoxSheet) -> Result<Vec<Row>, NoMemory>
    ensures { IfOk result (λ rows. rows.items ≡ rows_of way sheet.now) }
{
    let lines = sheet.lines();
    let remarks = sheet.remarks();
    let parts = part_remarks(alloc, lines.len(), remarks)?;
    let mut rows = Vec::new(alloc);
    add_sheet_remarks(&mut rows, way, lines.len(), remarks)?;
    add_lines(&mut rows, way, lines, remarks, &parts)?;
    Ok(rows)
}
