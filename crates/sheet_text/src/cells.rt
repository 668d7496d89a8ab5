//! The columns of a line, and a remark.

ghost use Rattle.std.specs.Prelude.{◌≡◌, ◌++◌, IfOk, OnOk, replicate, slice_get, string_bytes};
ghost use Rattle.std.specs.List.{flat_map};
ghost use Rattle.sheet_text.specs.Cells.{cell_text, class_word, code_word, described_text, description_text, entry_cell};
ghost use Rattle.sheet_text.specs.Cells.{line_text, moment_pad, number_pad, number_text, remark_text, row_text, told_by};
ghost use Rattle.sheet_text.specs.Cells.{told_or};
ghost use Rattle.script_text.specs.Moments.{hundred_hours};

use crate::rows::Row;
use bell_codes::CodeNo;
use line_law::{Entry, is_code_no, knows};
use line_plan::Plan;
use register_sheet::{Line, class_of};
use script_text::{is_spelled_reply, put_code, put_moment, put_number, put_told};
use std::alloc::{AllocError, Global};

// So many spaces.
#[tactic(auto, using(crate::proofs::Spaces::space_more))]
fn put_spaces(out: &mut String, count: usize) -> Result<(), AllocError>
    ensures { OnOk result (string_bytes out.new ≡ string_bytes out.old ++ replicate count 32) }
{
    for _ in 0..count {
        out.push(' ')?;
    }
    Ok(())
}

// The spaces before a number of a line in five columns.
fn put_number_pad(out: &mut String, number: usize) -> Result<(), AllocError>
    ensures { OnOk result (string_bytes out.new ≡ string_bytes out.old ++ number_pad number) }
{
    if number < 10 {
        out.push_str("    ")
    } else if number < 100 {
        out.push_str("   ")
    } else if number < 1000 {
        out.push_str("  ")
    } else if number < 10_000 {
        out.push_str(" ")
    } else {
        out.push_str("")
    }
}

// A number of a line, in five columns.
fn put_line_number(out: &mut String, number: usize) -> Result<(), AllocError>
    ensures { OnOk result (string_bytes out.new ≡ string_bytes out.old ++ number_text number) }
{
    put_number_pad(out, number)?;
    put_number(out, number as u64)
}

// The name of the first class that is offered by a code, or that there is none.
fn put_class(out: &mut String, plan: &Plan, code: CodeNo) -> Result<(), AllocError>
    ensures { OnOk result (string_bytes out.new ≡ string_bytes out.old ++ class_word plan.now code) }
{
    let Some(class) = class_of(plan, code) else {
        return out.push_str("no class");
    };
    match plan.classes.as_slice().get(class) {
        Some(class) => out.push_str(class.name.as_str()),
        None => out.push_str("no class"),
    }
}

// A code.
fn put_code_word(out: &mut String, plan: &Plan, code: CodeNo) -> Result<(), AllocError>
    ensures { OnOk result (string_bytes out.new ≡ string_bytes out.old ++ code_word plan.now code) }
{
    if is_code_no(plan, code) {
        put_code(out, plan, code)
    } else {
        out.push_str("no code")
    }
}

/// Puts the description of a train behind a text: its class and its code. Where memory runs out a part may stand
/// behind the text.
#[tactic(auto, unfolding(crate::specs::Cells::description_text))]
pub fn put_described(out: &mut String, plan: &Plan, code: CodeNo) -> Result<(), AllocError>
    ensures { OnOk result (string_bytes out.new ≡ string_bytes out.old ++ description_text plan.now code) }
{
    put_class(out, plan, code)?;
    out.push(' ')?;
    put_code_word(out, plan, code)
}

// The description of a train.
fn described(alloc: Global, plan: &Plan, code: CodeNo) -> Result<String, AllocError>
    ensures { IfOk result (λ text. string_bytes text ≡ description_text plan.now code) }
{
    let mut text = String::new(alloc);
    put_described(&mut text, plan, code)?;
    Ok(text)
}

// The description of a train, in 28 columns.
fn put_description(
    out: &mut String,
    alloc: Global,
    plan: &Plan,
    code: CodeNo,
) -> Result<(), AllocError>
    ensures { OnOk result (string_bytes out.new ≡ string_bytes out.old ++ described_text plan.now code) }
{
    let text = described(alloc, plan, code)?;
    out.push_str(text.as_str())?;
    put_spaces(out, 28usize.saturating_sub(text.len()))
}

/// A moment below this is printed with two digits for the hours.
pub fn hundred_hours(version: u8) -> u32
    ensures { result ≡ hundred_hours version }
{
    if version == 1 { 6000 } else { 360_000 }
}

// The spaces before a moment in nine columns.
fn put_moment_pad(out: &mut String, version: u8) -> Result<(), AllocError>
    ensures { OnOk result (string_bytes out.new ≡ string_bytes out.old ++ moment_pad version) }
{
    if version == 1 {
        out.push_str("    ")
    } else {
        out.push_str(" ")
    }
}

// The moment of an entry, in nine columns.
#[tactic(auto, unfolding(crate::specs::Cells::entry_cell))]
fn put_entry_cell(out: &mut String, plan: &Plan, entry: &Entry) -> Result<(), AllocError>
    ensures { OnOk result (string_bytes out.new ≡ string_bytes out.old ++ entry_cell plan.now entry.now) }
{
    let moment = entry.call.moment;
    if moment < hundred_hours(plan.version) {
        put_moment_pad(out, plan.version)?;
        put_moment(out, plan.version, moment)
    } else {
        out.push_str("        -")
    }
}

// A column of a line: the moment of the entry that stands there.
fn put_cell(
    out: &mut String,
    plan: &Plan,
    entries: &[Entry],
    cell: Option<usize>,
) -> Result<(), AllocError>
    ensures { OnOk result (string_bytes out.new ≡ string_bytes out.old ++ cell_text plan.now entries.now cell) }
{
    let Some(at) = cell else {
        return out.push_str("        -");
    };
    match entries.get(at) {
        Some(entry) => put_entry_cell(out, plan, entry),
        None => out.push_str("        -"),
    }
}

// The columns of a line.
fn put_cells(
    out: &mut String,
    plan: &Plan,
    entries: &[Entry],
    cells: &[Option<usize>],
) -> Result<(), AllocError>
    ensures { OnOk result (string_bytes out.new
        ≡ string_bytes out.old ++ flat_map (cell_text plan.now entries.now) cells.now) }
{
    for cell in cells {
        put_cell(out, plan, entries, *cell)?;
    }
    Ok(())
}

// A line.
#[tactic(auto, unfolding(crate::specs::Cells::line_text))]
fn put_line(
    out: &mut String,
    alloc: Global,
    plan: &Plan,
    entries: &[Entry],
    number: usize,
    line: &Line,
) -> Result<(), AllocError>
    ensures { OnOk result (string_bytes out.new
        ≡ string_bytes out.old ++ line_text plan.now entries.now number line.now) }
{
    put_line_number(out, number)?;
    out.push(' ')?;
    put_description(out, alloc, plan, line.code)?;
    put_cells(out, plan, entries, &line.cells)?;
    out.push('\n')
}

// What an entry tells.
#[tactic(auto, using(line_law::proofs::Sides::known_box))]
fn put_told_or(out: &mut String, plan: &Plan, entry: &Entry) -> Result<(), AllocError>
    ensures { OnOk result (string_bytes out.new ≡ string_bytes out.old ++ told_or plan.now entry.now) }
{
    if !knows(plan, entry.box_no, &entry.call) {
        return out.push_str("no such entry");
    }
    if is_spelled_reply(plan, entry.box_no, &entry.reply) {
        put_told(out, plan, entry)
    } else {
        out.push_str("no such entry")
    }
}

/// Puts what the entry of this number tells behind a text. Where memory runs out a part may stand behind the text.
pub fn put_told_at(
    out: &mut String,
    plan: &Plan,
    entries: &[Entry],
    at: usize,
) -> Result<(), AllocError>
    ensures { OnOk result (string_bytes out.new
        ≡ string_bytes out.old ++ told_by plan.now (slice_get entries.now at)) }
{
    match entries.get(at) {
        Some(entry) => put_told_or(out, plan, entry),
        None => out.push_str("no such entry"),
    }
}

// A remark: what the entry tells.
#[tactic(auto, unfolding(crate::specs::Cells::remark_text))]
fn put_remark(out: &mut String, plan: &Plan, entries: &[Entry], at: usize) -> Result<(), AllocError>
    ensures { OnOk result (string_bytes out.new ≡ string_bytes out.old ++ remark_text plan.now entries.now at) }
{
    out.push_str("      ")?;
    put_told_at(out, plan, entries, at)?;
    out.push('\n')
}

/// Puts a row of a sheet behind a text: a line in its columns, or a remark below it. Where memory runs out a part may
/// stand behind the text.
pub fn put_row(
    out: &mut String,
    alloc: Global,
    plan: &Plan,
    entries: &[Entry],
    row: &Row,
) -> Result<(), AllocError>
    ensures { OnOk result (string_bytes out.new ≡ string_bytes out.old ++ row_text plan.now entries.now row.now) }
{
    match row {
        Row::Line { number, line } => put_line(out, alloc, plan, entries, *number, line),
        Row::Remark { entry } => put_remark(out, plan, entries, *entry),
    }
}
