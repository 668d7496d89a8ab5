//! The words that stand in a page: those of the sheets as text.

ghost use Rattle.std.specs.Prelude.{◌≡◌, ◌++◌, IfOk, OnOk, decimal, slice_get, string_bytes};
ghost use Rattle.sheet_page.specs.Words.{moment_by, moment_or, moment_word, page_name};
ghost use Rattle.sheet_text.specs.Cells.{description_text, told_by};
ghost use Rattle.sheet_text.specs.Texts.{beside_text, no_train_text, title_text};

use bell_codes::CodeNo;
use block_words::Way;
use line_law::Entry;
use line_plan::Plan;
use script_text::put_moment;
use sheet_text::{hundred_hours, put_beside, put_described, put_no_train, put_title, put_told_at};
use std::alloc::{AllocError, Global};

/// The name of a page: of the line from its first box to its last.
#[tactic(auto, unfolding(crate::specs::Words::page_name))]
pub fn page_name(alloc: Global, plan: &Plan) -> Result<String, AllocError>
    ensures { IfOk result (λ text. string_bytes text ≡ page_name plan.now) }
{
    plan.meets_conditions();
    let last = plan.boxes.len() as u32 - 1;
    let mut text = String::new(alloc);
    text.push_str("Train registers of the line from ")?;
    text.push_str(plan.box_name(0))?;
    text.push_str(" to ")?;
    text.push_str(plan.box_name(last))?;
    Ok(text)
}

/// Whose sheet it is.
pub fn title_of(alloc: Global, plan: &Plan, box_no: u32, way: Way) -> Result<String, AllocError>
    ensures { IfOk result (λ text. string_bytes text ≡ title_text plan.now box_no way) }
{
    let mut text = String::new(alloc);
    put_title(&mut text, plan, box_no, way)?;
    Ok(text)
}

/// What stands in place of a sheet without rows.
pub fn no_train(alloc: Global, plan: &Plan, box_no: u32, way: Way) -> Result<String, AllocError>
    ensures { IfOk result (λ text. string_bytes text ≡ no_train_text plan.now box_no way) }
{
    let mut text = String::new(alloc);
    put_no_train(&mut text, plan, box_no, way)?;
    Ok(text)
}

/// How many entries of a box stand beside its sheets.
pub fn beside_of(
    alloc: Global,
    plan: &Plan,
    box_no: u32,
    count: usize,
) -> Result<String, AllocError>
    ensures { IfOk result (λ text. string_bytes text ≡ beside_text plan.now box_no count) }
{
    let mut text = String::new(alloc);
    put_beside(&mut text, plan, box_no, count)?;
    Ok(text)
}

/// The number of a line.
pub fn number_of(alloc: Global, number: usize) -> Result<String, AllocError>
    ensures { IfOk result (λ text. string_bytes text ≡ decimal number) }
{
    format!(in alloc; "{number}")
}

/// The description of a train.
pub fn described(alloc: Global, plan: &Plan, code: CodeNo) -> Result<String, AllocError>
    ensures { IfOk result (λ text. string_bytes text ≡ description_text plan.now code) }
{
    let mut text = String::new(alloc);
    put_described(&mut text, plan, code)?;
    Ok(text)
}

// Puts the moment of an entry.
fn put_entry_moment(out: &mut String, plan: &Plan, entry: &Entry) -> Result<(), AllocError>
    ensures { OnOk result (string_bytes out.new ≡ string_bytes out.old ++ moment_or plan.now entry.now) }
{
    let moment = entry.call.moment;
    if moment < hundred_hours(plan.version) {
        put_moment(out, plan.version, moment)
    } else {
        out.push_str("")
    }
}

// Puts the moment of the entry of this number.
fn put_moment_at(
    out: &mut String,
    plan: &Plan,
    entries: &[Entry],
    at: usize,
) -> Result<(), AllocError>
    ensures { OnOk result (string_bytes out.new
        ≡ string_bytes out.old ++ moment_by plan.now (slice_get entries.now at)) }
{
    match entries.get(at) {
        Some(entry) => put_entry_moment(out, plan, entry),
        None => out.push_str(""),
    }
}

// Puts the moment of the entry of this number, if one is given.
fn put_moment_word(
    out: &mut String,
    plan: &Plan,
    entries: &[Entry],
    cell: Option<usize>,
) -> Result<(), AllocError>
    ensures { OnOk result (string_bytes out.new ≡ string_bytes out.old ++ moment_word plan.now entries.now cell) }
{
    match cell {
        Some(at) => put_moment_at(out, plan, entries, at),
        None => out.push_str(""),
    }
}

/// The moment of the entry that stands in a column, if one does.
pub fn moment_word(
    alloc: Global,
    plan: &Plan,
    entries: &[Entry],
    cell: Option<usize>,
) -> Result<String, AllocError>
    ensures { IfOk result (λ text. string_bytes text ≡ moment_word plan.now entries.now cell) }
{
    let mut text = String::new(alloc);
    put_moment_word(&mut text, plan, entries, cell)?;
    Ok(text)
}

/// What the entry of this number tells.
pub fn told_word(
    alloc: Global,
    plan: &Plan,
    entries: &[Entry],
    at: usize,
) -> Result<String, AllocError>
    ensures { IfOk result (λ text. string_bytes text ≡ told_by plan.now (slice_get entries.now at)) }
{
    let mut text = String::new(alloc);
    put_told_at(&mut text, plan, entries, at)?;
    Ok(text)
}
