//! The entries of a journal, a line each.

ghost use Rattle.std.specs.Prelude.{◌+◌, ◌<◌, ◌^◌, All, IfOk, OnOk, length, string_bytes};
ghost use Rattle.script_text.specs.Entries.{IsSpelled};
ghost use Rattle.serde_json.specs.View.{view};
ghost use Rattle.journal_records.specs.Objects.{AreJsonLines, IsEntryData, IsEntryText, PutsEntries, PutsEntry};

use crate::words::words_of;
use entry_records::{entry_object, object_text};
use line_law::Entry;
use line_plan::Plan;
use serde_json::Value;
use std::alloc::{AllocError, Global};

/// The object of entry `n` of a journal.
pub fn entry_value(alloc: Global, plan: &Plan, n: u64, entry: &Entry) -> Result<Value, AllocError>
    requires { IsSpelled plan.now entry.now }
    ensures { IfOk result (λ value. IsEntryData plan.now n entry.now (view value)) }
{
    let words = words_of(alloc, plan, n, entry)?;
    entry_object(alloc, &words)
}

/// The text of entry `n` of a journal as JSON, in one line without its end. It is read back as exactly the object of
/// the entry.
pub fn entry_text(alloc: Global, plan: &Plan, n: u64, entry: &Entry) -> Result<String, AllocError>
    requires { IsSpelled plan.now entry.now }
    ensures { IfOk result (λ text. IsEntryText plan.now n entry.now (string_bytes text)) }
{
    let words = words_of(alloc, plan, n, entry)?;
    object_text(alloc, &words)
}

// Puts the line of an entry behind a text.
fn put_entry_line(out: &mut String, plan: &Plan, n: u64, entry: &Entry) -> Result<(), AllocError>
    requires { IsSpelled plan.now entry.now }
    ensures { OnOk result (PutsEntry plan.now n entry.now (string_bytes out.old) (string_bytes out.new)) }
{
    let text = entry_text(*out.allocator(), plan, n, entry)?;
    out.push_str(text.as_str())?;
    out.push('\n')
}

// Puts the lines of entries that follow one another behind a text, the first with this number.
fn put_entry_lines(
    out: &mut String,
    plan: &Plan,
    number: u64,
    entries: &[Entry],
) -> Result<(), AllocError>
    requires spelled { All (IsSpelled plan.now) entries.now }
    requires numbers { number + length entries.now < 2 ^ 64 }
    ensures { OnOk result (PutsEntries plan.now number entries.now (string_bytes out.old) (string_bytes out.new)) }
{
    for (place, entry) in entries.iter().enumerate() {
        put_entry_line(out, plan, number + place as u64, entry)?;
    }
    Ok(())
}

/// The entries of a journal as JSON, numbered from 1: an object for each, in a line. Each entry is one that the line
/// can spell, as `is_spelled` of `script_text` tells; all of a legal history are.
pub fn print_json_lines(alloc: Global, plan: &Plan, entries: &[Entry]) -> Result<String, AllocError>
    requires spelled { All (IsSpelled plan.now) entries.now }
    requires few { length entries.now < 2 ^ 32 }
    ensures { IfOk result (λ text. AreJsonLines plan.now entries.now (string_bytes text)) }
{
    let mut out = String::new(alloc);
    put_entry_lines(&mut out, plan, 1, entries)?;
    Ok(out)
}
