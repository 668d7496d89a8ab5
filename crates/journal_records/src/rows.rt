//! The entries of a journal as rows of commas.

ghost use Rattle.std.specs.Prelude.{◌+◌, ◌<◌, ◌^◌, All, IfOk, OnOk, length};
ghost use Rattle.script_text.specs.Entries.{IsSpelled};
ghost use Rattle.journal_records.specs.Rows.{IsCsvOf, PutsRow, PutsRows};

use crate::words::words_of;
use entry_records::{put_columns, put_words_row};
use line_law::Entry;
use line_plan::Plan;
use std::alloc::{AllocError, Global};

// Puts the row of an entry behind a text.
fn put_entry_row(out: &mut Vec<u8>, plan: &Plan, n: u64, entry: &Entry) -> Result<(), AllocError>
    requires { IsSpelled plan.now entry.now }
    ensures { OnOk result (PutsRow plan.now n entry.now out.old.items out.new.items) }
{
    let words = words_of(*out.allocator(), plan, n, entry)?;
    put_words_row(out, &words)
}

// Puts the rows of entries that follow one another behind a text, the first with this number.
fn put_entry_rows(
    out: &mut Vec<u8>,
    plan: &Plan,
    number: u64,
    entries: &[Entry],
) -> Result<(), AllocError>
    requires spelled { All (IsSpelled plan.now) entries.now }
    requires numbers { number + length entries.now < 2 ^ 64 }
    ensures { OnOk result (PutsRows plan.now number entries.now out.old.items out.new.items) }
{
    for (place, entry) in entries.iter().enumerate() {
        put_entry_row(out, plan, number + place as u64, entry)?;
    }
    Ok(())
}

/// The entries of a journal as comma-separated rows, numbered from 1, below the names of the columns. Each entry is one
/// that the line can spell, as `is_spelled` of `script_text` tells; all of a legal history are.
pub fn print_csv(alloc: Global, plan: &Plan, entries: &[Entry]) -> Result<Vec<u8>, AllocError>
    requires spelled { All (IsSpelled plan.now) entries.now }
    requires few { length entries.now < 2 ^ 32 }
    ensures { IfOk result (λ text. IsCsvOf plan.now entries.now text.items) }
{
    let mut out = Vec::new(alloc);
    put_columns(&mut out)?;
    put_entry_rows(&mut out, plan, 1, entries)?;
    Ok(out)
}
