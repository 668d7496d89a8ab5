//! A journal as records for other programs.

ghost use Rattle.std.specs.Prelude.{◌<◌, ◌^◌, All, IfOk, length};
ghost use Rattle.script_text.specs.Entries.{IsSpelled};
ghost use Rattle.journal_records.specs.Rows.{AreRecords};

use crate::lines::print_json_lines;
use crate::rows::print_csv;
use line_law::Entry;
use line_plan::Plan;
use std::alloc::{AllocError, Global};

/// The entries of a journal, numbered from 1, as records for other programs: as rows of commas below the names of their
/// columns where `csv` says so, else as JSON, an object a line. Each entry is one that the line can spell, as
/// `is_spelled` of `script_text` tells; all of a legal history are.
pub fn print_records(
    alloc: Global,
    csv: bool,
    plan: &Plan,
    entries: &[Entry],
) -> Result<Vec<u8>, AllocError>
    requires spelled { All (IsSpelled plan.now) entries.now }
    requires few { length entries.now < 2 ^ 32 }
    ensures { IfOk result (λ text. AreRecords csv plan.now entries.now text.items) }
{
    if csv {
        return print_csv(alloc, plan, entries);
    }
    let text = print_json_lines(alloc, plan, entries)?;
    Ok(text.into_bytes())
}
