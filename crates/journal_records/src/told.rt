//! What is told of the entries of a journal.

ghost use Rattle.std.specs.Prelude.{◌≡◌, ◌<◌, ◌^◌, All, IfOk, length};
ghost use Rattle.script_text.specs.Entries.{IsSpelled};
ghost use Rattle.journal_records.specs.Told.{AreTold};

use crate::words::words_of;
use entry_records::EntryWords;
use line_law::Entry;
use line_plan::Plan;
use std::alloc::{AllocError, Global};

/// What is told of each entry of a journal, numbered from 1, in words. Each entry is one that the line can spell, as
/// `is_spelled` of `script_text` tells; all of a legal history are.
pub fn told_of<'a>(
    alloc: Global,
    plan: &'a Plan,
    entries: &[Entry],
) -> Result<Vec<EntryWords<'a>>, AllocError>
    requires spelled { All (IsSpelled plan.now) entries.now }
    requires few { length entries.now < 2 ^ 32 }
    ensures { IfOk result (λ told. AreTold plan.now 1 entries.now told.items) }
{
    let mut told = Vec::new(alloc);
    for (at, entry) in entries.iter().enumerate() {
        told.push(words_of(alloc, plan, at as u64 + 1, entry)?)?;
    }
    Ok(told)
}
