//! What is counted of a journal: its refused calls, and the most trains that its sections held.

ghost use Rattle.std.specs.Prelude.{◌≡◌, ◌+◌, List, IfOk, length};
ghost use Rattle.line_law.specs.declared.call.Entry.{Entry};
ghost use Rattle.line_law.specs.History.{IsLegal};
ghost use Rattle.line_report.specs.Asked.{AreFewEntries};
ghost use Rattle.line_runs.specs.Copying.{refusals_heading};
ghost use Rattle.line_runs.specs.Counting.{AreCounts, AreCountsTold};

use crate::copying::put_number;
use line_journal::Merged;
use line_law::{ByWay, is_refused};
use line_plan::Plan;
use line_report::{HeldTrains, count_on, no_trains, put_sections};
use rail_text::NoMemory;
use std::alloc::{AllocError, Global};

/// How many calls of a journal were refused, and the most trains that the sections of each pair of neighbours held.
#[derive(Drop)]
pub(crate) struct Counts {
    pub(crate) refused: usize,
    pub(crate) trains: Vec<ByWay<HeldTrains>>,
}

/// Counts along a journal, entry by entry.
pub(crate) fn count_along(
    alloc: Global,
    plan: &Plan,
    merged: &Merged<'_>,
) -> Result<Counts, NoMemory>
    requires legal { IsLegal plan.now merged.now }
    requires few { AreFewEntries merged.now }
    ensures { IfOk result (λ counts. AreCounts plan.now merged.now counts.refused counts.trains.items) }
{
    plan.meets_conditions();
    let mut trains = no_trains(alloc, plan.boxes.len() - 1)?;
    let mut refused = 0;
    let mut walk = merged.walk(alloc)?;
    while let Some(entry) = walk.next() {
        refused += usize::from(is_refused(&entry.reply));
        count_on(&mut trains, plan, entry);
    }
    drop(walk);
    Ok(Counts { refused, trains })
}

// What stands before the lines of the refused calls: `refusals`, and how many they are.
fn print_refusals_heading(alloc: Global, refused: usize) -> Result<Vec<u8>, AllocError>
    ensures { IfOk result (λ text. text.items ≡ refusals_heading refused) }
{
    let mut out = Vec::new(alloc);
    out.extend_from_slice(b"refusals ")?;
    put_number(&mut out, refused)?;
    out.push(b'\n')?;
    Ok(out)
}

// What stands before the lines of the refused calls, and what behind them, by what was counted.
fn print_told(alloc: Global, plan: &Plan, counts: &Counts) -> Result<(Vec<u8>, Vec<u8>), NoMemory>
    requires { length counts.now.trains.items + 1 ≡ length plan.now.boxes }
    ensures { (es : List Entry) → AreCounts plan.now es counts.now.refused counts.now.trains.items
        → IfOk result (λ r. AreCountsTold plan.now es r.0.items r.1.items) }
{
    let heading = print_refusals_heading(alloc, counts.refused)?;
    let mut sections = String::new(alloc);
    put_sections(&mut sections, alloc, plan, &counts.trains)?;
    Ok((heading, sections.into_bytes()))
}

/// What stands before the lines of a journal's refused calls, and what behind them: how many they are, and the most
/// trains of the sections.
pub(crate) fn print_counts(
    alloc: Global,
    plan: &Plan,
    merged: &Merged<'_>,
) -> Result<(Vec<u8>, Vec<u8>), NoMemory>
    requires legal { IsLegal plan.now merged.now }
    requires few { AreFewEntries merged.now }
    ensures { IfOk result (λ r. AreCountsTold plan.now merged.now r.0.items r.1.items) }
{
    let counts = count_along(alloc, plan, merged)?;
    let told = print_told(alloc, plan, &counts);
    drop(counts);
    told
}
