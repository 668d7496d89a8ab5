//! Calls that were made are made again.

ghost use Rattle.std.specs.Prelude.{◌≡◌, ◌<◌, ◌≤◌, ◌^◌, IfErr, IfOk, length, take};
ghost use Rattle.line_law.specs.History.{IsLegal};
ghost use Rattle.line_service.specs.Services.{IsKept};

use line_law::{Entry, Plain};
use line_plan::Plan;
use rail_text::NoMemory;
use std::alloc::Global;

// A line as it stood behind the first so many entries of a legal history goes on to where it stood behind more.
fn replay(plan: &Plan, line: &mut Plain, entries: &[Entry], from: usize, count: usize)
    requires kept { IsKept plan.now (take from entries.now) line.old }
    requires legal { IsLegal plan.now entries.now }
    requires few { length entries.now < 2 ^ 32 }
    requires onward { from ≤ count }
    requires within { count ≤ length entries.now }
    ensures { IsKept plan.now (take count entries.now) line.new }
{
    plan.meets_conditions();
    for at in from..count {
        let entry = &entries[at];
        let _ = line.perform(plan, entry.box_no, &entry.call);
    }
}

/// The line of a plan as it stood behind the first so many entries of a legal history.
pub fn line_behind(
    alloc: Global,
    plan: &Plan,
    entries: &[Entry],
    count: usize,
) -> Result<Plain, NoMemory>
    requires legal { IsLegal plan.now entries.now }
    requires few { length entries.now < 2 ^ 32 }
    requires within { count ≤ length entries.now }
    ensures { IfOk result (λ line. IsKept plan.now (take count entries.now) line) }
{
    let mut line = Plain::open(alloc, plan)?;
    replay(plan, &mut line, entries, 0, count);
    Ok(line)
}

/// A line as it stood behind the first so many entries of a legal history is brought to where it stood behind others:
/// onward, or from the beginning where these are fewer. Where memory runs out, it stays as it was.
pub fn bring(
    alloc: Global,
    plan: &Plan,
    line: &mut Plain,
    entries: &[Entry],
    from: usize,
    count: usize,
) -> Result<(), NoMemory>
    requires kept { IsKept plan.now (take from entries.now) line.old }
    requires legal { IsLegal plan.now entries.now }
    requires few { length entries.now < 2 ^ 32 }
    requires within { count ≤ length entries.now }
    ensures brought { IfOk result (λ _. IsKept plan.now (take count entries.now) line.new) }
    ensures stays { IfErr result (λ _. line.new ≡ line.old) }
{
    if count < from {
        *line = line_behind(alloc, plan, entries, count)?;
    } else {
        replay(plan, line, entries, from, count);
    }
    Ok(())
}
