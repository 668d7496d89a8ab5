//! A line as it stands behind the entries of a journal.

ghost use Rattle.std.specs.Prelude.{◌≡◌, ◌<◌, ◌^◌, IfOk, length};
ghost use Rattle.line_law.specs.History.{IsLegal, opened, state_of};
ghost use Rattle.line_law.specs.Lines.{IsLineOf};

use line_law::{Entry, Plain};
use line_plan::Plan;
use rail_text::NoMemory;
use std::alloc::Global;

// Performs the calls of these entries on a line that has just opened.

fn perform_all(plan: &Plan, line: &mut Plain, entries: &[Entry])
    requires line { IsLineOf plan.now line.old }
    requires opening { line.old ≡ opened plan.now }
    requires legal { IsLegal plan.now entries.now }
    requires few { length entries.now < 2 ^ 32 }
    ensures state { line.new.line ≡ state_of plan.now entries.now }
    ensures line { IsLineOf plan.now line.new }
{
    plan.meets_conditions();
    for entry in entries {
        line.perform(plan, entry.box_no, &entry.call);
    }
}

/// The line of a plan as it stands behind the entries of a legal journal.
pub fn line_after(alloc: Global, plan: &Plan, entries: &[Entry]) -> Result<Plain, NoMemory>
    requires legal { IsLegal plan.now entries.now }
    requires few { length entries.now < 2 ^ 32 }
    ensures state { IfOk result (λ line. line.line ≡ state_of plan.now entries.now) }
    ensures line { IfOk result (λ line. IsLineOf plan.now line) }
{
    let mut line = Plain::open(alloc, plan)?;
    perform_all(plan, &mut line, entries);
    Ok(line)
}
