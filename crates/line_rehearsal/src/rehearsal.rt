//! Scripts that are rehearsed.

ghost use Rattle.std.specs.Prelude.{◌≡◌, ◌<◌, IfOk, length, replicate, slice_index_or};
ghost use Rattle.line_law.specs.History.{opened, state_of};
ghost use Rattle.line_law.specs.Serial.{calls_left};
ghost use Rattle.line_rehearsal.specs.Rehearsals.{IsRehearsal, IsUnderWay};
ghost use Rattle.line_rehearsal.specs.Stops.{stop_of};
ghost use Rattle.serial_working.specs.Rosters.{calls_of_scripts, left_of};
ghost use Rattle.text_fetch.specs.Runs.{AreScriptsOf};

use crate::calling::call_next;
use crate::search::first_free;
use crate::stop::{Stop, stop_of};
use crate::until::Until;
use line_law::{Entry, Journal, Plain};
use line_plan::{Items, Plan};
use rail_text::NoMemory;
use script_text::Script;
use std::alloc::{AllocError, Global};

/// How far the scripts of a line came.
#[derive(Drop)]
pub struct Rehearsal {
    /// The calls that were made, with their replies.
    pub journal: Journal,
    /// How many calls of its script each box has made, in box order.
    pub made: Vec<usize>,
    /// The line as they leave it.
    pub line: Plain,
}

// The entries of a rehearsal on a line that has just opened, with no call made.
fn rehearsed_entries(
    alloc: Global,
    line: &mut Plain,
    plan: &Plan,
    scripts: &[Script],
    made: &mut [usize],
    until: Until,
) -> Result<Vec<Entry>, AllocError>
    requires scripts { AreScriptsOf plan.now scripts.now }
    requires way { IsUnderWay plan.now scripts.now made.old line.old }
    requires line { line.old ≡ opened plan.now }
    requires made { made.old ≡ replicate (length scripts.now) 0 }
    ensures rehearsal { IfOk result (λ entries. IsRehearsal plan.now (calls_of_scripts scripts.now) until entries.items
        made.new) }
    ensures way { IfOk result (λ entries. IsUnderWay plan.now scripts.now made.new line.new) }
    ensures state { IfOk result (λ entries. line.new.line ≡ state_of plan.now entries.items) }
{
    plan.meets_conditions();
    let mut entries = Vec::new(alloc);
    let mut from = 0;
    while let Some(box_no) = first_free(line, plan, scripts, made, from) {
        let entry = call_next(line, plan, scripts, made, box_no);
        entries.push(entry)?;
        if until.ends_with(&entry.reply) {
            return Ok(entries);
        }
        // Below the neighbour under him nobody can have been freed.
        from = box_no.saturating_sub(1);
    }
    Ok(entries)
}

/// Works the scripts of all boxes on one thread. At each point the lowest box makes its next call that has one left and
/// isn't stopped at an await that the line doesn't satisfy. It ends where there is no such box; or with the first call
/// that is refused, where that is wanted.
pub fn rehearse(
    alloc: Global,
    plan: &Plan,
    scripts: &[Script],
    until: Until,
) -> Result<Rehearsal, NoMemory>
    requires { AreScriptsOf plan.now scripts.now }
    ensures rehearsal { IfOk result (λ rehearsal. IsRehearsal plan.now (calls_of_scripts scripts.now) until
        rehearsal.journal.entries rehearsal.made.items) }
    ensures way { IfOk result
        (λ rehearsal. IsUnderWay plan.now scripts.now rehearsal.made.items rehearsal.line) }
    ensures state { IfOk result
        (λ rehearsal. rehearsal.line.line ≡ state_of plan.now rehearsal.journal.entries) }
{
    plan.meets_conditions();
    let mut made = vec![in alloc; 0usize; scripts.len()]?;
    let mut line = Plain::open(alloc, plan)?;
    match rehearsed_entries(alloc, &mut line, plan, scripts, &mut made, until) {
        Ok(entries) => Ok(Rehearsal {
            journal: Journal {
                entries: Items::from_vec(entries),
            },
            made,
            line,
        }),
        Err(AllocError) => {
            drop(line);
            Err(NoMemory)
        }
    }
}

impl Rehearsal {
    /// What the man of box `box_no` waits for where it ended, if he has a call left and stands at an await that the
    /// line doesn't satisfy.
    pub fn stop_of(&self, plan: &Plan, scripts: &[Script], box_no: usize) -> Option<Stop>
        requires way { IsUnderWay plan.now scripts.now self.now.made.items self.now.line }
        requires box_no { box_no < length scripts.now }
        ensures { result ≡ stop_of plan.now self.now.line.line box_no (slice_index_or self.now.made.items box_no 0)
            (calls_left (left_of (calls_of_scripts scripts.now) self.now.made.items) box_no) }
    {
        stop_of(&self.line, plan, scripts, &self.made, box_no)
    }
}
