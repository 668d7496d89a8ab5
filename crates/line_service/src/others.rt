//! The boxes that go on by their scripts.

ghost use Rattle.std.specs.Prelude.{◌≡◌, ◌+◌, ◌<◌, ◌≤◌, IfOk, None, Some, length};
ghost use Rattle.std.specs.Vec.{vec_capacity, vec_len};
ghost use Rattle.line_law.specs.History.{state_of};
ghost use Rattle.line_law.specs.Serial.{calls_left, count_left, first_free, may_go};
ghost use Rattle.line_service.specs.Calls.{MayFollow, with_entry};
ghost use Rattle.line_service.specs.Services.{IsWorked, gone_on, none_left};

use crate::roster::Roster;
use line_law::{Entry, Plain};
use line_plan::Plan;
use std::alloc::{AllocError, Global};

/// A line, and what is left of the scripts that are worked on it.
#[derive(Drop)]
pub struct Work {
    /// The line.
    pub line: Plain,
    /// What is left of the scripts.
    pub roster: Roster,
}

/// No box of a plan has a script.
pub fn no_scripts(alloc: Global, plan: &Plan) -> Result<Roster, AllocError>
    ensures { IfOk result (λ roster. roster ≡ none_left plan.now) }
{
    Roster::none(alloc, plan.boxes.len())
}

// Whether a box has a call left and isn't stopped, behind these entries.
fn may_go(work: &Work, plan: &Plan, entries: &[Entry], box_no: usize) -> bool
    requires worked { IsWorked plan.now entries.now work.now.roster work.now.line }
    requires box_no { box_no < length work.now.roster }
    ensures { result ≡ may_go plan.now (state_of plan.now entries.now) box_no (calls_left work.now.roster box_no) }
{
    plan.meets_conditions();
    let _ = entries;
    match work.roster.next_of(box_no) {
        None => false,
        Some(call) => !work.line.answer(plan, box_no as u32, call).is_not_yet(),
    }
}

// The lowest box that has a call left and isn't stopped, behind these entries.
fn first_free(work: &Work, plan: &Plan, entries: &[Entry]) -> Option<usize>
    requires { IsWorked plan.now entries.now work.now.roster work.now.line }
    ensures { result ≡ first_free plan.now (state_of plan.now entries.now) 0 work.now.roster }
{
    for box_no in 0..work.roster.boxes() {
        if may_go(work, plan, entries, box_no) {
            return Some(box_no);
        }
    }
    None
}

// That box makes its next call. There is room for its entry.
fn call_next(work: &mut Work, plan: &Plan, entries: &mut Vec<Entry>, box_no: usize)
    requires worked { IsWorked plan.now entries.old.items work.old.roster work.old.line }
    requires free { first_free plan.now (state_of plan.now entries.old.items) 0 work.old.roster ≡ Some box_no }
    requires room { vec_len entries.old + count_left work.old.roster ≤ vec_capacity entries.old }
    ensures worked { IsWorked plan.now entries.new.items work.new.roster work.new.line }
    ensures goes { gone_on (record { plan = plan.now; entries = entries.new.items; left = work.new.roster })
        ≡ gone_on (record { plan = plan.now; entries = entries.old.items; left = work.old.roster }) }
    ensures room { vec_len entries.new + count_left work.new.roster ≤ vec_capacity entries.new }
    ensures fewer { count_left work.old.roster ≡ count_left work.new.roster + 1 }
{
    plan.meets_conditions();
    let call = work.roster.take(box_no);
    let box_no = box_no as u32;
    let reply = work.line.perform(plan, box_no, &call);
    entries.push_reserved(Entry {
        box_no,
        call,
        reply,
    });
}

/// The boxes go on by their scripts as far as they come. There is room for all their entries, so it takes no memory.
pub fn go_on(work: &mut Work, plan: &Plan, entries: &mut Vec<Entry>)
    requires worked { IsWorked plan.now entries.old.items work.old.roster work.old.line }
    requires room { vec_len entries.old + count_left work.old.roster ≤ vec_capacity entries.old }
    ensures worked { IsWorked plan.now entries.new.items work.new.roster work.new.line }
    ensures gone { record { plan = plan.now; entries = entries.new.items; left = work.new.roster }
        ≡ gone_on (record { plan = plan.now; entries = entries.old.items; left = work.old.roster }) }
    ensures stopped { first_free plan.now (state_of plan.now entries.new.items) 0 work.new.roster ≡ None }
{
    while let Some(box_no) = first_free(work, plan, entries) {
        call_next(work, plan, entries, box_no);
    }
}

/// A call is made of a box that no script works, and the others go on. There is room for its entry and all of theirs,
/// so it takes no memory.
pub fn work_call(work: &mut Work, plan: &Plan, entries: &mut Vec<Entry>, entry: &Entry)
    requires worked { IsWorked plan.now entries.old.items work.old.roster work.old.line }
    requires may { MayFollow (record { plan = plan.now; entries = entries.old.items; left = work.old.roster })
        entry.now }
    requires room { vec_len entries.old + count_left work.old.roster + 1 ≤ vec_capacity entries.old }
    ensures worked { IsWorked plan.now entries.new.items work.new.roster work.new.line }
    ensures gone { record { plan = plan.now; entries = entries.new.items; left = work.new.roster }
        ≡ gone_on (with_entry (record { plan = plan.now; entries = entries.old.items; left = work.old.roster })
        entry.now) }
{
    plan.meets_conditions();
    let _ = work.line.perform(plan, entry.box_no, &entry.call);
    entries.push_reserved(*entry);
    go_on(work, plan, entries);
}
