//! The boxes that go on by their scripts.

ghost use Rattle.std.specs.Prelude.{◌≡◌, ◌+◌, ◌<◌, ◌^◌, ◌++◌, ◌∷◌, [], Some, IfOk, length};
ghost use mathlib.Core.List.{IsPrefix};
ghost use Rattle.line_law.specs.Law.{MayCall, step};
ghost use Rattle.line_law.specs.Serial.{calls_left, count_left, first_free, may_go};
ghost use Rattle.box_session.specs.Others.{call_from, others_from};
ghost use Rattle.box_session.specs.Works.{IsAfter, IsGoingOn};

use crate::work::Work;
use line_law::{Call, Entry, Reply};
use line_plan::Plan;
use std::alloc::AllocError;

// Whether a box has a call left and isn't stopped.
fn may_go(work: &Work<'_>, plan: &Plan, box_no: usize) -> bool
    requires going { IsGoingOn plan.now work.now.line work.now.roster }
    requires box_no { box_no < length work.now.roster }
    ensures { result ≡ may_go plan.now work.now.line.line box_no (calls_left work.now.roster box_no) }
{
    plan.meets_conditions();
    match work.roster.next_of(box_no) {
        None => false,
        Some(call) => !work.line.answer(plan, box_no as u32, call).is_not_yet(),
    }
}

// The lowest box that has a call left and isn't stopped.
fn first_free(work: &Work<'_>, plan: &Plan) -> Option<usize>
    requires { IsGoingOn plan.now work.now.line work.now.roster }
    ensures { result ≡ first_free plan.now work.now.line.line 0 work.now.roster }
{
    for box_no in 0..work.roster.boxes() {
        if may_go(work, plan, box_no) {
            return Some(box_no);
        }
    }
    None
}

// That box makes its next call.
fn call_next(work: &mut Work<'_>, plan: &Plan, box_no: usize) -> Entry
    requires going { IsGoingOn plan.now work.old.line work.old.roster }
    requires free { first_free plan.now work.old.line.line 0 work.old.roster ≡ Some box_no }
    ensures going { IsGoingOn plan.now work.new.line work.new.roster }
    ensures after { IsAfter plan.now work.old.line work.old.roster (result ∷ []) work.new.line work.new.roster }
    ensures next { others_from plan.now work.old.line.line work.old.roster
        ≡ result ∷ others_from plan.now work.new.line.line work.new.roster }
    ensures fewer { count_left work.old.roster ≡ count_left work.new.roster + 1 }
{
    plan.meets_conditions();
    let next = work.roster.take(box_no);
    let box_no = box_no as u32;
    let reply = work.line.perform(plan, box_no, &next.call);
    Entry {
        box_no,
        call: next.call,
        reply,
    }
}

/// The boxes go on by their scripts as far as they come. Where memory runs out, only entries were added.
pub fn go_on(work: &mut Work<'_>, plan: &Plan, entries: &mut Vec<Entry>) -> Result<(), AllocError>
    requires { IsGoingOn plan.now work.old.line work.old.roster }
    ensures grows { IsPrefix entries.old.items entries.new.items }
    ensures entries { IfOk result (λ _. entries.new.items
        ≡ entries.old.items ++ others_from plan.now work.old.line.line work.old.roster) }
    ensures after { IfOk result (λ _. IsAfter plan.now work.old.line work.old.roster
        (others_from plan.now work.old.line.line work.old.roster) work.new.line work.new.roster) }
{
    while let Some(box_no) = first_free(work, plan) {
        entries.push(call_next(work, plan, box_no))?;
    }
    Ok(())
}

/// The man of a box without a script makes a call, and the others go on. Where memory runs out, only entries were
/// added.
pub fn work_call(
    work: &mut Work<'_>,
    plan: &Plan,
    box_no: u32,
    call: &Call,
    entries: &mut Vec<Entry>,
) -> Result<Reply, AllocError>
    requires going { IsGoingOn plan.now work.old.line work.old.roster }
    requires few { work.old.line.calls + count_left work.old.roster + 1 < 2 ^ 32 }
    requires call { MayCall plan.now work.old.line.line box_no call.now }
    requires own { calls_left work.old.roster box_no ≡ [] }
    ensures grows { IsPrefix entries.old.items entries.new.items }
    ensures reply { IfOk result (λ reply. reply ≡ (step plan.now work.old.line.line box_no call.now).reply) }
    ensures entries { IfOk result (λ _. entries.new.items ≡ entries.old.items
        ++ call_from plan.now work.old.line.line work.old.roster box_no call.now) }
    ensures after { IfOk result (λ _. IsAfter plan.now work.old.line work.old.roster
        (call_from plan.now work.old.line.line work.old.roster box_no call.now) work.new.line work.new.roster) }
{
    plan.meets_conditions();
    let reply = work.line.perform(plan, box_no, call);
    entries.push(Entry {
        box_no,
        call: *call,
        reply,
    })?;
    go_on(work, plan, entries)?;
    Ok(reply)
}
