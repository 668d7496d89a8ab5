//! Scripts that are worked on one thread, one call at a time.

ghost use Rattle.std.specs.Prelude.{◌≡◌, ◌+◌, ◌<◌, ◌^◌, Some, IfOk, length};
ghost use Rattle.line_law.specs.Lines.{IsLineOf};
ghost use Rattle.line_law.specs.Serial.{AreLeft, calls_left, count_left, next_box, serial_journal};
ghost use Rattle.serial_working.specs.Looks.{look_of};
ghost use Rattle.serial_working.specs.Rosters.{AreFewCalls, calls_of_scripts};
ghost use Rattle.serial_working.specs.Serial.{Turns, rest_of};
ghost use Rattle.text_fetch.specs.Runs.{AreScriptsOf};

use crate::look::Look;
use crate::roster::Roster;
use line_law::{Entry, Journal, Plain};
use line_plan::{Items, Plan};
use line_working::Gate;
use rail_text::NoMemory;
use script_text::Script;
use std::alloc::{AllocError, Global};

// How a box stands, by its next call and what the line would reply to it.
fn look_at(plain: &Plain, plan: &Plan, roster: &Roster<'_>, box_no: usize) -> Look
    requires line { IsLineOf plan.now plain.now }
    requires few { plain.now.calls < 2 ^ 32 }
    requires left { AreLeft plan.now plain.now.line roster.now }
    requires box_no { box_no < length roster.now }
    ensures { result ≡ look_of plan.now plain.now.line box_no (calls_left roster.now box_no) }
{
    plan.meets_conditions();
    match roster.next_of(box_no) {
        None => Look::Idle,
        Some(call) => {
            if plain.answer(plan, box_no as u32, call).is_not_yet() {
                Look::Stopped
            } else {
                Look::Free
            }
        }
    }
}

// The box that calls next: the lowest that is free, or where none is, the lowest that is stopped.
fn next_box(plain: &Plain, plan: &Plan, roster: &Roster<'_>) -> Option<usize>
    requires line { IsLineOf plan.now plain.now }
    requires few { plain.now.calls < 2 ^ 32 }
    requires left { AreLeft plan.now plain.now.line roster.now }
    ensures { result ≡ next_box plan.now plain.now.line roster.now }
{
    let mut waiting = None;
    for box_no in 0..roster.boxes() {
        match look_at(plain, plan, roster, box_no) {
            Look::Free => return Some(box_no),
            Look::Stopped => waiting = waiting.or(Some(box_no)),
            Look::Idle => {}
        }
    }
    waiting
}

// The next call of the box whose turn it is: it passes the gate and is made.
fn call_next<G: Gate>(
    plain: &mut Plain,
    plan: &Plan,
    roster: &mut Roster<'_>,
    box_no: usize,
    gate: &G,
) -> Entry
    requires line { IsLineOf plan.now plain.old }
    requires few { plain.old.calls < 2 ^ 32 }
    requires left { AreLeft plan.now plain.old.line roster.old }
    requires next { next_box plan.now plain.old.line roster.old ≡ Some box_no }
    ensures told { Turns plan.now plain.old.line roster.old result plain.new.line roster.new }
    ensures left { AreLeft plan.now plain.new.line roster.new }
    ensures line { IsLineOf plan.now plain.new }
    ensures calls { plain.new.calls ≡ plain.old.calls + 1 }
{
    plan.meets_conditions();
    let next = roster.take(box_no);
    let box_no = box_no as u32;
    gate.pass(box_no, next.number);
    let reply = plain.perform(plan, box_no, &next.call);
    Entry {
        box_no,
        call: next.call,
        reply,
    }
}

// The entries of all calls that are left, made one at a time.
fn worked_entries<G: Gate>(
    alloc: Global,
    plain: &mut Plain,
    plan: &Plan,
    roster: &mut Roster<'_>,
    gate: &G,
) -> Result<Vec<Entry>, AllocError>
    requires line { IsLineOf plan.now plain.old }
    requires left { AreLeft plan.now plain.old.line roster.old }
    requires few { plain.old.calls + count_left roster.old < 2 ^ 32 }
    ensures { IfOk result (λ entries. entries.items ≡ rest_of plan.now plain.old.line roster.old) }
{
    let mut entries = Vec::new(alloc);
    while let Some(box_no) = next_box(plain, plan, roster) {
        entries.push(call_next(plain, plan, roster, box_no, gate))?;
    }
    Ok(entries)
}

// The entries of all calls of these scripts, made on a line that is open.
fn script_entries<G: Gate>(
    alloc: Global,
    plain: &mut Plain,
    plan: &Plan,
    scripts: &[Script],
    gate: &G,
) -> Result<Vec<Entry>, AllocError>
    requires few { AreFewCalls scripts.now }
    requires line { IsLineOf plan.now plain.old }
    requires left { AreLeft plan.now plain.old.line (calls_of_scripts scripts.now) }
    requires count { plain.old.calls + count_left (calls_of_scripts scripts.now) < 2 ^ 32 }
    ensures { IfOk result
        (λ entries. entries.items ≡ rest_of plan.now plain.old.line (calls_of_scripts scripts.now)) }
{
    let mut roster = Roster::new(alloc, scripts)?;
    let entries = worked_entries(alloc, plain, plan, &mut roster, gate);
    drop(roster);
    entries
}

/// Works the scripts of all boxes on one thread. At each point the lowest box makes its next call that has one left and
/// isn't stopped at an await that the line doesn't satisfy; where all are stopped, the lowest makes its await.
pub fn work_serially<G: Gate>(
    alloc: Global,
    plan: &Plan,
    scripts: &[Script],
    gate: &G,
) -> Result<Journal, NoMemory>
    requires { AreScriptsOf plan.now scripts.now }
    ensures { IfOk result (λ journal. journal.entries ≡ serial_journal plan.now (calls_of_scripts scripts.now)) }
{
    plan.meets_conditions();
    let mut plain = Plain::open(alloc, plan)?;
    let entries = script_entries(alloc, &mut plain, plan, scripts, gate);
    drop(plain);
    let entries = entries?;
    Ok(Journal {
        entries: Items::from_vec(entries),
    })
}
