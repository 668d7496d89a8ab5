//! The scripts of a line, worked by its signalmen.

ghost use Rattle.std.specs.Prelude.{◌≡◌, ◌≤◌, ◌<◌, ℕ, length, slice_index_or};
ghost use denote.Param.Send.{IsSync};
ghost use Rattle.line_working.specs.Working.{CanWork, CanWorkEach, DidWork, DidWorkEach};
ghost use Rattle.script_text.specs.declared.script.Script.{Script};
ghost use Rattle.signalman_seats.specs.Men.{Man};
ghost use Rattle.instrument_rule.specs.Posts.{plan_of};

use crate::crew::Crew;
use crate::gate::Gate;
use crate::starting::work_both;
use instrument_rule::Line;
use script_text::Script;
use signalman_seats::Signalman;
use std::alloc::Global;
use std::sync::Wait;
use std::thread::Threads;

// Makes the calls of a script, in order. Before each the man passes the gate.
fn work<R: Wait, G: Gate>(
    rt: &R,
    line: &Line,
    script: &Script,
    looks: u32,
    gate: &G,
    crew: &Crew,
    man: &mut Signalman,
)
    requires ready { CanWork line.now.table.shared.table_id (plan_of line.now) script.now man.old }
    requires looks { 1 ≤ looks }
    ensures { DidWork line.now.table.shared.table_id (plan_of line.now) script.now looks man.old man.new }
{
    // His watch and his entries tell what his type keeps: what he has seen is legal, and they are his part of it, which
    // is asked for the script that has no call; and with his script they are no more than a box may have.
    drop(man.lend_watch(line));
    let _entries = man.entries();
    let mate = crew.mate(rt, gate, script.box_no);
    for (i, call) in script.calls.as_slice().iter().enumerate() {
        gate.pass(script.box_no, i as u32 + 1);
        let reply = man.perform_pausing(line, *call, looks, &mate);
        mate.tell(call, &reply);
    }
    mate.end();
}

// These men of a crew work their scripts, each but the last on a new thread of his own.
#[cycle(men)]
fn work_men<R: Threads + Wait + Sync, G: Gate>(
    rt: &R,
    line: &Line,
    scripts: &[Script],
    looks: u32,
    gate: &G,
    crew: &Crew,
    men: &mut [Signalman],
)
    requires ready { CanWorkEach line.now.table.shared.table_id (plan_of line.now) scripts.now men.old }
    requires looks { 1 ≤ looks }
    ensures { DidWorkEach line.now.table.shared.table_id (plan_of line.now) scripts.now looks men.old men.new }
{
    let Some((script, later)) = scripts.split_first() else {
        return;
    };
    let Some((man, others)) = men.split_first_mut() else {
        return;
    };
    work_first(rt, line, script, later, looks, gate, crew, man, others);
}

// A man of a crew works his script on a new thread, and others theirs. Where there are no others he works here.
#[cycle(men)]
fn work_first<R: Threads + Wait + Sync, G: Gate>(
    rt: &R,
    line: &Line,
    script: &Script,
    later: &[Script],
    looks: u32,
    gate: &G,
    crew: &Crew,
    man: &mut Signalman,
    others: &mut [Signalman],
)
    requires first { CanWork line.now.table.shared.table_id (plan_of line.now) script.now man.old }
    requires others { CanWorkEach line.now.table.shared.table_id (plan_of line.now) later.now others.old }
    requires looks { 1 ≤ looks }
    ensures first { DidWork line.now.table.shared.table_id (plan_of line.now) script.now looks man.old man.new }
    ensures others { DidWorkEach line.now.table.shared.table_id (plan_of line.now) later.now looks others.old
        others.new }
{
    if others.is_empty() {
        work(rt, line, script, looks, gate, crew, man);
        return;
    }
    let mut his = ||
        requires { (1 ≤ looks) × CanWork line.now.table.shared.table_id (plan_of line.now) script.now man.now }
        ensures { DidWork line.entry.now.table.shared.table_id (plan_of line.entry.now) script.entry.now looks
            man.entry.now man.exit.now }
    { work(rt, line, script, looks, gate, crew, man) };
    let mut theirs = ||
        requires { IsSync R.row × IsSync G.row × (1 ≤ looks)
            × CanWorkEach line.now.table.shared.table_id (plan_of line.now) later.now others.now }
        ensures { DidWorkEach line.entry.now.table.shared.table_id (plan_of line.entry.now) later.entry.now looks
            others.entry.now others.exit.now }
    { work_men(rt, line, later, looks, gate, crew, others) };
    work_both(rt, crew, &mut his, &mut theirs);
}

/// Each signalman works his script, on a thread of his own; the last on the caller's. Where a thread can't be started
/// the caller does its work, when the men behind that one have ended, with the same promise. Before each call the man
/// passes the gate. It may wait for the threads that it started. Where there is no man it returns at once.
///
/// A man whose await isn't met looks again at once a few times, then lets other threads run between his looks, as far
/// as the gate says that this is soon over, then sleeps until a neighbour has done something that he may wait for, or
/// nobody is awake. The last man who is awake doesn't sleep: he takes the looks that are left to him. A man whose
/// thread hasn't started yet counts as awake, and one for whom none could be started as soon as his turn has come.
/// Where there is no memory for their beds nobody sleeps.
///
/// The men stay in their places. What each has seen has grown to a legal history of the line, in which his part has one
/// entry more for each call of his script, in order and no other; all his looks were those of his awaits, and his
/// moment is that of his last call, so that he may work another script from there.
pub fn work_line<R: Threads + Wait + Sync, G: Gate>(
    rt: &R,
    alloc: Global,
    line: &Line,
    men: &mut [Signalman],
    scripts: &[Script],
    looks: u32,
    gate: &G,
)
    requires count { length scripts.now ≡ length men.old }
    requires ready { (i : ℕ) (d : Man) (e : Script) → i < length men.old
        → CanWork line.now.table.shared.table_id (plan_of line.now) (slice_index_or scripts.now i e)
        (slice_index_or men.old i d) }
    requires looks { 1 ≤ looks }
    ensures count { length men.new ≡ length men.old }
    ensures worked { (i : ℕ) (d : Man) (e : Script) → i < length men.old
        → DidWork line.now.table.shared.table_id (plan_of line.now) (slice_index_or scripts.now i e) looks
        (slice_index_or men.old i d) (slice_index_or men.new i d) }
{
    let crew = Crew::new(alloc, men.len());
    work_men(rt, line, scripts, looks, gate, &crew, men);
}
