//! Men on threads of their own, who work a hundred trains.

ghost use Rattle.std.specs.Prelude.{◌≡◌, IfOk};
ghost use Rattle.signalman_seats.specs.Lines.{AreMen};
ghost use Rattle.signalman_seats.specs.Men.{IsOf};

use crate::endings::merged;
use crate::facts::holds;
use crate::hands::opened;
use instrument_rule::Line;
use line_law::{Call, Journal};
use line_maker::make_line;
use line_plan::Plan;
use line_report::{Verdict, judge, may_judge};
use rail_text::NoMemory;
use script_text::Script;
use signalman_seats::Signalman;
use std::alloc::Global;
use std::test::Fail;
use std::thread;
use std::thread::Threads;

// How many trains run, and how many calls they have.
const TRAINS: u32 = 100;

const CALLS: usize = 6_000;

// How often an await looks.
const LOOKS: u32 = 1_000_000_000;

// The room in each register.
const ROOM: usize = 2_800;

// The calls of a box.
fn calls_of(scripts: &[Script], box_no: u32) -> &[Call] {
    match scripts.get(box_no as usize) {
        Some(script) => script.calls.as_slice(),
        None => &[],
    }
}

// A man makes the calls of his box.
fn works(man: &mut Signalman, line: &Line, scripts: &[Script])
    requires { IsOf line.now.table.shared.table_id line.now.table.shared.key man.old }
    ensures line { IsOf line.now.table.shared.table_id line.now.table.shared.key man.new }
    ensures box_no { man.new.box_no ≡ man.old.box_no }
{
    for call in calls_of(scripts, man.box_no()) {
        if man.spare() > 0 && man.knows(call) && man.moment() <= call.moment {
            man.perform(line, *call, LOOKS);
        }
    }
}

// Each man goes to a thread of his own, works there, and comes back.
fn all_work<R: Threads + Sync>(
    rt: &R,
    line: &Line,
    scripts: &[Script],
    men: Vec<Signalman>,
) -> Result<Vec<Signalman>, NoMemory>
    requires { AreMen line.now.table.shared.table_id line.now.table.shared.key men.items }
    ensures { IfOk result (λ men. AreMen line.now.table.shared.table_id line.now.table.shared.key men.items) }
{
    let work = |mut man: Signalman| -> Signalman
        requires { IsOf line.now.table.shared.table_id line.now.table.shared.key man }
        ensures { IsOf line.entry.now.table.shared.table_id line.entry.now.table.shared.key result
            × (result.box_no ≡ man.box_no) }
    {
        works(&mut man, line, scripts);
        man
    };
    Ok(thread::map_vec(rt, men, &work)?)
}

// The journal of a line whose men work their scripts on threads.
fn worked<R: Threads + Sync>(
    rt: &R,
    alloc: Global,
    plan: &Plan,
    scripts: &[Script],
) -> Result<Journal, NoMemory> {
    let (line, men) = opened(alloc, plan, ROOM)?;
    match all_work(rt, &line, scripts, men) {
        Ok(men) => merged(alloc, plan, line, men),
        Err(fault) => {
            drop(line);
            Err(fault)
        }
    }
}

// Is the journal legal, with all calls of the trains?
fn is_legal(alloc: Global, plan: &Plan, journal: &Journal) -> Result<bool, NoMemory> {
    if journal.entries.len() != CALLS || !may_judge(alloc, plan, journal)? {
        return Ok(false);
    }
    match judge(alloc, plan, journal)? {
        Verdict::Legal => Ok(true),
        Verdict::WrongAt { .. } => Ok(false),
    }
}

// Is the journal of a line legal whose men work their scripts on threads?
fn is_worked<R: Threads + Sync>(
    rt: &R,
    alloc: Global,
    plan: &Plan,
    scripts: &[Script],
) -> Result<bool, NoMemory> {
    let journal = worked(rt, alloc, plan, scripts)?;
    let is_so = is_legal(alloc, plan, &journal);
    drop(journal);
    is_so
}

#[test]
fn men_work_on_threads(rt: HostRuntime) -> Result<(), Fail> {
    let (plan, scripts) = make_line(rt.alloc(), TRAINS)?;
    let is_so = is_worked(&rt, rt.alloc(), &plan, &scripts);
    drop(scripts);
    drop(plan);
    holds(&rt, "a legal journal of a hundred trains", is_so?);
    Ok(())
}
