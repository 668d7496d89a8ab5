//! Worked boards.

ghost use Rattle.std.specs.Prelude.{◌≤◌};
ghost use Rattle.line_maker.specs.MadeCalls.{AreLineScripts};

use crate::busy::{busy_plan, busy_scripts};
use crate::line::{watched, watched_text};
use crate::shown::shows;
use line_law::Journal;
use line_maker::make_line;
use line_plan::Plan;
use line_report::{Verdict, judge, may_judge};
use plan_text::read_plan;
use rail_text::{NoMemory, ReadError};
use script_text::Script;
use std::alloc::Global;
use std::process::Abort;
use std::sync::Wait;
use std::test::Fail;
use std::thread::Threads;

// How often each man of the busy line does what he does.
const TIMES: u32 = 60;

// How many calls all of them then make: 7 for each time and each end of a section.
const CALLS: usize = 26_040;

const ROUNDS: u32 = 1_000;

// Ends the test where a fact doesn't hold, and names it.
fn holds(rt: &impl Abort, fact: &str, is_so: bool) {
    assert!(rt; is_so, "not so: {fact}");
}

// Is this the text of the board of a line that is watched so?
fn is_board<R: Threads + Wait + Sync>(
    rt: &R,
    alloc: Global,
    plan: &Plan,
    scripts: &[Script],
    rounds: u32,
    shown: &[u8],
) -> Result<bool, NoMemory>
    requires scripts { AreLineScripts plan.now scripts.now }
    requires rounds { (1 ≤ rounds) × (rounds ≤ 1000) }
{
    let text = watched_text(rt, alloc, plan, scripts, rounds)?;
    let is_so = text.as_slice() == shown;
    drop(text);
    Ok(is_so)
}

// Is this the text of the board of two rounds, where nobody works the line of a plan?
fn is_idle_board<R: Threads + Wait + Sync>(
    rt: &R,
    alloc: Global,
    plan: &Plan,
    shown: &[u8],
) -> Result<bool, ReadError> {
    let scripts = busy_scripts(alloc, plan, 0)?;
    let is_so = is_board(rt, alloc, plan, &scripts, 2, shown);
    drop(scripts);
    Ok(is_so?)
}

#[test]
fn two_rounds_show_a_line_that_nobody_worked(rt: HostRuntime) -> Result<(), Fail> {
    let plan = b"plan 1\nboxes 2\ndelay 2\nlooks 3\nbox Ash\nbox Beech\nend\n";
    let shown = b"board 2\n\
        1 down Ash Beech 0 normal unspent\n\
        1 up Beech Ash 0 normal unspent\n\
        2 down Ash Beech 0 normal unspent\n\
        2 up Beech Ash 0 normal unspent\n";
    let plan = read_plan(rt.alloc(), plan.as_slice())?;
    let is_so = is_idle_board(&rt, rt.alloc(), &plan, shown.as_slice());
    drop(plan);
    holds(&rt, "the board", is_so?);
    Ok(())
}

#[test]
fn one_round_shows_the_made_line_of_one_train_at_turn_three(rt: HostRuntime) -> Result<(), Fail> {
    let shown = b"board 1\n\
        1 down Ash Beech 3 normal unspent\n\
        1 up Beech Ash 0 normal unspent\n\
        1 down Beech Cedar 3 normal unspent\n\
        1 up Cedar Beech 0 normal unspent\n";
    let (plan, scripts) = make_line(rt.alloc(), 1)?;
    let is_so = is_board(&rt, rt.alloc(), &plan, &scripts, 1, shown.as_slice());
    drop(scripts);
    drop(plan);
    holds(&rt, "the board", is_so?);
    Ok(())
}

// Is the journal legal, with all calls?
fn is_legal(alloc: Global, plan: &Plan, journal: &Journal) -> Result<bool, NoMemory> {
    if journal.entries.len() != CALLS || !may_judge(alloc, plan, journal)? {
        return Ok(false);
    }
    match judge(alloc, plan, journal)? {
        Verdict::Legal => Ok(true),
        Verdict::WrongAt { .. } => Ok(false),
    }
}

// Does the board of a thousand rounds show the journal, which is legal?
fn is_shown<R: Threads + Wait + Sync>(
    rt: &R,
    alloc: Global,
    plan: &Plan,
    scripts: &[Script],
) -> Result<bool, NoMemory>
    requires { AreLineScripts plan.now scripts.now }
{
    plan.meets_conditions();
    let line = watched(rt, alloc, plan, scripts, ROUNDS)?;
    let boxes = plan.boxes.len() as u32;
    let is_so = shows(&line.board, boxes, ROUNDS, line.journal.entries.as_slice());
    let legal = is_legal(alloc, plan, &line.journal);
    drop(line);
    Ok(is_so & legal?)
}

// The same where each man of the line of a plan does what he does so often.
fn is_busy_board<R: Threads + Wait + Sync>(
    rt: &R,
    alloc: Global,
    plan: &Plan,
) -> Result<bool, ReadError> {
    let scripts = busy_scripts(alloc, plan, TIMES)?;
    let is_so = is_shown(rt, alloc, plan, &scripts);
    drop(scripts);
    Ok(is_so?)
}

#[test]
fn a_thousand_rounds_show_a_busy_line_of_32_boxes(rt: HostRuntime) -> Result<(), Fail> {
    let plan = busy_plan(rt.alloc())?;
    let is_so = is_busy_board(&rt, rt.alloc(), &plan);
    drop(plan);
    holds(&rt, "the board shows the journal", is_so?);
    Ok(())
}
