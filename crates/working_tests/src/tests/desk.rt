//! The line of the tests, what its men have told, and the one assertion.

ghost use Rattle.std.specs.Prelude.{◌≤◌};
ghost use Rattle.working_tests.specs.Scripts.{AreForBoxes};

use crate::line::{read_scripts, worked};
use line_law::{Entry, Reply};
use line_plan::Plan;
use line_working::Gate;
use plan_text::read_plan;
use rail_text::{NoMemory, ReadError};
use script_text::Script;
use signalman_seats::Signalman;
use std::alloc::Global;
use std::process::Abort;
use std::sync::Wait;
use std::thread::Threads;

// Two boxes with bells alone.
const BELLS: &str = "plan 1\nboxes 2\ndelay 2\nlooks 1000000000\nbox Ash\nbox Beech\nend\n";

/// Ends the test where a fact doesn't hold, and names it.
pub fn holds(rt: &impl Abort, fact: &str, is_so: bool) {
    assert!(rt; is_so, "not so: {fact}");
}

// Are the replies of these entries these?
fn are_entries(entries: &[Entry], replies: &[Reply]) -> bool {
    entries.len() == replies.len()
        && entries
            .iter()
            .zip(replies)
            .all(|(entry, reply)| entry.reply == *reply)
}

// Are these the replies of each man?
fn have_told(men: &[Signalman], replies: &[&[Reply]]) -> bool {
    men.len() == replies.len()
        && men
            .iter()
            .zip(replies)
            .all(|(man, told)| are_entries(man.entries(), told))
}

// Works scripts of a plan's boxes, with so many looks an await. Do the men have these replies?
fn are_told_by<R: Threads + Wait + Sync, G: Gate>(
    rt: &R,
    alloc: Global,
    plan: &Plan,
    scripts: &[Script],
    looks: u32,
    gate: &G,
    replies: &[&[Reply]],
) -> Result<bool, NoMemory>
    requires scripts { AreForBoxes plan.now scripts.now }
    requires looks { 1 ≤ looks }
{
    let men = worked(rt, alloc, plan, scripts, looks, gate)?;
    let are_so = have_told(&men, replies);
    drop(men);
    Ok(are_so)
}

// The same of the scripts that texts spell.
fn are_told<R: Threads + Wait + Sync, G: Gate>(
    rt: &R,
    alloc: Global,
    plan: &Plan,
    looks: u32,
    texts: &[&str],
    gate: &G,
    replies: &[&[Reply]],
) -> Result<bool, ReadError>
    requires { 1 ≤ looks }
{
    if texts.len() != plan.boxes.len() {
        return Ok(false);
    }
    let scripts = read_scripts(alloc, plan, texts)?;
    let are_so = are_told_by(rt, alloc, plan, &scripts, looks, gate, replies);
    drop(scripts);
    Ok(are_so?)
}

/// Works scripts of the boxes of a plan, with so many looks an await. Do the men have these replies?
///
/// # Errors
///
/// `Refused` where a text is no plan or no script of its box, `NoMemory` where memory runs out.
pub fn are_replies_on<R: Threads + Wait + Sync, G: Gate>(
    rt: &R,
    alloc: Global,
    plan: &str,
    looks: u32,
    texts: &[&str],
    gate: &G,
    replies: &[&[Reply]],
) -> Result<bool, ReadError>
    requires { 1 ≤ looks }
{
    let plan = read_plan(alloc, plan.as_bytes())?;
    let are_so = are_told(rt, alloc, &plan, looks, texts, gate, replies);
    drop(plan);
    are_so
}

/// Works scripts of the two boxes, with three looks an await. Do the men have these replies?
///
/// # Errors
///
/// `Refused` where a text is no script of its box, `NoMemory` where memory runs out.
pub fn are_replies<R: Threads + Wait + Sync, G: Gate>(
    rt: &R,
    alloc: Global,
    texts: &[&str],
    gate: &G,
    replies: &[&[Reply]],
) -> Result<bool, ReadError> {
    are_replies_on(rt, alloc, BELLS, 3, texts, gate, replies)
}
