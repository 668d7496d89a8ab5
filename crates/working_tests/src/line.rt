//! A line that is opened, and worked by scripts behind a gate.

ghost use Rattle.std.specs.Prelude.{◌≡◌, ◌≤◌, IfOk, length, replicate};
ghost use Rattle.signalman_seats.specs.Lines.{AreFresh};
ghost use Rattle.working_tests.specs.Scripts.{AreForBoxes};

use instrument_rule::Line;
use line_plan::Plan;
use line_working::{Gate, work_line};
use rail_text::{NoMemory, ReadError};
use script_text::{MOST_CALLS, Script, read_script};
use signalman_seats::{Signalman, open_line};
use std::alloc::Global;
use std::sync::Wait;
use std::thread::Threads;

/// The scripts of a line's boxes, in order, as texts spell them.
///
/// # Errors
///
/// `Refused` where a text is no script of its box, `NoMemory` where memory runs out.
pub fn read_scripts(alloc: Global, plan: &Plan, texts: &[&str]) -> Result<Vec<Script>, ReadError>
    requires { length texts.now ≡ length plan.now.boxes }
    ensures { IfOk result (λ scripts. AreForBoxes plan.now scripts.items) }
{
    plan.meets_conditions();
    let mut scripts = Vec::new(alloc);
    for text in texts {
        let box_no = scripts.len() as u32;
        let script = read_script(alloc, plan, box_no, text.as_bytes())?;
        scripts.push(script)?;
    }
    Ok(scripts)
}

/// A line of a plan with its men, each with room for as many entries as a script may have calls.
///
/// # Errors
///
/// `NoMemory` where the line can't be opened.
pub fn opened(alloc: Global, plan: &Plan) -> Result<(Line, Vec<Signalman>), NoMemory>
    ensures line { IfOk result (λ r. r.0.table.shared.key ≡ plan.now) }
    ensures men { IfOk result (λ r. AreFresh r.0.table.shared.table_id plan.now
        (replicate (length plan.now.boxes) 10000) r.1.items) }
{
    plan.meets_conditions();
    let rooms = vec![in alloc; MOST_CALLS; plan.boxes.len()]?;
    let opened = open_line(alloc, plan, &rooms);
    drop(rooms);
    match opened {
        Ok(opened) => Ok(opened),
        Err(fault) => {
            drop(fault);
            Err(NoMemory)
        }
    }
}

/// Opens the line of a plan and works scripts on it behind a gate, each on a thread of its own, with so many looks an
/// await. It gives the men as they then stand.
///
/// # Errors
///
/// `NoMemory` where the line can't be opened.
pub fn worked<R: Threads + Wait + Sync, G: Gate>(
    rt: &R,
    alloc: Global,
    plan: &Plan,
    scripts: &[Script],
    looks: u32,
    gate: &G,
) -> Result<Vec<Signalman>, NoMemory>
    requires scripts { AreForBoxes plan.now scripts.now }
    requires looks { 1 ≤ looks }
{
    plan.meets_conditions();
    let (line, mut men) = opened(alloc, plan)?;
    work_line(rt, alloc, &line, &mut men, scripts, looks, gate);
    drop(line);
    Ok(men)
}
