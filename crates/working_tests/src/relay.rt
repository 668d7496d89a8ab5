//! A line of 64 boxes with bells alone, whose last man rings, and each other man rings on what he has awaited.

ghost use Rattle.std.specs.Prelude.{◌<◌, IfOk, length};
ghost use Rattle.script_text.specs.Scripts.{IsScriptOf};
ghost use Rattle.working_tests.specs.Scripts.{AreForBoxes};

use line_plan::Plan;
use plan_text::read_plan;
use rail_text::{NoMemory, ReadError};
use script_text::{Script, read_script};
use std::alloc::{AllocError, Global};
use std::fmt::Write;

// The number of its last box.
const LAST: u32 = 63;

fn put_plan(text: &mut String) -> Result<(), AllocError> {
    text.push_str("plan 2\nboxes 64\ndelay 2\nlooks 1000000000\n")?;
    for box_no in 0..=LAST {
        write!(text, "box B{box_no}\n")?;
    }
    text.push_str("end\n")
}

fn plan_text(alloc: Global) -> Result<String, NoMemory> {
    let mut text = String::new(alloc);
    put_plan(&mut text)?;
    Ok(text)
}

/// The plan of the line.
///
/// # Errors
///
/// Only where memory runs out.
pub fn relay_plan(alloc: Global) -> Result<Plan, ReadError> {
    let text = plan_text(alloc)?;
    let plan = read_plan(alloc, text.as_bytes());
    drop(text);
    plan
}

fn put_script(text: &mut String, plan: &Plan, box_no: u32) -> Result<(), AllocError>
    requires { box_no < length plan.now.boxes }
{
    plan.meets_conditions();
    write!(text, "script {}\n", plan.box_name(box_no))?;
    if box_no < LAST {
        text.push_str("10:00:00 await_bell down 1\n")?;
    }
    if 0 < box_no {
        text.push_str("10:00:00 ring up 1\n")?;
    }
    text.push_str("end\n")
}

fn script_text(alloc: Global, plan: &Plan, box_no: u32) -> Result<String, NoMemory>
    requires { box_no < length plan.now.boxes }
{
    let mut text = String::new(alloc);
    put_script(&mut text, plan, box_no)?;
    Ok(text)
}

fn script_of(alloc: Global, plan: &Plan, box_no: u32) -> Result<Script, ReadError>
    requires { box_no < length plan.now.boxes }
    ensures { IfOk result (λ script. IsScriptOf plan.now box_no script) }
{
    let text = script_text(alloc, plan, box_no)?;
    let script = read_script(alloc, plan, box_no, text.as_bytes());
    drop(text);
    script
}

/// The scripts of its boxes.
///
/// # Errors
///
/// Where memory runs out, or the plan is of another line.
pub fn relay_scripts(alloc: Global, plan: &Plan) -> Result<Vec<Script>, ReadError>
    ensures { IfOk result (λ scripts. AreForBoxes plan.now scripts.items) }
{
    plan.meets_conditions();
    let mut scripts = Vec::new(alloc);
    for box_no in 0..plan.boxes.len() as u32 {
        let script = script_of(alloc, plan, box_no)?;
        scripts.push(script)?;
    }
    Ok(scripts)
}
