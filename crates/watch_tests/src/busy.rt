//! A busy line of 32 boxes, worked without an await: each man turns his instruments and pulls his starters over and
//! over.

ghost use Rattle.std.specs.Prelude.{◌<◌, IfOk, length};
ghost use Rattle.line_maker.specs.MadeCalls.{AreLineScripts};
ghost use Rattle.script_text.specs.Scripts.{IsScriptOf};

use line_plan::Plan;
use plan_text::read_plan;
use rail_text::{NoMemory, ReadError};
use script_text::{Script, read_script};
use std::alloc::{AllocError, Global};
use std::fmt::Write;

const HEAD: &str = "plan 1\nboxes 32\ndelay 0\nlooks 1\n";

// The number of its last box.
const LAST: u32 = 31;

const FIRST_BOX: &str =
    "place DP\nplace UB\nplace UP\nlever 2 signal\nlever 3 signal\nsignal 3 UB UP\n\
starter down 2 DP\nberth up UB\n";

const MIDDLE_BOX: &str = "place DB\nplace DP\nplace UB\nplace UP\n\
lever 1 signal\nlever 2 signal\nlever 3 signal\nlever 4 signal\nsignal 1 DB DP\nsignal 3 UB UP\n\
starter down 2 DP\nstarter up 4 UP\nberth up UB\nberth down DB\n";

const LAST_BOX: &str =
    "place DB\nplace DP\nplace UP\nlever 1 signal\nlever 4 signal\nsignal 1 DB DP\n\
starter up 4 UP\nberth down DB\n";

// What a man does over and over towards the box ahead of him on the down line: at his instrument for the up line, and
// at his starter for the down line.
const AHEAD: &str =
    "06:00 turn up line_clear\n06:00 pull 2\n06:00 put 2\n06:00 turn up train_on_line\n\
06:00 turn up normal\n06:00 wind up\n06:00 release up\n";

// The same towards the box behind him.
const BEHIND: &str =
    "06:00 turn down line_clear\n06:00 pull 4\n06:00 put 4\n06:00 turn down train_on_line\n\
06:00 turn down normal\n06:00 wind down\n06:00 release down\n";

fn put_plan(text: &mut String) -> Result<(), AllocError> {
    text.push_str(HEAD)?;
    for box_no in 0..=LAST {
        write!(text, "box B{box_no}\n")?;
        text.push_str(match box_no {
            0 => FIRST_BOX,
            LAST => LAST_BOX,
            _ => MIDDLE_BOX,
        })?;
    }
    text.push_str("end\n")
}

fn plan_text(alloc: Global) -> Result<String, NoMemory> {
    let mut text = String::new(alloc);
    put_plan(&mut text)?;
    Ok(text)
}

/// The plan of the line.
///
/// # Errors
///
/// Only where memory runs out.
pub fn busy_plan(alloc: Global) -> Result<Plan, ReadError> {
    let text = plan_text(alloc)?;
    let plan = read_plan(alloc, text.as_bytes());
    drop(text);
    plan
}

fn put_script(text: &mut String, plan: &Plan, box_no: u32, times: u32) -> Result<(), AllocError>
    requires { box_no < length plan.now.boxes }
{
    plan.meets_conditions();
    write!(text, "script {}\n", plan.box_name(box_no))?;
    for _ in 0..times {
        if box_no as usize + 1 < plan.boxes.len() {
            text.push_str(AHEAD)?;
        }
        if 0 < box_no {
            text.push_str(BEHIND)?;
        }
    }
    text.push_str("end\n")
}

fn script_text(alloc: Global, plan: &Plan, box_no: u32, times: u32) -> Result<String, NoMemory>
    requires { box_no < length plan.now.boxes }
{
    let mut text = String::new(alloc);
    put_script(&mut text, plan, box_no, times)?;
    Ok(text)
}

// The script of a box that does this so many times.
fn script_of(alloc: Global, plan: &Plan, box_no: u32, times: u32) -> Result<Script, ReadError>
    requires { box_no < length plan.now.boxes }
    ensures { IfOk result (λ script. IsScriptOf plan.now box_no script) }
{
    let text = script_text(alloc, plan, box_no, times)?;
    let script = read_script(alloc, plan, box_no, text.as_bytes());
    drop(text);
    script
}

/// The scripts of the boxes of a plan, in each of which this is done so many times; none of them has a call where that
/// is 0.
///
/// # Errors
///
/// Where memory runs out, or a script has a call that the plan doesn't know.
pub fn busy_scripts(alloc: Global, plan: &Plan, times: u32) -> Result<Vec<Script>, ReadError>
    ensures { IfOk result (λ scripts. AreLineScripts plan.now scripts.items) }
{
    plan.meets_conditions();
    let mut scripts = Vec::new(alloc);
    for box_no in 0..plan.boxes.len() as u32 {
        let script = script_of(alloc, plan, box_no, times)?;
        scripts.push(script)?;
    }
    Ok(scripts)
}
