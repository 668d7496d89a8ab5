//! The made line by its tables: its plan, its scripts and its range.

ghost use Rattle.line_maker.specs.MadeCalls.{AreLineScripts};

use crate::facts::{holds, is_text};
use line_maker::{MakeError, make_line};
use line_plan::Plan;
use plan_text::print_plan;
use rail_text::NoMemory;
use script_text::{Script, print_script};
use std::alloc::Global;
use std::test::Fail;

const PLAN_OF_ONE: &str = "plan 1\nboxes 3\ndelay 2\nlooks 1000000000\n\
box Ash\nplace DP\nplace UB\nplace UP\n\
lever 1 spare\nlever 2 signal\nlever 3 signal\nlever 4 signal\nlever 5 points\n\
signal 3 UB UP\nsignal 4 UP away\nstarter down 2 DP\nberth up UB\nclear up UP\n\
row 2 locks 5 normal\nrow 3 locks 5 normal\n\
box Beech\nplace DB\nplace DP\nplace UB\nplace UP\n\
lever 1 signal\nlever 2 signal\nlever 3 signal\nlever 4 signal\nlever 5 points\n\
signal 1 DB DP\nsignal 3 UB UP\nstarter down 2 DP\nstarter up 4 UP\nberth up UB\nberth down DB\n\
clear up UP\nclear down DP\ntrack 5 DP\nrow 1 locks 5 normal\nrow 3 locks 5 normal\n\
box Cedar\nplace DB\nplace DP\nplace UP\n\
lever 1 signal\nlever 2 signal\nlever 3 spare\nlever 4 signal\nlever 5 points\n\
signal 1 DB DP\nsignal 2 DP away\nstarter up 4 UP\nberth down DB\nclear down DP\n\
row 1 locks 5 normal\nrow 4 locks 5 normal\n\
train t1 ordinary Ash DP\nend\n";

const SCRIPTS_OF_ONE: [&str; 3] = [
    "script Ash\n06:00 bring t1\n\
06:00 ring down 1\n06:00 await_bell down 1\n06:00 ring down 3-1\n06:00 await_bell down 3-1\n\
06:00 await_block down line_clear\n06:00 pull 2\n06:00 ring down 2\n06:00 await_bell down 2\n\
06:00 pass 2\n06:00 put 2\n06:00 await_bell down 2-1\n06:00 ring down 2-1\nend\n",
    "script Beech\n\
06:00 await_bell up 1\n06:00 ring up 1\n06:00 await_bell up 3-1\n06:00 ring up 3-1\n\
06:00 turn down line_clear\n06:00 await_bell up 2\n06:00 ring up 2\n06:00 turn down train_on_line\n\
06:00 await_train down\n06:00 berth down\n06:00 pull 1\n06:00 pass 1\n06:00 put 1\n\
06:00 ring up 2-1\n06:00 turn down normal\n06:00 await_bell up 2-1\n\
06:00 ring down 1\n06:00 await_bell down 1\n06:00 ring down 3-1\n06:00 await_bell down 3-1\n\
06:00 await_block down line_clear\n06:00 pull 2\n06:00 ring down 2\n06:00 await_bell down 2\n\
06:00 pass 2\n06:00 put 2\n06:00 await_bell down 2-1\n06:00 ring down 2-1\nend\n",
    "script Cedar\n\
06:00 await_bell up 1\n06:00 ring up 1\n06:00 await_bell up 3-1\n06:00 ring up 3-1\n\
06:00 turn down line_clear\n06:00 await_bell up 2\n06:00 ring up 2\n06:00 turn down train_on_line\n\
06:00 await_train down\n06:00 berth down\n06:00 pull 1\n06:00 pass 1\n06:00 put 1\n\
06:00 ring up 2-1\n06:00 turn down normal\n06:00 await_bell up 2-1\n\
06:00 pull 2\n06:00 pass 2\n06:00 put 2\nend\n",
];

// Is the script of a box printed as this text?
fn is_printed(
    alloc: Global,
    plan: &Plan,
    scripts: &[Script],
    box_no: usize,
    text: &str,
) -> Result<bool, NoMemory>
    requires { AreLineScripts plan.now scripts.now }
{
    match scripts.get(box_no) {
        Some(script) => Ok(is_text(print_script(alloc, plan, script)?, text)),
        None => Ok(false),
    }
}

// Are a plan and its scripts printed as the texts of one train?
fn are_of_one(alloc: Global, plan: &Plan, scripts: &[Script]) -> Result<bool, NoMemory>
    requires { AreLineScripts plan.now scripts.now }
{
    let printed = print_plan(alloc, plan)?;
    let mut are_so = is_text(printed, PLAN_OF_ONE);
    for (box_no, text) in SCRIPTS_OF_ONE.iter().enumerate() {
        are_so = is_printed(alloc, plan, scripts, box_no, text)? & are_so;
    }
    Ok(are_so)
}

#[test]
fn one_train(rt: HostRuntime) -> Result<(), Fail> {
    let (plan, scripts) = make_line(rt.alloc(), 1)?;
    let are_of_one = are_of_one(rt.alloc(), &plan, &scripts);
    drop(scripts);
    drop(plan);
    holds(&rt, "the plan and the scripts of one train", are_of_one?);
    Ok(())
}

// Have the scripts of the boxes so many calls?
fn have_calls(scripts: &[Script], counts: [usize; 3]) -> bool {
    match scripts {
        [ash, beech, cedar] => [ash.calls.len(), beech.calls.len(), cedar.calls.len()] == counts,
        _ => false,
    }
}

#[test]
fn two_hundred_trains(rt: HostRuntime) -> Result<(), Fail> {
    let (plan, scripts) = make_line(rt.alloc(), 200)?;
    let are_trains = plan.trains.len() == 200;
    let have_calls = have_calls(&scripts, [3200, 5600, 3200]);
    drop(scripts);
    drop(plan);
    holds(
        &rt,
        "two hundred trains and their calls",
        are_trains & have_calls,
    );
    Ok(())
}

// Whether there is no line of so many trains.
fn is_out_of_range(alloc: Global, n: u32) -> bool {
    match make_line(alloc, n) {
        Ok(made) => {
            drop(made);
            false
        }
        Err(error) => error == MakeError::OutOfRange { n },
    }
}

#[test]
fn trains_out_of_range(rt: HostRuntime) {
    let none = is_out_of_range(rt.alloc(), 0);
    let many = is_out_of_range(rt.alloc(), 201);
    let most = is_out_of_range(rt.alloc(), u32::MAX);
    holds(&rt, "no line of 0, 201 or more trains", none & many & most);
}
