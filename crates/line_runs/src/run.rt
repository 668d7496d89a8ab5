//! The output of a run, made whole before any of it is put.

ghost use Rattle.std.specs.Prelude.{◌≡◌, ◌∷◌, ◌++◌, ℕ, List, IfOk, IsErrOf};
ghost use Rattle.text_fetch.specs.FromTexts.{HasShelfFault, named};
ghost use Rattle.text_fetch.specs.Runs.{AreScriptsOf, run_told, run_told_before};
ghost use Rattle.line_runs.specs.Outputs.{IsOutputOf, MakesText};
ghost use Rattle.line_runs.specs.Worked.{AreWorked};

use crate::both::both_made;
use crate::printing::{merged_and_printed, print_whole};
use crate::rest::{OutputRest, in_room, whole_text};
use crate::sizes::make_room;
use crate::worked::work_scripts;
use line_plan::Plan;
use line_working::Gate;
use rail_text::{NoMemory, Shelf};
use script_text::Script;
use std::alloc::Global;
use std::sync::Wait;
use std::thread::{Threads, join};
use text_fetch::{Inputs, Stop, fetch_inputs};
use train_register::Ended;

// What is printed of a line whose scripts were worked, up to the lines of its journal's front half, and the rest. The
// scripts aren't kept while the journal is printed.
fn print_ended<R: Threads + Sync>(
    rt: &R,
    alloc: Global,
    plan: &Plan,
    scripts: Vec<Script>,
    ended: &Ended,
) -> Result<(Vec<u8>, OutputRest), NoMemory>
    requires scripts { AreScriptsOf plan.now scripts.items }
    requires worked { AreWorked plan.now scripts.items ended.now.registers }
    ensures { IfOk result
        (λ r. IsOutputOf (record { plan = plan.now; scripts = scripts.items }) (r.0.items ++ r.1)) }
{
    let merged = merged_and_printed(rt, alloc, plan, &scripts, ended);
    drop(scripts);
    let (merged, registers) = merged?;
    let printed = print_whole(rt, alloc, plan, &merged, registers);
    drop(merged);
    printed
}

// The same, the lines of the journal's front half in room for the whole output, which is made on a thread meanwhile.
fn print_in_room<R: Threads + Sync>(
    rt: &R,
    alloc: Global,
    plan: &Plan,
    scripts: Vec<Script>,
    ended: &Ended,
) -> Result<(Vec<u8>, OutputRest), NoMemory>
    requires scripts { AreScriptsOf plan.now scripts.items }
    requires worked { AreWorked plan.now scripts.items ended.now.registers }
    ensures { IfOk result
        (λ r. IsOutputOf (record { plan = plan.now; scripts = scripts.items }) (r.0.items ++ r.1)) }
{
    let room = || -> Result<Vec<u8>, NoMemory> { make_room(alloc, ended.registers.as_slice()) };
    let printed = || -> Result<(Vec<u8>, OutputRest), NoMemory>
        requires { AreScriptsOf plan.now scripts.items × AreWorked plan.now scripts.items ended.now.registers }
        ensures { IfOk result (λ r. IsOutputOf (record { plan = plan.entry.now; scripts = scripts.items })
            (r.0.items ++ r.1)) }
    { print_ended(rt, alloc, plan, scripts, ended) };
    let (room, printed) = join(rt, room, printed);
    let (room, printed) = both_made(room, printed)?;
    in_room(room, printed)
}

// What is printed of a plan and its scripts, in the same two.
fn print_run<R: Threads + Wait + Sync, G: Gate>(
    rt: &R,
    alloc: Global,
    plan: &Plan,
    scripts: Vec<Script>,
    gate: &G,
) -> Result<(Vec<u8>, OutputRest), NoMemory>
    requires { AreScriptsOf plan.now scripts.items }
    ensures { IfOk result
        (λ r. IsOutputOf (record { plan = plan.now; scripts = scripts.items }) (r.0.items ++ r.1)) }
{
    match work_scripts(rt, alloc, plan, &scripts, gate) {
        Ok(ended) => {
            let printed = print_in_room(rt, alloc, plan, scripts, &ended);
            drop(ended);
            printed
        }
        Err(NoMemory) => {
            drop(scripts);
            Err(NoMemory)
        }
    }
}

// The whole output of a plan and its scripts, which is made one text when nothing else of the line is kept.
fn run_output<R: Threads + Wait + Sync, G: Gate>(
    rt: &R,
    alloc: Global,
    inputs: Inputs,
    gate: &G,
) -> Result<Vec<u8>, NoMemory>
    requires { AreScriptsOf inputs.plan inputs.scripts.items }
    ensures { IfOk result
        (λ text. IsOutputOf (record { plan = inputs.plan; scripts = inputs.scripts.items }) text.items) }
{
    let Inputs { plan, scripts } = inputs;
    let printed = print_run(rt, alloc, &plan, scripts, gate);
    drop(plan);
    let (front, rest) = printed?;
    Ok(whole_text(front, rest, &[])?)
}

/// The output of the run of the named texts, each script worked by its own signalman on a thread of his own; or why
/// there is none.
pub fn run_outcome<R: Threads + Wait + Sync, S: Shelf, G: Gate>(
    rt: &R,
    alloc: Global,
    shelf: &mut S,
    plan_name: &str,
    script_names: &[&str],
    gate: &G,
) -> Result<Vec<u8>, Stop>
    ensures told { MakesText IsOutputOf (λ text. text.items) result
        (run_told (S.held shelf.old) plan_name.now (named script_names.now)) }
    ensures fault { IsErrOf result Stop.ShelfFault
        → HasShelfFault (S.faults shelf.old) (S.faults shelf.new) (plan_name.now ∷ named script_names.now)
        (run_told_before (S.held shelf.old) plan_name.now (named script_names.now)) }
    ensures same { (n : List ℕ) → S.held shelf.new n ≡ S.held shelf.old n }
{
    let inputs = fetch_inputs(rt, alloc, shelf, plan_name, script_names)?;
    match run_output(rt, alloc, inputs, gate) {
        Ok(text) => Ok(text),
        Err(NoMemory) => Err(Stop::NoMemory),
    }
}
