//! The plan and the scripts of a run, fetched in their order.

ghost use Rattle.std.specs.Prelude.{◌≡◌, ℕ, ◌+◌, ◌≤◌, ◌<◌, List, [], ◌∷◌, IfErr, IfOk, IsErrOf, OnOk, length};
ghost use Rattle.std.specs.Prelude.{slice_index_or, vec_len};
ghost use Rattle.std.specs.Global.{Vec};
ghost use Rattle.text_fetch.specs.Fetches.{AreEachRead, AreFetched, HasFaultBehind, IsNoRefusal, IsScriptRead};
ghost use Rattle.text_fetch.specs.Runs.{AreOwn, AreScriptsOf, HasScriptFault, run_told, run_told_before};
ghost use Rattle.text_fetch.specs.Runs.{scripts_told};
ghost use Rattle.text_fetch.specs.FromTexts.{HasShelfFault, Held, Makes, named};

use crate::fetch::{fetch_bytes, fetch_plan, read_fetched};
use crate::stop::Stop;
use line_plan::Plan;
use rail_text::{Cause, Shelf};
use script_text::{SCRIPT_LIMIT, Script};
use std::alloc::{AllocError, Global};
use std::thread::{Threads, map_indices};

/// A plan, and a script for each of its boxes, in box order.
#[derive(Drop)]
pub struct Inputs {
    /// The line, as the first text spells it.
    pub plan: Plan,
    /// What each signalman does, as the texts behind it spell it.
    pub scripts: Vec<Script>,
}

// Fetches the texts of these names in turn, up to the first that can't be had.
fn fetch_texts<S: Shelf>(
    alloc: Global,
    shelf: &mut S,
    names: &[&str],
    texts: &mut Vec<Vec<u8>>,
) -> Result<(), Stop>
    requires none { texts.old.items ≡ [] }
    ensures texts { AreFetched (S.held shelf.old) (named names.now) texts.new.items }
    ensures all { OnOk result (length texts.new.items ≡ length names.now) }
    ensures stop { IfErr result IsNoRefusal }
    ensures fault { IsErrOf result Stop.ShelfFault
        → HasFaultBehind (S.faults shelf.old) (S.faults shelf.new) (named names.now) (length texts.new.items) }
    ensures same { (n : List ℕ) → S.held shelf.new n ≡ S.held shelf.old n }
{
    for name in names {
        let bytes = fetch_bytes(alloc, shelf, name, SCRIPT_LIMIT)?;
        texts.push(bytes)?;
    }
    Ok(())
}

// The script of a box that its text spells.
fn read_text_of(
    alloc: Global,
    plan: &Plan,
    texts: &[Vec<u8>],
    box_no: usize,
) -> Result<Script, Stop>
    requires there { box_no < length texts.now }
    requires few { length texts.now ≤ length plan.now.boxes }
    ensures { (d : Vec ℕ) → IsScriptRead plan.now box_no (slice_index_or texts.now box_no d).items result }
{
    plan.meets_conditions();
    read_fetched(alloc, plan, box_no as u32, &texts[box_no])
}

// What each text spells, each read on a thread of its own.
fn read_each<R: Threads + Sync>(
    rt: &R,
    alloc: Global,
    plan: &Plan,
    texts: &[Vec<u8>],
) -> Result<Vec<Result<Script, Stop>>, AllocError>
    requires few { length texts.now ≤ length plan.now.boxes }
    ensures count { IfOk result (λ read. vec_len read ≡ length texts.now) }
    ensures each { IfOk result (λ read. AreEachRead plan.now texts.now read.items) }
{
    map_indices(
        rt,
        alloc,
        texts.len(),
        &|box_no: usize| -> Result<Script, Stop>
            requires { (box_no < length texts.now) × (length texts.now ≤ length plan.now.boxes) }
            ensures { (d : Vec ℕ)
                → IsScriptRead plan.entry.now box_no (slice_index_or texts.entry.now box_no d).items result }
        { read_text_of(alloc, plan, texts, box_no) },
    )
}

// The scripts that these texts spell; the first that spells none decides.
fn read_scripts<R: Threads + Sync>(
    rt: &R,
    alloc: Global,
    plan: &Plan,
    texts: &[Vec<u8>],
) -> Result<Vec<Script>, Stop>
    requires few { length texts.now ≤ length plan.now.boxes }
    ensures told { (held : Held) (names : List (List ℕ)) → length names ≡ length texts.now
        → AreFetched held names texts.now
        → Makes (λ scripts. scripts.items) result (scripts_told held plan.now [] names) }
    ensures count { IfOk result (λ scripts. length scripts.items ≡ length texts.now) }
    ensures own { IfOk result (λ scripts. AreOwn plan.now scripts.items) }
    ensures fault { IsErrOf result Stop.ShelfFault → ⊥ }
{
    let mut scripts = Vec::new(alloc);
    for script in read_each(rt, alloc, plan, texts)? {
        scripts.push(script?)?;
    }
    Ok(scripts)
}

// The scripts of these names, one for each box: their texts are fetched in turn, and read at once. The first that is
// wrong decides.
fn fetch_scripts<R: Threads + Sync, S: Shelf>(
    rt: &R,
    alloc: Global,
    shelf: &mut S,
    plan: &Plan,
    names: &[&str],
) -> Result<Vec<Script>, Stop>
    requires { length names.now ≡ length plan.now.boxes }
    ensures told { Makes (λ scripts. scripts.items) result
        (scripts_told (S.held shelf.old) plan.now [] (named names.now)) }
    ensures own { IfOk result (λ scripts. AreScriptsOf plan.now scripts.items) }
    ensures fault { IsErrOf result Stop.ShelfFault
        → HasScriptFault (S.held shelf.old) (S.faults shelf.old) (S.faults shelf.new) plan.now (named names.now) }
    ensures same { (n : List ℕ) → S.held shelf.new n ≡ S.held shelf.old n }
{
    let mut texts = Vec::new(alloc);
    let fetched = fetch_texts(alloc, shelf, names, &mut texts);
    let scripts = read_scripts(rt, alloc, plan, &texts);
    drop(texts);
    let scripts = scripts?;
    match fetched {
        Ok(()) => Ok(scripts),
        Err(stop) => {
            drop(scripts);
            Err(stop)
        }
    }
}

/// The plan and the scripts of these names. The first of these that is wrong decides: the plan's text, the number of
/// scripts, then each script's text. The scripts' texts are fetched in turn, and then read at once, each on a thread of
/// its own; where a thread can't be started, the caller reads.
pub fn fetch_inputs<R: Threads + Sync, S: Shelf>(
    rt: &R,
    alloc: Global,
    shelf: &mut S,
    plan_name: &str,
    script_names: &[&str],
) -> Result<Inputs, Stop>
    ensures told { Makes (λ inputs. record { plan = inputs.plan; scripts = inputs.scripts.items }) result
        (run_told (S.held shelf.old) plan_name.now (named script_names.now)) }
    ensures own { IfOk result (λ inputs. AreScriptsOf inputs.plan inputs.scripts.items) }
    ensures fault { IsErrOf result Stop.ShelfFault
        → HasShelfFault (S.faults shelf.old) (S.faults shelf.new) (plan_name.now ∷ named script_names.now)
        (run_told_before (S.held shelf.old) plan_name.now (named script_names.now)) }
    ensures same { (n : List ℕ) → S.held shelf.new n ≡ S.held shelf.old n }
{
    let plan = fetch_plan(alloc, shelf, plan_name)?;
    if script_names.len() != plan.boxes.len() {
        drop(plan);
        return Err(Stop::Refused {
            text: 1,
            line: 0,
            cause: Cause::ScriptCount,
        });
    }
    match fetch_scripts(rt, alloc, shelf, &plan, script_names) {
        Ok(scripts) => Ok(Inputs { plan, scripts }),
        Err(stop) => {
            drop(plan);
            Err(stop)
        }
    }
}
