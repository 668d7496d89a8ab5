//! The plan and the scripts of a run, fetched and read in their order.

ghost use Rattle.std.specs.Prelude.{◌≡◌, ℕ, ◌+◌, ◌≤◌, ◌<◌, List, [], ◌∷◌, IfErr, IfOk, IfSome, OnErr, OnOk, Option};
ghost use Rattle.std.specs.Prelude.{All, length, take};
ghost use Rattle.rail_text.specs.Causes.{Rose};
ghost use Rattle.line_plan.specs.Limits.{most_bytes};
ghost use Rattle.plan_draft.specs.Reading.{plan_of};
ghost use Rattle.script_text.specs.Scripts.{IsScriptOf, most_script_bytes, script_of};
ghost use Rattle.text_fetch.specs.Fetches.{AreFetched, IsFetched};
ghost use Rattle.text_fetch.specs.FromTexts.{Gives, HasShelfFault, named, text_told, told_then};
ghost use Rattle.text_fetch.specs.Runs.{AreScriptsOf, HasScriptFault, count_told, run_told, run_told_before};
ghost use Rattle.text_fetch.specs.Runs.{scripts_told};
ghost use Rattle.explained_texts.specs.Gathered.{AreTextsOf};
ghost use Rattle.explained_texts.specs.Troubles.{IfUntaken, IsExplained, IsExplainedAt, IsExplainedOfRun, MakesOr};

use crate::fetching::fetch_text;
use crate::reading::{read_plan_text, read_script_text, refused};
use crate::shelf::ReasonedShelf;
use crate::trouble::Trouble;
use fault_sentences::TextKind;
use line_plan::{PLAN_LIMIT, Plan};
use rail_text::Cause;
use script_text::{SCRIPT_LIMIT, Script};
use std::alloc::Global;

/// A plan, and a script for each of its boxes, in box order, with their texts.
#[derive(Drop)]
pub struct RunTexts {
    /// The line, as the first text spells it.
    pub plan: Plan,
    /// What each signalman does, as the texts behind it spell it.
    pub scripts: Vec<Script>,
    /// The texts of the scripts, by their bytes.
    pub texts: Vec<Vec<u8>>,
}

/// A script, with its text.
#[derive(Drop)]
pub(crate) struct ScriptWithText {
    pub(crate) script: Script,
    pub(crate) bytes: Vec<u8>,
}

// The plan that the bytes of text 1 spell, where it has so many boxes.
fn plan_of_boxes(alloc: Global, name: &str, bytes: &[u8], count: usize) -> Result<Plan, Trouble>
    ensures told { (held : Option (List ℕ)) → IfSome held (λ all. bytes.now ≡ take (most_bytes + 1) all)
        → MakesOr (λ plan. plan) result (told_then (text_told 1 plan_of held)
        (λ plan. told_then (count_told plan count) (λ counted. Gives plan))) }
    ensures count { IfOk result (λ plan. length plan.boxes ≡ count) }
    ensures explained { IfErr result (IsExplained 1 name.now bytes.now) }
{
    let plan = read_plan_text(alloc, name, bytes)?;
    if plan.boxes.len() == count {
        return Ok(plan);
    }
    drop(plan);
    Err(refused(alloc, name, bytes, TextKind::Plan, 1, 0, Cause::ScriptCount))
}

// The plan under a name, as text 1, where it has so many boxes.
fn fetch_plan<S: ReasonedShelf>(
    alloc: Global,
    shelf: &mut S,
    name: &str,
    count: usize,
) -> Result<Plan, Trouble>
    ensures told { MakesOr (λ plan. plan) result (told_then (text_told 1 plan_of (S.held shelf.old name.now))
        (λ plan. told_then (count_told plan count) (λ counted. Gives plan))) }
    ensures count { IfOk result (λ plan. length plan.boxes ≡ count) }
    ensures explained { IfErr result (IsExplainedAt (S.held shelf.old) 1 name.now) }
    ensures fault { IfErr result (λ trouble. IfUntaken trouble
        (Rose (S.faults shelf.old name.now) (S.faults shelf.new name.now))) }
    ensures same { (n : List ℕ) → S.held shelf.new n ≡ S.held shelf.old n }
    ensures later { (n : List ℕ) → S.faults shelf.old n ≤ S.faults shelf.new n }
{
    let bytes = fetch_text(alloc, shelf, name, PLAN_LIMIT)?;
    let plan = plan_of_boxes(alloc, name, &bytes, count);
    drop(bytes);
    plan
}

/// The script of a box under a name, as text `box_no + 2`.
pub(crate) fn fetch_script<S: ReasonedShelf>(
    alloc: Global,
    shelf: &mut S,
    plan: &Plan,
    box_no: u32,
    name: &str,
) -> Result<ScriptWithText, Trouble>
    requires { box_no < length plan.now.boxes }
    ensures told { MakesOr (λ had. had.script) result
        (text_told (box_no + 2) (script_of plan.now box_no) (S.held shelf.old name.now)) }
    ensures own { IfOk result (λ had. IsScriptOf plan.now box_no had.script) }
    ensures fetched { IfOk result (λ had. IsFetched (S.held shelf.old name.now) had.bytes.items) }
    ensures few { IfOk result (λ had. length had.bytes.items ≤ most_script_bytes + 1) }
    ensures explained { IfErr result (IsExplainedAt (S.held shelf.old) (box_no + 2) name.now) }
    ensures fault { IfErr result (λ trouble. IfUntaken trouble
        (Rose (S.faults shelf.old name.now) (S.faults shelf.new name.now))) }
    ensures same { (n : List ℕ) → S.held shelf.new n ≡ S.held shelf.old n }
    ensures later { (n : List ℕ) → S.faults shelf.old n ≤ S.faults shelf.new n }
{
    let bytes = fetch_text(alloc, shelf, name, SCRIPT_LIMIT)?;
    match read_script_text(alloc, plan, box_no, name, &bytes) {
        Ok(script) => Ok(ScriptWithText { script, bytes }),
        Err(trouble) => {
            drop(bytes);
            Err(trouble)
        }
    }
}

// The scripts of these names, one for each box: each is fetched and read before the next.
fn fetch_scripts<S: ReasonedShelf>(
    alloc: Global,
    shelf: &mut S,
    plan: &Plan,
    names: &[&str],
    scripts: &mut Vec<Script>,
    texts: &mut Vec<Vec<u8>>,
) -> Result<(), Trouble>
    requires each { length names.now ≡ length plan.now.boxes }
    requires none { scripts.old.items ≡ [] }
    requires no_text { texts.old.items ≡ [] }
    ensures told { MakesOr (λ done. scripts.new.items) result
        (scripts_told (S.held shelf.old) plan.now [] (named names.now)) }
    ensures own { OnOk result (AreScriptsOf plan.now scripts.new.items) }
    ensures texts { OnOk result (AreTextsOf (S.held shelf.old) (named names.now) texts.new.items) }
    ensures explained { (plan_name : List ℕ)
        → IfErr result (IsExplainedOfRun (S.held shelf.old) plan_name (named names.now)) }
    ensures fault { IfErr result (λ trouble. IfUntaken trouble
        (HasScriptFault (S.held shelf.old) (S.faults shelf.old) (S.faults shelf.new) plan.now (named names.now))) }
    ensures same { (n : List ℕ) → S.held shelf.new n ≡ S.held shelf.old n }
{
    plan.meets_conditions();
    for (box_no, name) in names.iter().enumerate() {
        let had = fetch_script(alloc, shelf, plan, box_no as u32, name)?;
        scripts.push(had.script)?;
        texts.push(had.bytes)?;
    }
    Ok(())
}

/// The plan and the scripts of these names, in the order in which `box_main` reads them. The first of these that is
/// wrong decides: the plan's text, the number of scripts, then each script's text.
pub fn fetch_run<S: ReasonedShelf>(
    alloc: Global,
    shelf: &mut S,
    plan_name: &str,
    script_names: &[&str],
) -> Result<RunTexts, Trouble>
    ensures told { MakesOr (λ run. record { plan = run.plan; scripts = run.scripts.items }) result
        (run_told (S.held shelf.old) plan_name.now (named script_names.now)) }
    ensures own { IfOk result (λ run. AreScriptsOf run.plan run.scripts.items) }
    ensures count { IfOk result (λ run. length run.scripts.items ≡ length script_names.now) }
    ensures texts { IfOk result (λ run. AreTextsOf (S.held shelf.old) (named script_names.now) run.texts.items) }
    ensures explained { IfErr result (IsExplainedOfRun (S.held shelf.old) plan_name.now (named script_names.now)) }
    ensures fault { IfErr result (λ trouble. IfUntaken trouble
        (HasShelfFault (S.faults shelf.old) (S.faults shelf.new) (plan_name.now ∷ named script_names.now)
        (run_told_before (S.held shelf.old) plan_name.now (named script_names.now)))) }
    ensures same { (n : List ℕ) → S.held shelf.new n ≡ S.held shelf.old n }
{
    let plan = fetch_plan(alloc, shelf, plan_name, script_names.len())?;
    let mut scripts = Vec::new(alloc);
    let mut texts = Vec::new(alloc);
    match fetch_scripts(alloc, shelf, &plan, script_names, &mut scripts, &mut texts) {
        Ok(()) => Ok(RunTexts {
            plan,
            scripts,
            texts,
        }),
        Err(trouble) => {
            drop(plan);
            drop(scripts);
            drop(texts);
            Err(trouble)
        }
    }
}
