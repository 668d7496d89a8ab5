//! The plan of a line, and the scripts of all its boxes but one, which a man works by hand.

ghost use Rattle.std.specs.Prelude.{◌≡◌, ◌+◌, ◌<◌, ℕ, List, [], IfErr, IfOk, IfSome, OnOk, Some, bytes_eq, length};
ghost use Rattle.std.specs.List.{position};
ghost use Rattle.line_plan.specs.Plans.{names_of};
ghost use Rattle.script_text.specs.Scripts.{IsScriptOf};
ghost use Rattle.text_fetch.specs.FromTexts.{Held, IsGiven, named, plan_told};
ghost use Rattle.text_fetch.specs.Runs.{AreScriptsOf};
ghost use Rattle.explained_texts.specs.Others.{AreOthers, IsExplainedByName, IsOther};

use crate::fetching::fetch_text;
use crate::gathering::fetch_script;
use crate::reading::read_plan_text;
use crate::shelf::ReasonedShelf;
use crate::trouble::{Trouble, trouble_with};
use line_plan::{Items, PLAN_LIMIT, Plan};
use script_text::Script;
use std::alloc::Global;

/// A plan, one of its boxes, and a script for each box, in box order: that of the one box is empty.
#[derive(Drop)]
pub struct OthersTexts {
    /// The line, as the first text spells it.
    pub plan: Plan,
    /// The box that is worked by hand.
    pub box_no: u32,
    /// What each other signalman does, as the texts behind it spell it.
    pub scripts: Vec<Script>,
}

/// The plan under a name, as text 1.
pub fn fetch_plan<S: ReasonedShelf>(
    alloc: Global,
    shelf: &mut S,
    name: &str,
) -> Result<Plan, Trouble>
    ensures told { IfOk result (λ plan. IsGiven plan (plan_told (S.held shelf.old) name.now)) }
    ensures explained { IfErr result (IsExplainedByName (S.held shelf.old)) }
    ensures same { (n : List ℕ) → S.held shelf.new n ≡ S.held shelf.old n }
{
    let bytes = fetch_text(alloc, shelf, name, PLAN_LIMIT)?;
    let plan = read_plan_text(alloc, name, &bytes);
    drop(bytes);
    plan
}

// The box of this name.
fn box_named(plan: &Plan, name: &str) -> Option<u32>
    ensures at { IfSome result (λ box_no. box_no < length plan.now.boxes) }
    ensures named { result ≡ position (bytes_eq name.now) (names_of plan.now.boxes) }
{
    plan.meets_conditions();
    plan.box_names.number_of_word(name.as_bytes())
}

// The plan has no box of this name.
fn no_such_box(alloc: Global, name: &str) -> Trouble
    ensures { (held : Held) → IsExplainedByName held result }
{
    trouble_with(alloc, name, "the plan has no box of this name")
}

/// The number of a plan's box of this name.
pub fn named_box(alloc: Global, plan: &Plan, name: &str) -> Result<u32, Trouble>
    ensures at { IfOk result (λ box_no. box_no < length plan.now.boxes) }
    ensures named { IfOk result (λ box_no. position (bytes_eq name.now) (names_of plan.now.boxes) ≡ Some box_no) }
    ensures explained { (held : Held) → IfErr result (IsExplainedByName held) }
{
    match box_named(plan, name) {
        Some(box_no) => Ok(box_no),
        None => Err(no_such_box(alloc, name)),
    }
}

/// The plan of this name, and the number of its box of that name.
pub fn fetch_box<S: ReasonedShelf>(
    alloc: Global,
    shelf: &mut S,
    plan_name: &str,
    box_name: &str,
) -> Result<(Plan, u32), Trouble>
    ensures plan { IfOk result (λ found. IsGiven found.0 (plan_told (S.held shelf.old) plan_name.now)) }
    ensures at { IfOk result (λ found. found.1 < length found.0.boxes) }
    ensures named { IfOk result
        (λ found. position (bytes_eq box_name.now) (names_of found.0.boxes) ≡ Some found.1) }
    ensures explained { IfErr result (IsExplainedByName (S.held shelf.old)) }
    ensures same { (n : List ℕ) → S.held shelf.new n ≡ S.held shelf.old n }
{
    let plan = fetch_plan(alloc, shelf, plan_name)?;
    match named_box(alloc, &plan, box_name) {
        Ok(box_no) => Ok((plan, box_no)),
        Err(trouble) => {
            drop(plan);
            Err(trouble)
        }
    }
}

// The script of a box: that of box `own` is empty, and any other is fetched.
fn script_of_box<S: ReasonedShelf>(
    alloc: Global,
    shelf: &mut S,
    plan: &Plan,
    own: u32,
    names: &[&str],
    box_no: u32,
) -> Result<Script, Trouble>
    requires own { own < length plan.now.boxes }
    requires box_no { box_no < length plan.now.boxes }
    requires each { length names.now + 1 ≡ length plan.now.boxes }
    ensures own { IfOk result (λ script. IsScriptOf plan.now box_no script) }
    ensures other { IfOk result (λ script. IsOther (S.held shelf.old) plan.now own (named names.now) box_no script) }
    ensures explained { IfErr result (IsExplainedByName (S.held shelf.old)) }
    ensures same { (n : List ℕ) → S.held shelf.new n ≡ S.held shelf.old n }
{
    if box_no == own {
        return Ok(Script {
            box_no,
            calls: Items::new(alloc),
        });
    }
    let place = if box_no < own { box_no } else { box_no - 1 };
    let had = fetch_script(alloc, shelf, plan, box_no, names[place as usize])?;
    drop(had.bytes);
    Ok(had.script)
}

// The scripts of all boxes, in order.
fn scripts_of_boxes<S: ReasonedShelf>(
    alloc: Global,
    shelf: &mut S,
    plan: &Plan,
    own: u32,
    names: &[&str],
    scripts: &mut Vec<Script>,
) -> Result<(), Trouble>
    requires own { own < length plan.now.boxes }
    requires each { length names.now + 1 ≡ length plan.now.boxes }
    requires none { scripts.old.items ≡ [] }
    ensures own { OnOk result (AreScriptsOf plan.now scripts.new.items) }
    ensures others { OnOk result (AreOthers (S.held shelf.old) plan.now own (named names.now) scripts.new.items) }
    ensures explained { IfErr result (IsExplainedByName (S.held shelf.old)) }
    ensures same { (n : List ℕ) → S.held shelf.new n ≡ S.held shelf.old n }
{
    plan.meets_conditions();
    for box_no in 0..plan.boxes.len() {
        let script = script_of_box(alloc, shelf, plan, own, names, box_no as u32)?;
        scripts.push(script)?;
    }
    Ok(())
}

// The box that is worked by hand, where the plan has it, and there is a script for each other.
fn own_box(alloc: Global, plan: &Plan, name: &str, count: usize) -> Result<u32, Trouble>
    ensures at { IfOk result (λ own. own < length plan.now.boxes) }
    ensures named { IfOk result (λ own. position (bytes_eq name.now) (names_of plan.now.boxes) ≡ Some own) }
    ensures each { IfOk result (λ own. count + 1 ≡ length plan.now.boxes) }
    ensures explained { (held : Held) → IfErr result (IsExplainedByName held) }
{
    let Some(own) = box_named(plan, name) else {
        return Err(no_such_box(alloc, name));
    };
    if plan.boxes.len() - 1 != count {
        return Err(trouble_with(
            alloc,
            name,
            "every other box of the plan has one script, in box order",
        ));
    }
    Ok(own)
}

// The plan with the scripts behind it.
fn scripts_behind<S: ReasonedShelf>(
    alloc: Global,
    shelf: &mut S,
    plan: Plan,
    box_no: u32,
    names: &[&str],
) -> Result<OthersTexts, Trouble>
    requires own { box_no < length plan.boxes }
    requires each { length names.now + 1 ≡ length plan.boxes }
    ensures plan { IfOk result (λ texts. texts.plan ≡ plan) }
    ensures box_no { IfOk result (λ texts. texts.box_no ≡ box_no) }
    ensures own { IfOk result (λ texts. AreScriptsOf texts.plan texts.scripts.items) }
    ensures others { IfOk result (λ texts. AreOthers (S.held shelf.old) texts.plan texts.box_no (named names.now)
        texts.scripts.items) }
    ensures explained { IfErr result (IsExplainedByName (S.held shelf.old)) }
    ensures same { (n : List ℕ) → S.held shelf.new n ≡ S.held shelf.old n }
{
    let mut scripts = Vec::new(alloc);
    match scripts_of_boxes(alloc, shelf, &plan, box_no, names, &mut scripts) {
        Ok(()) => Ok(OthersTexts {
            plan,
            box_no,
            scripts,
        }),
        Err(trouble) => {
            drop(plan);
            drop(scripts);
            Err(trouble)
        }
    }
}

/// The plan of this name, and the scripts of all its boxes but the one of that name, which is worked by hand: the names
/// of the scripts stand in the order of their boxes.
pub fn fetch_others<S: ReasonedShelf>(
    alloc: Global,
    shelf: &mut S,
    plan_name: &str,
    own_name: &str,
    script_names: &[&str],
) -> Result<OthersTexts, Trouble>
    ensures plan { IfOk result (λ texts. IsGiven texts.plan (plan_told (S.held shelf.old) plan_name.now)) }
    ensures at { IfOk result (λ texts. texts.box_no < length texts.plan.boxes) }
    ensures named { IfOk result
        (λ texts. position (bytes_eq own_name.now) (names_of texts.plan.boxes) ≡ Some texts.box_no) }
    ensures own { IfOk result (λ texts. AreScriptsOf texts.plan texts.scripts.items) }
    ensures others { IfOk result (λ texts. AreOthers (S.held shelf.old) texts.plan texts.box_no
        (named script_names.now) texts.scripts.items) }
    ensures explained { IfErr result (IsExplainedByName (S.held shelf.old)) }
    ensures same { (n : List ℕ) → S.held shelf.new n ≡ S.held shelf.old n }
{
    let plan = fetch_plan(alloc, shelf, plan_name)?;
    match own_box(alloc, &plan, own_name, script_names.len()) {
        Ok(box_no) => scripts_behind(alloc, shelf, plan, box_no, script_names),
        Err(trouble) => {
            drop(plan);
            Err(trouble)
        }
    }
}
