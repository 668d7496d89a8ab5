//! The words of an object.

ghost use Rattle.std.specs.Prelude.{◌≡◌, [], IfOk, option_map, slice_index_or, string_bytes};
ghost use Rattle.line_plan.specs.Plans.{box_name};
ghost use Rattle.script_text.specs.Names.{place_text, train_text};
ghost use Rattle.look_records.specs.Names.{arm_word, code_words, end_word};

use bell_codes::CodeNo;
use line_law::is_code_no;
use line_plan::Plan;
use rail_text::Names;
use script_text::put_code;
use std::alloc::{AllocError, Global};

/// At which end a lever stands.
pub fn end_word(is_reversed: bool) -> &'static str
    ensures { result.now ≡ end_word is_reversed }
{
    if is_reversed { "reversed" } else { "normal" }
}

// How an arm stands.
fn arm_word(is_off: bool) -> &'static str
    ensures { result.now ≡ arm_word is_off }
{
    if is_off { "off" } else { "on" }
}

/// How an arm stands, where there is one.
pub fn arm_words(arm: Option<bool>) -> Option<&'static str>
    ensures { option_map (λ word. word.now) result ≡ option_map arm_word arm }
{
    match arm {
        Some(is_off) => Some(arm_word(is_off)),
        None => None,
    }
}

/// The name of a box; nothing of one that the line doesn't have.
#[tactic(auto, using(line_plan::proofs::Named::name_at))]
pub fn box_name(plan: &Plan, box_no: usize) -> &str
    ensures { result.now ≡ box_name plan.now box_no }
{
    match plan.boxes.as_slice().get(box_no) {
        Some(box_plan) => box_plan.name.as_str(),
        None => "",
    }
}

// The name of a place of these names; nothing of another.
#[tactic(auto, using(crate::proofs::Named::name_rules))]
fn name_in(names: &Names, place: u32) -> &str
    ensures { result.now ≡ slice_index_or names.now place [] }
{
    if (place as usize) < names.len() {
        names.name_of(place)
    } else {
        ""
    }
}

/// The name of a place of a box; nothing of another.
#[tactic(auto, using(crate::proofs::Named::name_rules, crate::proofs::Named::no_place))]
pub fn place_name(plan: &Plan, box_no: u32, place: u32) -> &str
    ensures { result.now ≡ place_text plan.now box_no place }
{
    match plan.boxes.as_slice().get(box_no as usize) {
        Some(box_plan) => name_in(&box_plan.places, place),
        None => "",
    }
}

/// The name of a train; nothing of one that the plan doesn't have.
#[tactic(auto, using(crate::proofs::Named::train_rules))]
pub fn train_name(plan: &Plan, train: u32) -> &str
    ensures { result.now ≡ train_text plan.now train }
{
    match plan.trains.as_slice().get(train.saturating_sub(1) as usize) {
        Some(train) => train.name.as_str(),
        None => "",
    }
}

/// The names of a train, where there is one.
pub fn train_if(plan: &Plan, train: Option<u32>) -> Option<&str>
    ensures { option_map (λ name. name.now) result ≡ option_map (λ t. train_text plan.now t) train }
{
    match train {
        Some(train) => Some(train_name(plan, train)),
        None => None,
    }
}

/// A code of the plan's code table; nothing of another.
pub fn code_words(alloc: Global, plan: &Plan, code: CodeNo) -> Result<String, AllocError>
    ensures { IfOk result (λ text. string_bytes text ≡ code_words plan.now code) }
{
    let mut text = String::new(alloc);
    if is_code_no(plan, code) {
        put_code(&mut text, plan, code)?;
    }
    Ok(text)
}

/// The same, where there is one.
pub fn code_if(
    alloc: Global,
    plan: &Plan,
    code: Option<CodeNo>,
) -> Result<Option<String>, AllocError>
    ensures { IfOk result (λ text. option_map string_bytes text ≡ option_map (λ c. code_words plan.now c) code) }
{
    match code {
        Some(code) => Ok(Some(code_words(alloc, plan, code)?)),
        None => Ok(None),
    }
}
