//! What stands otherwise than before.

ghost use Rattle.std.specs.Prelude.{◌≡◌, ◌<◌, ◌++◌, [], IfOk, OnOk, length, map, option_to_list, slice_get};
ghost use Rattle.std.specs.Prelude.{string_bytes};
ghost use Rattle.serde_json.specs.View.{view};
ghost use Rattle.json_objects.specs.Texts.{IsTextOf};
ghost use Rattle.line_law.specs.Lines.{IsLineOf};
ghost use Rattle.look_records.specs.Changes.{AreChanges, IsChange, IsChangesText, PutsChanges, changes_data, look_if};
ghost use Rattle.look_records.specs.Changes.{looks_data, looks_from};
ghost use Rattle.look_records.specs.Objects.{look_data};
ghost use Rattle.look_records.specs.Things.{things_at};

use crate::objects::look_value;
use crate::same::is_same;
use crate::thing::BoxThing;
use crate::things::things_at;
use json_objects::{Object, text_of};
use line_law::Plain;
use line_plan::Plan;
use rail_text::NoMemory;
use serde_json::Value;
use std::alloc::{AllocError, Global};

// ---- the things of a box

// The thing of that number that stood there before, if there was one.
fn thing_before(before: &[BoxThing], at: usize) -> Option<BoxThing>
    ensures { result ≡ slice_get before.now at }
{
    before.get(at).copied()
}

// A thing that doesn't stand as before.
fn change_of(old: Option<BoxThing>, thing: BoxThing) -> Option<BoxThing>
    ensures { IsChange old thing (option_to_list result) }
{
    match old {
        Some(old) => {
            if is_same(old, thing) {
                None
            } else {
                Some(thing)
            }
        }
        None => Some(thing),
    }
}

// Adds a change, if there is one.
fn add_change(changes: &mut Vec<BoxThing>, change: Option<BoxThing>) -> Result<(), NoMemory>
    ensures { OnOk result (changes.new.items ≡ changes.old.items ++ option_to_list change) }
{
    if let Some(change) = change {
        changes.push(change)?;
    }
    Ok(())
}

// What stands otherwise than before, thing by thing.
fn changes_of(
    alloc: Global,
    before: &[BoxThing],
    after: &[BoxThing],
) -> Result<Vec<BoxThing>, NoMemory>
    ensures { IfOk result (λ changes. AreChanges before.now 0 after.now changes.items) }
{
    let mut changes = Vec::new(alloc);
    for (at, thing) in after.iter().enumerate() {
        let old = thing_before(before, at);
        let change = change_of(old, *thing);
        add_change(&mut changes, change)?;
    }
    Ok(changes)
}

// What stands otherwise at a box now than earlier.
fn changes_at(
    alloc: Global,
    plan: &Plan,
    earlier: &Plain,
    now: &Plain,
    box_no: u32,
) -> Result<Vec<BoxThing>, NoMemory>
    requires earlier { IsLineOf plan.now earlier.now }
    requires now { IsLineOf plan.now now.now }
    requires at { box_no < length plan.now.boxes }
    ensures { IfOk result (λ changes. AreChanges (things_at plan.now earlier.now.line box_no) 0
        (things_at plan.now now.now.line box_no) changes.items) }
{
    let before = things_at(alloc, plan, earlier, box_no)?;
    let after = things_at(alloc, plan, now, box_no)?;
    changes_of(alloc, &before, &after)
}

// ---- the boxes of a line

// Adds the object of the things of a box that are listed, if any are.
fn add_look(
    items: &mut Vec<Value>,
    alloc: Global,
    plan: &Plan,
    box_no: u32,
    things: &[BoxThing],
) -> Result<(), NoMemory>
    ensures { OnOk result
        (map view items.new.items ≡ map view items.old.items ++ look_if plan.now box_no things.now) }
{
    if things.is_empty() {
        return Ok(());
    }
    let value = look_value(alloc, plan, box_no, things)?;
    items.push(value)?;
    Ok(())
}

// The objects of the boxes at which something stands otherwise now than earlier.
fn change_items(
    alloc: Global,
    plan: &Plan,
    earlier: &Plain,
    now: &Plain,
) -> Result<Vec<Value>, NoMemory>
    requires earlier { IsLineOf plan.now earlier.now }
    requires now { IsLineOf plan.now now.now }
    ensures { IfOk result (λ items. PutsChanges plan.now earlier.now.line now.now.line 0 plan.now.boxes []
        (map view items.items)) }
{
    plan.meets_conditions();
    let mut values = Vec::new(alloc);
    for (box_no, _) in plan.boxes.as_slice().iter().enumerate() {
        let box_no = box_no as u32;
        let things = changes_at(alloc, plan, earlier, now, box_no)?;
        add_look(&mut values, alloc, plan, box_no, &things)?;
    }
    Ok(values)
}

// Their object.
fn changes_value(alloc: Global, items: Vec<Value>, count: u64) -> Result<Value, AllocError>
    ensures { IfOk result (λ value. view value ≡ changes_data (map view items.items) count) }
{
    let mut object = Object::new(alloc);
    object.put_number(alloc, "entries", count)?;
    object.put_value(alloc, "changes", Value::from(items))?;
    Ok(object.into_value())
}

/// The text, as JSON in one line without its end, of what stands otherwise on a line now than earlier: of each box at
/// which something does, those things; and the count of entries behind which it stands so now.
pub fn changes_text(
    alloc: Global,
    plan: &Plan,
    earlier: &Plain,
    now: &Plain,
    count: u64,
) -> Result<String, NoMemory>
    requires earlier { IsLineOf plan.now earlier.now }
    requires now { IsLineOf plan.now now.now }
    ensures { IfOk result
        (λ text. IsChangesText plan.now earlier.now.line now.now.line count (string_bytes text)) }
{
    let items = change_items(alloc, plan, earlier, now)?;
    let object = changes_value(alloc, items, count)?;
    let text = text_of(alloc, &object)?;
    Ok(text)
}

// ---- all that stands

/// The text, as JSON in one line without its end, of these things of a box.
pub fn look_text(
    alloc: Global,
    plan: &Plan,
    box_no: u32,
    things: &[BoxThing],
) -> Result<String, AllocError>
    ensures { IfOk result (λ text. IsTextOf (look_data plan.now box_no things.now) (string_bytes text)) }
{
    let value = look_value(alloc, plan, box_no, things)?;
    text_of(alloc, &value)
}

// The object of all that stands at a box.
fn box_value(alloc: Global, plan: &Plan, line: &Plain, box_no: u32) -> Result<Value, NoMemory>
    requires line { IsLineOf plan.now line.now }
    requires at { box_no < length plan.now.boxes }
    ensures { IfOk result
        (λ value. view value ≡ look_data plan.now box_no (things_at plan.now line.now.line box_no)) }
{
    let things = things_at(alloc, plan, line, box_no)?;
    Ok(look_value(alloc, plan, box_no, &things)?)
}

// The objects of all boxes.
fn look_items(alloc: Global, plan: &Plan, line: &Plain) -> Result<Vec<Value>, NoMemory>
    requires line { IsLineOf plan.now line.now }
    ensures { IfOk result (λ items. map view items.items ≡ looks_from plan.now line.now.line 0 plan.now.boxes) }
{
    plan.meets_conditions();
    let mut values = Vec::new(alloc);
    for (box_no, _) in plan.boxes.as_slice().iter().enumerate() {
        let value = box_value(alloc, plan, line, box_no as u32)?;
        values.push(value)?;
    }
    Ok(values)
}

// Their object.
fn looks_value(alloc: Global, plan: &Plan, line: &Plain) -> Result<Value, NoMemory>
    requires line { IsLineOf plan.now line.now }
    ensures { IfOk result (λ value. view value ≡ looks_data plan.now line.now.line) }
{
    let items = look_items(alloc, plan, line)?;
    let mut object = Object::new(alloc);
    object.put_value(alloc, "looks", Value::from(items))?;
    Ok(object.into_value())
}

/// The text, as JSON in one line without its end, of all that stands at the boxes of a line, in their order.
pub fn looks_text(alloc: Global, plan: &Plan, line: &Plain) -> Result<String, NoMemory>
    requires { IsLineOf plan.now line.now }
    ensures { IfOk result (λ text. IsTextOf (looks_data plan.now line.now.line) (string_bytes text)) }
{
    let value = looks_value(alloc, plan, line)?;
    let text = text_of(alloc, &value)?;
    Ok(text)
}
