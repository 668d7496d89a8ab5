//! What stands at a box, as objects.

ghost use Rattle.std.specs.Prelude.{◌≡◌, ◌++◌, IfOk, OnOk, map};
ghost use Rattle.serde_json.specs.Data.{no_members};
ghost use Rattle.serde_json.specs.View.{view};
ghost use Rattle.json_objects.specs.Members.{members_in};
ghost use Rattle.look_records.specs.Objects.{bell_data, block_data, is_kind, kind_data, kind_items, lever_data};
ghost use Rattle.look_records.specs.Objects.{line_data};
ghost use Rattle.look_records.specs.Objects.{line_items, look_data, place_data, plant_members};
ghost use Rattle.look_records.specs.Objects.{thing_data, train_items};

use crate::names::{arm_words, box_name, code_if, end_word, place_name, train_if, train_name};
use crate::thing::{BoxThing, LineTrains, ThingKind};
use crate::things::rear_of;
use bell_codes::CodeNo;
use block_words::{Position, Way};
use json_objects::Object;
use line_plan::Plan;
use script_text::position_word;
use serde_json::Value;
use std::alloc::{AllocError, Global};

// ---- a thing

// The object of a lever.
#[tactic(auto, using(json_objects::proofs::Putting::before_if))]
fn lever_value(
    alloc: Global,
    number: u32,
    is_reversed: bool,
    arm: Option<bool>,
) -> Result<Value, AllocError>
    ensures { IfOk result (λ value. view value ≡ lever_data number is_reversed arm) }
{
    let mut object = Object::new(alloc);
    object.put_number(alloc, "lever", u64::from(number))?;
    object.put_text(alloc, "end", end_word(is_reversed))?;
    object.put_text_if(alloc, "arm", arm_words(arm))?;
    Ok(object.into_value())
}

// The object of a place.
#[tactic(auto, using(json_objects::proofs::Putting::before_if))]
fn place_value(
    alloc: Global,
    plan: &Plan,
    box_no: u32,
    place: u32,
    train: Option<u32>,
) -> Result<Value, AllocError>
    ensures { IfOk result (λ value. view value ≡ place_data plan.now box_no place train) }
{
    let mut object = Object::new(alloc);
    object.put_text_if(alloc, "train", train_if(plan, train))?;
    object.put_text(alloc, "place", place_name(plan, box_no, place))?;
    Ok(object.into_value())
}

// The object of a bell.
#[tactic(auto, using(json_objects::proofs::Putting::before_if))]
fn bell_value(
    alloc: Global,
    plan: &Plan,
    box_no: u32,
    way: Way,
    unheard: Option<CodeNo>,
) -> Result<Value, AllocError>
    ensures { IfOk result (λ value. view value ≡ bell_data plan.now box_no way unheard) }
{
    let code = code_if(alloc, plan, unheard)?;
    let mut object = Object::new(alloc);
    object.put_text_if(alloc, "unheard", code.as_deref())?;
    object.put_text(alloc, "from", box_name(plan, rear_of(box_no, way)))?;
    Ok(object.into_value())
}

// The object of an instrument.
fn block_value(
    alloc: Global,
    plan: &Plan,
    box_no: u32,
    way: Way,
    position: Position,
) -> Result<Value, AllocError>
    ensures { IfOk result (λ value. view value ≡ block_data plan.now box_no way position) }
{
    let mut object = Object::new(alloc);
    object.put_text(alloc, "position", position_word(position))?;
    object.put_text(alloc, "from", box_name(plan, rear_of(box_no, way)))?;
    Ok(object.into_value())
}

// Adds the name of a train, if there is one.
fn add_train(
    items: &mut Vec<Value>,
    alloc: Global,
    plan: &Plan,
    train: Option<u32>,
) -> Result<(), AllocError>
    ensures { OnOk result (map view items.new.items ≡ map view items.old.items ++ train_items plan.now train) }
{
    if let Some(train) = train {
        let name = Value::try_from_str(alloc, train_name(plan, train))?;
        items.push(name)?;
    }
    Ok(())
}

// The object of a plain line with these trains.
fn line_value(
    alloc: Global,
    plan: &Plan,
    box_no: u32,
    way: Way,
    is_portion: bool,
    trains: Vec<Value>,
) -> Result<Value, AllocError>
    ensures { IfOk result
        (λ value. view value ≡ line_data plan.now box_no way is_portion (map view trains.items)) }
{
    let mut object = Object::new(alloc);
    object.put_value(alloc, "trains", Value::from(trains))?;
    object.put_flag(alloc, "portion", is_portion)?;
    object.put_text(alloc, "from", box_name(plan, rear_of(box_no, way)))?;
    Ok(object.into_value())
}

// The names of the trains of a plain line, the first first.
fn line_items(alloc: Global, plan: &Plan, trains: LineTrains) -> Result<Vec<Value>, AllocError>
    ensures { IfOk result (λ items. map view items.items ≡ line_items plan.now trains) }
{
    let mut items = Vec::new(alloc);
    add_train(&mut items, alloc, plan, trains.first)?;
    add_train(&mut items, alloc, plan, trains.second)?;
    add_train(&mut items, alloc, plan, trains.third)?;
    add_train(&mut items, alloc, plan, trains.fourth)?;
    Ok(items)
}

// The object of a thing of a box.
fn thing_value(
    alloc: Global,
    plan: &Plan,
    box_no: u32,
    thing: BoxThing,
) -> Result<Value, AllocError>
    ensures { IfOk result (λ value. view value ≡ thing_data plan.now box_no thing) }
{
    match thing {
        BoxThing::Lever {
            number,
            is_reversed,
            arm,
        } => lever_value(alloc, number, is_reversed, arm),
        BoxThing::Place { place, train } => place_value(alloc, plan, box_no, place, train),
        BoxThing::Bell { way, unheard } => bell_value(alloc, plan, box_no, way, unheard),
        BoxThing::Block { way, position } => block_value(alloc, plan, box_no, way, position),
        BoxThing::Line {
            way,
            trains,
            is_portion,
        } => {
            let trains = line_items(alloc, plan, trains)?;
            line_value(alloc, plan, box_no, way, is_portion, trains)
        }
    }
}

// ---- a box

// Whether a thing is of a kind.
fn is_kind(kind: ThingKind, thing: BoxThing) -> bool
    ensures { result ≡ is_kind kind thing }
{
    match kind {
        ThingKind::Lever => matches!(thing, BoxThing::Lever { .. }),
        ThingKind::Place => matches!(thing, BoxThing::Place { .. }),
        ThingKind::Bell => matches!(thing, BoxThing::Bell { .. }),
        ThingKind::Block => matches!(thing, BoxThing::Block { .. }),
        ThingKind::Line => matches!(thing, BoxThing::Line { .. }),
    }
}

// The objects of those of these things of a box that are of a kind, in order.
fn kind_items(
    alloc: Global,
    plan: &Plan,
    box_no: u32,
    things: &[BoxThing],
    kind: ThingKind,
) -> Result<Vec<Value>, AllocError>
    ensures { IfOk result (λ items. map view items.items ≡ kind_items plan.now box_no kind things.now) }
{
    let mut items = Vec::new(alloc);
    for thing in things {
        if is_kind(kind, *thing) {
            let value = thing_value(alloc, plan, box_no, *thing)?;
            items.push(value)?;
        }
    }
    Ok(items)
}

// The same as a value.
fn kind_value(
    alloc: Global,
    plan: &Plan,
    box_no: u32,
    things: &[BoxThing],
    kind: ThingKind,
) -> Result<Value, AllocError>
    ensures { IfOk result (λ value. view value ≡ kind_data plan.now box_no kind things.now) }
{
    Ok(Value::from(kind_items(alloc, plan, box_no, things, kind)?))
}

// Puts the levers, the plain lines and the places among these things.
fn put_plant(
    object: &mut Object,
    alloc: Global,
    plan: &Plan,
    box_no: u32,
    things: &[BoxThing],
) -> Result<(), AllocError>
    requires { members_in object.old ≡ no_members }
    ensures { OnOk result (members_in object.new ≡ plant_members plan.now box_no things.now) }
{
    let places = kind_value(alloc, plan, box_no, things, ThingKind::Place)?;
    object.put_value(alloc, "places", places)?;
    let lines = kind_value(alloc, plan, box_no, things, ThingKind::Line)?;
    object.put_value(alloc, "lines", lines)?;
    let levers = kind_value(alloc, plan, box_no, things, ThingKind::Lever)?;
    object.put_value(alloc, "levers", levers)
}

/// These things of a box as an object: the name of the box, and each thing in the list of its kind.
#[tactic(auto, unfolding(crate::specs::Objects::look_data))]
pub fn look_value(
    alloc: Global,
    plan: &Plan,
    box_no: u32,
    things: &[BoxThing],
) -> Result<Value, AllocError>
    ensures { IfOk result (λ value. view value ≡ look_data plan.now box_no things.now) }
{
    let mut object = Object::new(alloc);
    put_plant(&mut object, alloc, plan, box_no, things)?;
    object.put_text(alloc, "box", box_name(plan, box_no as usize))?;
    let blocks = kind_value(alloc, plan, box_no, things, ThingKind::Block)?;
    object.put_value(alloc, "blocks", blocks)?;
    let bells = kind_value(alloc, plan, box_no, things, ThingKind::Bell)?;
    object.put_value(alloc, "bells", bells)?;
    Ok(object.into_value())
}
