//! What stands at a box and on a section.

ghost use Rattle.std.specs.Prelude.{◌≡◌, ◌<◌, ◌≤◌, ◌++◌, ◌^◌, IfOk, OnOk, length, option_map};
ghost use Rattle.line_law.specs.Lines.{IsLineOf};
ghost use Rattle.line_plan.specs.Sections.{IsSection};
ghost use Rattle.look_records.specs.Things.{arm_of, block_of, incoming_things, lever_at, levers_at, line_trains};
ghost use Rattle.look_records.specs.Things.{places_at, rear_of, section_things, things_at, train_behind, trains_of};

use crate::thing::{BoxThing, LineTrains};
use block_words::{Position, Way};
use line_law::{BoxState, Link, Plain, PlainLine, is_off, is_pulled};
use line_plan::{Berth, BoxPlan, Lever, Plan, Section, Signal, comes_in};
use rail_text::NoMemory;
use std::alloc::Global;

// ---- levers and places

// Whether the arm is off, where there is a signal.
fn arm_of(signal: Option<&Signal>, is_off: bool) -> Option<bool>
    ensures { result ≡ arm_of (option_map (λ signal. signal.now) signal.entry) is_off }
{
    match signal {
        Some(_) => Some(is_off),
        None => None,
    }
}

// A lever of a box.
fn lever_at(box_plan: &BoxPlan, here: &BoxState, lever: Lever) -> BoxThing
    ensures { result ≡ lever_at box_plan.now here.now lever }
{
    let number = lever.number;
    BoxThing::Lever {
        number,
        is_reversed: is_pulled(here.ends.as_slice(), number),
        arm: arm_of(box_plan.signal(number), is_off(here.off.as_slice(), number)),
    }
}

// Adds the levers of a box.
fn add_levers(
    things: &mut Vec<BoxThing>,
    box_plan: &BoxPlan,
    here: &BoxState,
) -> Result<(), NoMemory>
    ensures { OnOk result
        (things.new.items ≡ things.old.items ++ levers_at box_plan.now here.now box_plan.now.levers) }
{
    for lever in box_plan.levers.as_slice() {
        things.push(lever_at(box_plan, here, *lever))?;
    }
    Ok(())
}

// Adds the places of a box.
fn add_places(things: &mut Vec<BoxThing>, places: &[Option<u32>]) -> Result<(), NoMemory>
    requires { length places.now ≤ 2 ^ 32 }
    ensures { OnOk result (things.new.items ≡ things.old.items ++ places_at 0 places.now) }
{
    for (place, there) in places.iter().enumerate() {
        things.push(BoxThing::Place {
            place: place as u32,
            train: *there,
        })?;
    }
    Ok(())
}

// ---- a section

// The train that is so far behind the first one of these.
fn train_behind(trains: &PlainLine, behind: usize) -> Option<u32>
    ensures { result ≡ train_behind trains.now behind }
{
    match trains.get(behind) {
        Some(passage) => Some(passage.train),
        None => None,
    }
}

// The trains of a plain line.
fn line_trains(trains: &PlainLine) -> LineTrains
    ensures { result ≡ line_trains trains.now }
{
    LineTrains {
        first: train_behind(trains, 0),
        second: train_behind(trains, 1),
        third: train_behind(trains, 2),
        fourth: train_behind(trains, 3),
    }
}

// A plain line with its trains.
fn trains_of(way: Way, portion: Option<u32>, trains: &PlainLine) -> BoxThing
    ensures { result ≡ trains_of way portion trains.now }
{
    BoxThing::Line {
        way,
        trains: line_trains(trains),
        is_portion: portion.is_some(),
    }
}

// Adds what the instrument of a section shows, where there is one.
fn add_block(
    things: &mut Vec<BoxThing>,
    berth: Option<&Berth>,
    way: Way,
    position: Position,
) -> Result<(), NoMemory>
    ensures { OnOk result (things.new.items ≡ things.old.items
        ++ block_of (option_map (λ berth. berth.now) berth.entry) way position) }
{
    if let Some(_) = berth {
        things.push(BoxThing::Block { way, position })?;
    }
    Ok(())
}

// Adds what belongs to a section.
#[tactic(auto, unfolding(crate::specs::Things::section_things))]
fn add_section(
    things: &mut Vec<BoxThing>,
    plan: &Plan,
    line: &Plain,
    section: Section,
) -> Result<(), NoMemory>
    requires line { IsLineOf plan.now line.now }
    requires section { IsSection plan.now section }
    ensures { OnOk result
        (things.new.items ≡ things.old.items ++ section_things plan.now line.now.line section) }
{
    plan.meets_conditions();
    let way = section.way;
    let pair = &line.pairs()[Link::Out(way).pair_no(section.rear as usize)];
    let advance = section.advance(plan);
    let incoming = line.boxes()[advance as usize].incoming.get(way);
    things.push(BoxThing::Bell {
        way,
        unheard: pair.bells.get(way).unheard,
    })?;
    things.push(trains_of(way, incoming.portion, pair.plain_line(way)))?;
    add_block(
        things,
        section.berth(plan),
        way,
        pair.blocks.get(way).position,
    )
}

/// What belongs to a section and stands at its box in advance: its bell, the trains on its plain line, and its
/// instrument, where its line has one.
pub fn section_things(
    alloc: Global,
    plan: &Plan,
    line: &Plain,
    section: Section,
) -> Result<Vec<BoxThing>, NoMemory>
    requires line { IsLineOf plan.now line.now }
    requires section { IsSection plan.now section }
    ensures { IfOk result (λ things. things.items ≡ section_things plan.now line.now.line section) }
{
    let mut things = Vec::new(alloc);
    add_section(&mut things, plan, line, section)?;
    Ok(things)
}

// ---- a box

/// The box in the rear of the line of a way that comes into a box.
pub fn rear_of(box_no: u32, way: Way) -> usize
    ensures { result ≡ rear_of box_no way }
{
    match way {
        Way::Up => box_no as usize + 1,
        Way::Down => box_no.saturating_sub(1) as usize,
    }
}

// Adds what belongs to the line of a way that comes into a box.
#[tactic(auto, unfolding(crate::specs::Things::incoming_things))]
fn add_incoming(
    things: &mut Vec<BoxThing>,
    plan: &Plan,
    line: &Plain,
    box_no: u32,
    way: Way,
) -> Result<(), NoMemory>
    requires line { IsLineOf plan.now line.now }
    requires at { box_no < length plan.now.boxes }
    ensures { OnOk result
        (things.new.items ≡ things.old.items ++ incoming_things plan.now line.now.line box_no way) }
{
    plan.meets_conditions();
    if !comes_in(plan.boxes.len() as u32, box_no, way) {
        return Ok(());
    }
    let rear = rear_of(box_no, way) as u32;
    add_section(things, plan, line, Section { rear, way })
}

/// What stands at a box: its levers and its places in the order of the plan, then what comes in on the down line, and
/// on the up line.
#[tactic(auto, unfolding(crate::specs::Things::things_at))]
pub fn things_at(
    alloc: Global,
    plan: &Plan,
    line: &Plain,
    box_no: u32,
) -> Result<Vec<BoxThing>, NoMemory>
    requires line { IsLineOf plan.now line.now }
    requires at { box_no < length plan.now.boxes }
    ensures { IfOk result (λ things. things.items ≡ things_at plan.now line.now.line box_no) }
{
    plan.meets_conditions();
    let mut things = Vec::new(alloc);
    let box_plan = &plan.boxes.as_slice()[box_no as usize];
    let here = &line.boxes()[box_no as usize];
    add_levers(&mut things, box_plan, here)?;
    add_places(&mut things, here.places.as_slice())?;
    add_incoming(&mut things, plan, line, box_no, Way::Down)?;
    add_incoming(&mut things, plan, line, box_no, Way::Up)?;
    Ok(things)
}
