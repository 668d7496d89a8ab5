//! What is seen of a box.

ghost use Rattle.std.specs.Prelude.{◌≡◌, ◌<◌, ◌≤◌, ◌^◌, ◌++◌, OnOk, length, slice_index};
ghost use Rattle.line_law.specs.Lines.{IsLineOf};
ghost use Rattle.line_scene.specs.Boxes.{arm_shown, arms_shown, box_shown, boxes_shown, lever_shown, levers_shown};
ghost use Rattle.line_scene.specs.Boxes.{places_shown, spot_at};

use crate::diagram::Diagram;
use crate::shown::Shown;
use crate::walk::Spot;
use line_law::{BoxState, Plain, is_off, is_pulled};
use line_plan::{BoxPlan, Lever, Plan, Signal};
use locking_table::End;
use rail_text::NoMemory;

// Where a place stands.
fn spot_at(spots: &[Spot], place: u32) -> Spot
    ensures { result ≡ spot_at spots.now place }
{
    match spots.get(place as usize) {
        Some(spot) => *spot,
        None => Spot { row: 0, column: 0 },
    }
}

// How many arms stand above that of a signal.
fn rank_at(ranks: &[u32], at: usize) -> u32
    ensures { result ≡ slice_index ranks.now at }
{
    match ranks.get(at) {
        Some(rank) => *rank,
        None => 0,
    }
}

// Adds the places of a box, each with the train on it.
fn add_places(
    shown: &mut Vec<Shown>,
    box_no: u32,
    spots: &[Spot],
    places: &[Option<u32>],
) -> Result<(), NoMemory>
    requires { length places.now ≤ 2 ^ 32 }
    ensures { OnOk result
        (shown.new.items ≡ shown.old.items ++ places_shown box_no spots.now 0 places.now) }
{
    for (place, there) in places.iter().enumerate() {
        let place = place as u32;
        shown.push(Shown::Place {
            box_no,
            place,
            spot: spot_at(spots, place),
            train: *there,
        })?;
    }
    Ok(())
}

// The arm of a signal of a box.
fn arm_shown(box_no: u32, spots: &[Spot], off: &[bool], rank: u32, signal: &Signal) -> Shown
    ensures { result ≡ arm_shown box_no spots.now off.now rank signal.now }
{
    Shown::Arm {
        box_no,
        lever: signal.lever,
        spot: spot_at(spots, signal.from),
        rank,
        to: signal.to,
        is_off: is_off(off, signal.lever),
    }
}

// Adds the arms of the signals of a box.
fn add_arms(
    shown: &mut Vec<Shown>,
    box_no: u32,
    diagram: &Diagram,
    off: &[bool],
    signals: &[Signal],
) -> Result<(), NoMemory>
    ensures { OnOk result
        (shown.new.items ≡ shown.old.items ++ arms_shown box_no diagram.now off.now 0 signals.now) }
{
    for (at, signal) in signals.iter().enumerate() {
        let rank = rank_at(diagram.ranks.as_slice(), at);
        shown.push(arm_shown(box_no, diagram.spots.as_slice(), off, rank, signal))?;
    }
    Ok(())
}

// A lever of a box.
fn lever_shown(box_no: u32, ends: &[End], lever: Lever) -> Shown
    ensures { result ≡ lever_shown box_no ends.now lever }
{
    Shown::Lever {
        box_no,
        number: lever.number,
        kind: lever.kind,
        is_reversed: is_pulled(ends, lever.number),
    }
}

// Adds the levers of a box.
fn add_levers(
    shown: &mut Vec<Shown>,
    box_no: u32,
    ends: &[End],
    levers: &[Lever],
) -> Result<(), NoMemory>
    ensures { OnOk result (shown.new.items ≡ shown.old.items ++ levers_shown box_no ends.now levers.now) }
{
    for lever in levers {
        shown.push(lever_shown(box_no, ends, *lever))?;
    }
    Ok(())
}

// Adds what is seen of a box.
#[tactic(auto, unfolding(crate::specs::Boxes::box_shown))]
fn add_box(
    shown: &mut Vec<Shown>,
    box_no: u32,
    box_plan: &BoxPlan,
    diagram: &Diagram,
    here: &BoxState,
) -> Result<(), NoMemory>
    requires { length here.now.places ≤ 2 ^ 32 }
    ensures { OnOk result
        (shown.new.items ≡ shown.old.items ++ box_shown box_no box_plan.now diagram.now here.now) }
{
    let (places, off) = (here.places.as_slice(), here.off.as_slice());
    add_places(shown, box_no, diagram.spots.as_slice(), places)?;
    add_arms(shown, box_no, diagram, off, box_plan.signals.as_slice())?;
    add_levers(
        shown,
        box_no,
        here.ends.as_slice(),
        box_plan.levers.as_slice(),
    )
}

/// Adds what is seen of the boxes of a line, in order.
#[tactic(auto, using(crate::proofs::Few::places_few, crate::proofs::Few::box_there))]
pub fn add_boxes(
    shown: &mut Vec<Shown>,
    plan: &Plan,
    diagrams: &[Diagram],
    line: &Plain,
) -> Result<(), NoMemory>
    requires line { IsLineOf plan.now line.now }
    requires diagrams { length diagrams.now ≡ length plan.now.boxes }
    ensures { OnOk result (shown.new.items
        ≡ shown.old.items ++ boxes_shown line.now.line diagrams.now 0 plan.now.boxes) }
{
    plan.meets_conditions();
    for (at, box_plan) in plan.boxes.as_slice().iter().enumerate() {
        let here = &line.boxes()[at];
        add_box(shown, at as u32, box_plan, &diagrams[at], here)?;
    }
    Ok(())
}
