//! The diagram of a box: its places in the order of travel.

ghost use Rattle.std.specs.Prelude.{◌≡◌, ◌<◌, ◌≤◌, ◌^◌, ◌++◌, All, IfOk, OnOk, length, option_map, take};
ghost use Rattle.line_plan.specs.Frames.{place_of};
ghost use Rattle.line_scene.specs.Diagrams.{arms_at, diagram_of, diagrams_of, heads_below, is_led_to, is_to, most_arms};
ghost use Rattle.line_scene.specs.Diagrams.{places_below, rank_of, ranks_from, starts_of, walk_by, walk_of};

use crate::walk::{Spot, Walk};
use line_plan::{Berth, BoxPlan, Items, Plan, Signal, To};
use rail_text::NoMemory;
use std::alloc::Global;

/// The diagram of a box, in which its places stand in the order of travel.
#[derive(Debug, Drop)]
pub struct Diagram {
    /// Where each place stands, in the order of the places.
    pub spots: Items<Spot>,
    pub rows: u32,
    /// How many arms stand above that of each signal on the same post, in the order of the signals.
    pub ranks: Items<u32>,
    /// The most arms on a post.
    pub arms: u32,
}

// ---- where roads begin

// Whether it leads to a place.
fn is_to(place: u32, to: To) -> bool
    ensures { result ≡ is_to place to }
{
    match to {
        To::Place(to) => to == place,
        To::Section(_) | To::Away => false,
    }
}

// Whether a signal leads to a place.
fn is_led_to(signals: &[Signal], place: u32) -> bool
    ensures { result ≡ is_led_to signals.now place }
{
    signals.iter().any(|signal| is_to(place, signal.to))
}

// Adds the place of a berth, if there is one.
fn add_berth(starts: &mut Vec<u32>, berth: Option<&Berth>) -> Result<(), NoMemory>
    ensures { OnOk result
        (starts.new.items ≡ starts.old.items ++ place_of (option_map (λ berth. berth.now) berth.entry)) }
{
    if let Some(berth) = berth {
        starts.push(berth.place)?;
    }
    Ok(())
}

// Adds the places of so many to which no signal leads.
fn add_heads(starts: &mut Vec<u32>, signals: &[Signal], places: u32) -> Result<(), NoMemory>
    ensures { OnOk result (starts.new.items ≡ starts.old.items ++ heads_below signals.now places) }
{
    for place in 0..places {
        if !is_led_to(signals, place) {
            starts.push(place)?;
        }
    }
    Ok(())
}

// Adds so many places.
fn add_places(starts: &mut Vec<u32>, places: u32) -> Result<(), NoMemory>
    ensures { OnOk result (starts.new.items ≡ starts.old.items ++ places_below places) }
{
    for place in 0..places {
        starts.push(place)?;
    }
    Ok(())
}

// Where roads may begin, the likeliest first.
fn starts_of(alloc: Global, box_plan: &BoxPlan) -> Result<Vec<u32>, NoMemory>
    requires { length box_plan.now.places ≤ 64 }
    ensures { IfOk result (λ starts. starts.items ≡ starts_of box_plan.now) }
{
    let places = box_plan.places.len() as u32;
    let mut starts = Vec::new(alloc);
    add_berth(&mut starts, box_plan.berth_down.as_ref())?;
    add_berth(&mut starts, box_plan.berth_up.as_ref())?;
    add_heads(&mut starts, box_plan.signals.as_slice(), places)?;
    add_places(&mut starts, places)?;
    Ok(starts)
}

// The walk over so many places of a box.
fn walk_over(
    alloc: Global,
    starts: &[u32],
    signals: &[Signal],
    places: u32,
) -> Result<Walk, NoMemory>
    requires { places ≤ 64 }
    ensures { IfOk result (λ walk. walk ≡ walk_by starts.now signals.now places places) }
{
    let mut walk = Walk::begin(alloc, places as usize)?;
    for _ in 0..places {
        walk.go_on(starts, signals);
    }
    Ok(walk)
}

// ---- the arms on a post

// How many of these signals stand at a place.
fn arms_at(place: u32, signals: &[Signal]) -> usize
    ensures { result ≡ arms_at place signals.now }
{
    let mut arms = 0;
    for signal in signals {
        if signal.from == place {
            arms += 1;
        }
    }
    arms
}

// How many arms stand above that of a signal on the same post.
fn rank_of(signals: &[Signal], at: usize, signal: &Signal) -> u32
    requires { at ≤ length signals.now }
    ensures value { result ≡ rank_of signals.now at signal.now }
    ensures most { result ≤ 120 }
{
    arms_at(signal.from, &signals[..at]).min(120) as u32
}

// The same of all signals of a box.
fn ranks_of(alloc: Global, signals: &[Signal]) -> Result<Vec<u32>, NoMemory>
    ensures ranks { IfOk result (λ ranks. ranks.items ≡ ranks_from signals.now 0 signals.now) }
    ensures most { IfOk result (λ ranks. All (λ rank. rank ≤ 120) ranks.items) }
{
    let mut ranks = Vec::new(alloc);
    for (at, signal) in signals.iter().enumerate() {
        ranks.push(rank_of(signals, at, signal))?;
    }
    Ok(ranks)
}

// The most arms on a post.
fn most_arms(ranks: &[u32]) -> u32
    requires { All (λ rank. rank ≤ 120) ranks.now }
    ensures { result ≡ most_arms 0 ranks.now }
{
    let mut most: u32 = 0;
    for rank in ranks {
        most = most.max(*rank + 1);
    }
    most
}

// ---- the diagram

// The diagram of a box.
fn diagram_of(alloc: Global, box_plan: &BoxPlan) -> Result<Diagram, NoMemory>
    requires { length box_plan.now.places ≤ 64 }
    ensures { IfOk result (λ diagram. diagram ≡ diagram_of box_plan.now) }
{
    let signals = box_plan.signals.as_slice();
    let starts = starts_of(alloc, box_plan)?;
    let walk = walk_over(alloc, &starts, signals, box_plan.places.len() as u32)?;
    let ranks = ranks_of(alloc, signals)?;
    let arms = most_arms(&ranks);
    Ok(Diagram {
        spots: walk.spots,
        rows: walk.rows,
        ranks: Items::from_vec(ranks),
        arms,
    })
}

// The diagrams of boxes.
fn diagrams_by(alloc: Global, boxes: &[BoxPlan]) -> Result<Vec<Diagram>, NoMemory>
    requires { All (λ box_plan. length box_plan.places ≤ 64) boxes.now }
    ensures { IfOk result (λ diagrams. diagrams.items ≡ diagrams_of boxes.now) }
{
    let mut diagrams = Vec::new(alloc);
    for box_plan in boxes {
        diagrams.push(diagram_of(alloc, box_plan)?)?;
    }
    Ok(diagrams)
}

/// The diagrams of the boxes of a plan, in order.
#[tactic(auto, using(crate::proofs::Few::few_places))]
pub fn diagrams_of(alloc: Global, plan: &Plan) -> Result<Vec<Diagram>, NoMemory>
    ensures { IfOk result (λ diagrams. diagrams.items ≡ diagrams_of plan.now.boxes) }
{
    plan.meets_conditions();
    diagrams_by(alloc, plan.boxes.as_slice())
}
