//! The lines of trains.

ghost use Rattle.std.specs.Prelude.{◌≡◌, ℕ, ◌+◌, ◌<◌, ◌^◌, IfOk, length, slice_index_or};
ghost use Rattle.std.specs.Global.{Vec};
ghost use Rattle.graph_scene.specs.declared.deeds.TrainDeed.{TrainDeed};
ghost use Rattle.graph_scene.specs.Lines.{deeds_by, lines_by, lines_of};
ghost use Rattle.graph_scene.specs.Moments.{AreOf};

use crate::deeds::{TrainDeed, deeds_of};
use line_law::Entry;
use line_plan::{Items, Plan};
use rail_text::NoMemory;
use std::alloc::Global;

/// The line of a train: all that it did, in order.
#[derive(Debug, Drop)]
pub struct TrainLine {
    /// The train, numbered from 1.
    pub train: u32,
    pub deeds: Items<TrainDeed>,
}

// No deeds of so many trains.
fn no_deeds(alloc: Global, trains: usize) -> Result<Vec<Vec<TrainDeed>>, NoMemory>
    ensures count { IfOk result (λ parts. length parts.items ≡ trains) }
    ensures none { IfOk result (λ parts. (t : ℕ) (d : Vec TrainDeed) → t < trains
        → length (slice_index_or parts.items t d).items ≡ 0) }
{
    let mut parts = Vec::new(alloc);
    for _ in 0..trains {
        parts.push(Vec::new(alloc))?;
    }
    Ok(parts)
}

// The deeds of each of so many trains, numbered from 1.
#[tactic(auto, using(crate::proofs::Dealing::deal_rules))]
fn part_deeds(
    alloc: Global,
    trains: usize,
    deeds: &[TrainDeed],
) -> Result<Vec<Vec<TrainDeed>>, NoMemory>
    ensures count { IfOk result (λ parts. length parts.items ≡ trains) }
    ensures each { IfOk result (λ parts. (t : ℕ) (d : Vec TrainDeed) → t < trains
        → (slice_index_or parts.items t d).items ≡ deeds_by (t + 1) deeds.now) }
{
    let mut parts = no_deeds(alloc, trains)?;
    for deed in deeds {
        let train = deed.train as usize;
        if 0 < train && train <= trains {
            parts[train - 1].push(*deed)?;
        }
    }
    Ok(parts)
}

// The lines of trains with these deeds, where they did something.
#[tactic(auto, using(crate::proofs::Dealing::line_rules))]
fn lines_by(
    alloc: Global,
    parts: &[Vec<TrainDeed>],
    deeds: &[TrainDeed],
) -> Result<Vec<TrainLine>, NoMemory>
    requires few { length parts.now < 2 ^ 32 }
    requires each { (t : ℕ) (d : Vec TrainDeed) → t < length parts.now
        → (slice_index_or parts.now t d).items ≡ deeds_by (t + 1) deeds.now }
    ensures { IfOk result (λ lines. lines.items ≡ lines_by (length parts.now) deeds.now) }
{
    let mut lines = Vec::new(alloc);
    for (number, part) in parts.iter().enumerate() {
        let its = part.as_slice();
        if !its.is_empty() {
            lines.push(TrainLine {
                train: number as u32 + 1,
                deeds: Items::from_vec(Vec::from_slice(alloc, its)?),
            })?;
        }
    }
    Ok(lines)
}

/// The lines of the trains of a plan, in its order: of each train that did something by a journal all its deeds.
pub fn lines_of(alloc: Global, plan: &Plan, entries: &[Entry]) -> Result<Vec<TrainLine>, NoMemory>
    requires { AreOf plan.now entries.now }
    ensures { IfOk result (λ lines. lines.items ≡ lines_of plan.now entries.now) }
{
    plan.meets_conditions();
    let deeds = deeds_of(alloc, plan, entries)?;
    let parts = part_deeds(alloc, plan.trains.len(), &deeds)?;
    lines_by(alloc, &parts, &deeds)
}
