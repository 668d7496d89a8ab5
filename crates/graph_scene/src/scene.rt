//! What a train graph shows.

ghost use Rattle.std.specs.Prelude.{◌≡◌, ◌<◌, ◌^◌, IfOk, length};
ghost use Rattle.graph_scene.specs.Scenes.{scene_of};
ghost use Rattle.line_law.specs.History.{IsLegal};

use crate::axis::{Axis, axis_of};
use crate::bars::{Bar, bars_of};
use crate::lines::{TrainLine, lines_of};
use line_law::Entry;
use line_plan::{Items, Plan};
use rail_text::NoMemory;
use std::alloc::Global;

/// What a train graph shows of a journal.
#[derive(Debug, Drop)]
pub struct Scene {
    /// The line of each train that did something, in the order of the plan.
    pub lines: Items<TrainLine>,
    /// For how long each instrument shows Line Clear or Train on Line.
    pub bars: Items<Bar>,
    /// How far to the right each entry stands.
    pub axis: Axis,
}

/// What a train graph shows of a legal journal: of each train that did something all its deeds; for each turn of an
/// instrument to Line Clear or Train on Line how long it stood so; and how far to the right each entry stands. It goes
/// over the journal a few times, whatever the number of trains.
#[tactic(auto, using(crate::proofs::Legal::legal_of))]
pub fn scene_of(alloc: Global, plan: &Plan, entries: &[Entry]) -> Result<Scene, NoMemory>
    requires legal { IsLegal plan.now entries.now }
    requires few { length entries.now < 2 ^ 32 }
    ensures { IfOk result (λ scene. scene ≡ scene_of plan.now entries.now) }
{
    let lines = lines_of(alloc, plan, entries)?;
    let bars = bars_of(alloc, plan, entries)?;
    let axis = axis_of(alloc, plan, entries)?;
    Ok(Scene {
        lines: Items::from_vec(lines),
        bars: Items::from_vec(bars),
        axis,
    })
}
