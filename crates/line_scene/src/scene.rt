//! What is seen of a line.

ghost use Rattle.std.specs.Prelude.{◌≡◌, ◌++◌, ◌<◌, ◌^◌, IfOk, length};
ghost use Rattle.line_law.specs.History.{IsLegal, state_of};
ghost use Rattle.line_law.specs.Lines.{IsLineOf};
ghost use Rattle.line_scene.specs.Diagrams.{diagrams_of};
ghost use Rattle.line_scene.specs.Scenes.{scene_after, things_of};

use crate::box_shown::add_boxes;
use crate::diagram::{Diagram, diagrams_of};
use crate::performing::line_after;
use crate::section_shown::add_sections;
use crate::shown::Shown;
use line_law::{Entry, Plain};
use line_plan::{Items, Plan};
use rail_text::NoMemory;
use std::alloc::Global;

/// What is seen of a line.
#[derive(Debug, Drop)]
pub struct Scene {
    /// The diagram of each box, in the order of the boxes.
    pub diagrams: Items<Diagram>,
    /// Its things as they stand: of each box its places, its arms and its levers, in the order of the plan; then of
    /// each section its instrument, its bell, and the trains on its plain line.
    pub shown: Items<Shown>,
}

/// What is seen of a line, by the diagrams of its boxes.
pub fn things_of(
    alloc: Global,
    plan: &Plan,
    diagrams: &[Diagram],
    line: &Plain,
) -> Result<Vec<Shown>, NoMemory>
    requires diagrams { diagrams.now ≡ diagrams_of plan.now.boxes }
    requires line { IsLineOf plan.now line.now }
    ensures { IfOk result (λ things. things.items ≡ things_of plan.now line.now.line) }
{
    let mut shown = Vec::new(alloc);
    add_boxes(&mut shown, plan, diagrams, line)?;
    add_sections(&mut shown, plan, line)?;
    Ok(shown)
}

/// What is seen of a line behind the entries of a legal journal.
pub fn scene_after(alloc: Global, plan: &Plan, entries: &[Entry]) -> Result<Scene, NoMemory>
    requires legal { IsLegal plan.now entries.now }
    requires few { length entries.now < 2 ^ 32 }
    ensures { IfOk result (λ scene. scene ≡ scene_after plan.now entries.now) }
{
    let line = line_after(alloc, plan, entries)?;
    let diagrams = diagrams_of(alloc, plan)?;
    let shown = things_of(alloc, plan, &diagrams, &line)?;
    Ok(Scene {
        diagrams: Items::from_vec(diagrams),
        shown: Items::from_vec(shown),
    })
}
