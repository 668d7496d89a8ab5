//! The changes of a journal, entry by entry.

ghost use Rattle.std.specs.Prelude.{◌≡◌, ◌+◌, ◌<◌, ◌^◌, [], IfOk, length, take};
ghost use Rattle.line_law.specs.History.{IsLegal, state_of};
ghost use Rattle.line_law.specs.Lines.{IsLineOf};
ghost use Rattle.line_scene.specs.Diagrams.{diagrams_of};
ghost use Rattle.line_scene.specs.Scenes.{things_of};
ghost use Rattle.line_film.specs.Changes.{all_from};
ghost use Rattle.line_film.specs.Frames.{AreFrames, seen_after};

use crate::changes::{Change, all_of, changes_of};
use line_law::{Entry, Plain};
use line_plan::{Items, Plan};
use line_scene::{Diagram, Shown, things_of};
use rail_text::NoMemory;
use std::alloc::Global;

/// What is seen before the first entry: all things of the line as it opens.
pub fn first_of(alloc: Global, plan: &Plan, diagrams: &[Diagram]) -> Result<Items<Change>, NoMemory>
    requires { diagrams.now ≡ diagrams_of plan.now.boxes }
    ensures { IfOk result (λ first. first ≡ all_from 0 (things_of plan.now (state_of plan.now []))) }
{
    let line = Plain::open(alloc, plan)?;
    let things = things_of(alloc, plan, diagrams, &line)?;
    all_of(alloc, &things)
}

// Performs the call of an entry of a legal journal, and tells what is seen then.
#[tactic(auto, using(line_law::proofs::Histories::legal_front))]
fn seen_next(
    alloc: Global,
    plan: &Plan,
    diagrams: &[Diagram],
    line: &mut Plain,
    entries: &[Entry],
    at: usize,
) -> Result<Vec<Shown>, NoMemory>
    requires diagrams { diagrams.now ≡ diagrams_of plan.now.boxes }
    requires legal { IsLegal plan.now entries.now }
    requires few { length entries.now < 2 ^ 32 }
    requires at { at < length entries.now }
    requires line { IsLineOf plan.now line.old }
    requires calls { line.old.calls ≡ at }
    requires state { line.old.line ≡ state_of plan.now (take at entries.now) }
    ensures seen { IfOk result (λ things. things.items ≡ seen_after plan.now entries.now (at + 1)) }
    ensures line { IsLineOf plan.now line.new }
    ensures calls { line.new.calls ≡ at + 1 }
    ensures state { line.new.line ≡ state_of plan.now (take (at + 1) entries.now) }
{
    plan.meets_conditions();
    let entry = &entries[at];
    line.perform(plan, entry.box_no, &entry.call);
    things_of(alloc, plan, diagrams, line)
}

/// What each entry of a legal journal changes of what is seen.
pub fn frames_of(
    alloc: Global,
    plan: &Plan,
    diagrams: &[Diagram],
    entries: &[Entry],
) -> Result<Vec<Items<Change>>, NoMemory>
    requires diagrams { diagrams.now ≡ diagrams_of plan.now.boxes }
    requires legal { IsLegal plan.now entries.now }
    requires few { length entries.now < 2 ^ 32 }
    ensures { IfOk result (λ frames. AreFrames plan.now entries.now frames.items) }
{
    let mut frames = Vec::new(alloc);
    let mut line = Plain::open(alloc, plan)?;
    let mut before = things_of(alloc, plan, diagrams, &line)?;
    for at in 0..entries.len() {
        let after = seen_next(alloc, plan, diagrams, &mut line, entries, at)?;
        frames.push(changes_of(alloc, &before, &after)?)?;
        before = after;
    }
    Ok(frames)
}
