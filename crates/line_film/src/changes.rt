//! What is seen otherwise than before.

ghost use Rattle.std.specs.Prelude.{◌≡◌, ◌++◌, IfOk, OnOk, length, option_to_list};
ghost use Rattle.line_film.specs.Changes.{AreChanges, IsChange, all_from};

use crate::same::is_same;
use line_plan::Items;
use line_scene::Shown;
use rail_text::NoMemory;
use std::alloc::Global;

/// A thing of the line as it stands from an entry on, by its number in what is seen.
#[derive(Clone, Copy, Debug)]
pub struct Change {
    pub slot: usize,
    pub thing: Shown,
}

// A thing that isn't seen as before.
fn change_of(slot: usize, old: Shown, new: Shown) -> Option<Change>
    ensures { IsChange slot old new (option_to_list result) }
{
    if is_same(old, new) {
        None
    } else {
        Some(Change { slot, thing: new })
    }
}

// Adds a change, if there is one.
fn add_change(changes: &mut Vec<Change>, change: Option<Change>) -> Result<(), NoMemory>
    ensures { OnOk result (changes.new.items ≡ changes.old.items ++ option_to_list change) }
{
    if let Some(change) = change {
        changes.push(change)?;
    }
    Ok(())
}

// What is seen otherwise than before, thing by thing.
fn changes_by(alloc: Global, before: &[Shown], after: &[Shown]) -> Result<Vec<Change>, NoMemory>
    requires { length before.now ≡ length after.now }
    ensures { IfOk result (λ changes. AreChanges 0 before.now after.now changes.items) }
{
    let mut changes = Vec::new(alloc);
    for (slot, thing) in after.iter().enumerate() {
        let change = change_of(slot, before[slot], *thing);
        add_change(&mut changes, change)?;
    }
    Ok(changes)
}

/// What is seen otherwise than before, thing by thing.
pub fn changes_of(
    alloc: Global,
    before: &[Shown],
    after: &[Shown],
) -> Result<Items<Change>, NoMemory>
    requires { length before.now ≡ length after.now }
    ensures { IfOk result (λ changes. AreChanges 0 before.now after.now changes) }
{
    Ok(Items::from_vec(changes_by(alloc, before, after)?))
}

// All things that are seen, by their numbers.
fn all_by(alloc: Global, things: &[Shown]) -> Result<Vec<Change>, NoMemory>
    ensures { IfOk result (λ changes. changes.items ≡ all_from 0 things.now) }
{
    let mut changes = Vec::new(alloc);
    for (slot, thing) in things.iter().enumerate() {
        changes.push(Change {
            slot,
            thing: *thing,
        })?;
    }
    Ok(changes)
}

/// All things that are seen, by their numbers.
pub fn all_of(alloc: Global, things: &[Shown]) -> Result<Items<Change>, NoMemory>
    ensures { IfOk result (λ changes. changes ≡ all_from 0 things.now) }
{
    Ok(Items::from_vec(all_by(alloc, things)?))
}
