//! The races of a journal.

ghost use Rattle.std.specs.Prelude.{◌≡◌, ◌<◌, ◌++◌, All, IfOk, OnOk, length};
ghost use Rattle.line_races.specs.Nearest.{race_of};
ghost use Rattle.line_races.specs.Races.{AreRaces};

use crate::scan::Scan;
use line_law::Entry;
use line_plan::Plan;
use rail_text::NoMemory;
use std::alloc::Global;

/// A race: the positions of two entries in their journal, from 0. Their men weren't made to wait for one another, and
/// may come to the word that they share in the other order.
#[derive(Clone, Copy, Debug, PartialEq, Eq)]
pub struct Race {
    pub first: usize,
    pub second: usize,
}

// Adds a race, if its first entry was found.
fn add(races: &mut Vec<Race>, first: Option<usize>, second: usize) -> Result<(), NoMemory>
    ensures { OnOk result (races.new.items ≡ races.old.items ++ race_of first second) }
{
    if let Some(first) = first {
        races.push(Race { first, second })?;
    }
    Ok(())
}

/// The races of a journal, the nearest for each entry, in its order.
pub fn races(alloc: Global, plan: &Plan, entries: &[Entry]) -> Result<Vec<Race>, NoMemory>
    requires { All (λ e. e.box_no < length plan.now.boxes) entries.now }
    ensures { IfOk result (λ races. AreRaces plan.now entries.now races.items) }
{
    let mut scan = Scan::new(alloc, plan)?;
    let mut races = Vec::new(alloc);
    for second in 0..entries.len() {
        let first = scan.pass(plan, entries, second)?;
        add(&mut races, first, second)?;
    }
    Ok(races)
}
