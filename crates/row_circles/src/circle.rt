//! The circle of rows round which a lever is held.

ghost use Rattle.std.specs.Prelude.{◌-◌, ◌≤◌, All, IfOk};
ghost use Rattle.locking_table.specs.Places.{IsLever};
ghost use Rattle.locking_table.specs.Sound.{RowFits};
ghost use Rattle.row_circles.specs.Circles.{AreHolders, IsRound};

use crate::chain::Chain;
use frame_walk::Walk;
use locking_table::NoMemory;
use std::alloc::Global;

/// The circle of rows, by their places from 0, to which a chain leads from a lever. `holders` has for each lever a row
/// that holds it in every state that the walk keeps, if one is known; `None` where the chain comes to a lever that has
/// none.
pub fn circle_of(
    alloc: Global,
    walk: &Walk,
    holders: &[Option<usize>],
    lever: u32,
) -> Result<Option<Vec<u32>>, NoMemory>
    requires rows { All (RowFits walk.now.levers) walk.now.rows }
    requires holders { AreHolders walk.now holders.now }
    requires lever { IsLever walk.now.levers lever }
    ensures { IfOk result (IsRound walk.now holders.now lever) }
{
    let mut chain = Chain::start(alloc, walk.levers(), lever)?;
    'rows: loop {
        if let Some(from) = chain.closing() {
            return Ok(Some(chain.rows_from(alloc, from)?));
        }
        match holders[chain.here as usize - 1] {
            Some(at) => chain.push(walk, at)?,
            None => return Ok(None),
        }
    }
}
