//! Chains of rows, each of which names the lever that the next one holds.

ghost use Rattle.std.specs.Prelude.{◌≡◌, ◌-◌, ◌<◌, IfOk, None, OnOk, drop, length, slice_index_or};
ghost use Rattle.locking_table.specs.Places.{IsLever};
ghost use Rattle.row_circles.specs.Chains.{IsLonger, IsStart};

use frame_walk::Walk;
use locking_table::NoMemory;
use std::alloc::Global;

/// A chain of rows that is followed.
#[derive(Drop)]
pub struct Chain {
    /// The lever to which it has come.
    pub here: u32,
    /// Its rows, by their places from 0.
    pub rows: Vec<u32>,
    /// For each lever that it has passed, the place in it of the row that holds this lever.
    pub passed: Vec<Option<usize>>,
}

impl Chain {
    /// A chain that is at a lever, and has no rows yet.
    pub fn start(alloc: Global, levers: u32, lever: u32) -> Result<Chain, NoMemory>
        ensures { IfOk result (IsStart levers lever) }
    {
        Ok(Chain {
            here: lever,
            rows: Vec::new(alloc),
            passed: vec![in alloc; None; levers as usize]?,
        })
    }

    /// Where the row stands that holds the lever to which the chain has come, if that one was passed before.
    pub fn closing(&self) -> Option<usize>
        requires here { IsLever (length self.now.passed.items) self.now.here }
        ensures { result ≡ slice_index_or self.now.passed.items (self.now.here - 1) None }
    {
        self.passed[self.here as usize - 1]
    }

    /// Its rows from a place on.
    pub fn rows_from(&self, alloc: Global, from: usize) -> Result<Vec<u32>, NoMemory>
        requires from { from < length self.now.rows.items }
        ensures { IfOk result (λ rows. rows.items ≡ drop from self.now.rows.items) }
    {
        let rows = Vec::from_slice(alloc, &self.rows[from..])?;
        Ok(rows)
    }

    /// Goes on by the row at a place, to the lever that it names.
    pub fn push(&mut self, walk: &Walk, at: usize) -> Result<(), NoMemory>
        requires here { IsLever (length self.old.passed.items) self.old.here }
        requires at { at < length walk.now.rows }
        ensures { OnOk result (IsLonger walk.now.rows at self.old self.new) }
    {
        let table = walk.table().rows();
        let here = self.here;
        let place = self.rows.len();
        self.rows.push(at as u32)?;
        self.passed[here as usize - 1] = Some(place);
        self.here = table[at].holding_lever(here);
        Ok(())
    }
}
