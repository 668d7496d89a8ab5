//! Locking tables.

ghost use Rattle.std.specs.Prelude.{◌≡◌, ◌<◌, ◌-◌, ◌+◌, ◌^◌, ◌∷◌, ◌++◌, ◌==◌, [], All, OnOk, OnErr, IsNone, IsTrue};
ghost use Rattle.std.specs.Prelude.{◌↔◌, length, option_map};
ghost use Rattle.locking_table.specs.Places.{IsLever, at_ends};
ghost use Rattle.locking_table.specs.Meaning.{MayMove, RowHolds, first_holder, holder_of};
ghost use Rattle.locking_table.specs.Sound.{IsRow, RowFits};

use crate::index::{Uses, file_row, first_of, uses_of};
use crate::memory::NoMemory;
use crate::places::End;
use crate::row::{Holder, Row};
use std::alloc::Global;
use std::marker::Model;

/// A locking table, which contracts see as the list of its rows.
///
/// It has fewer than 2^32 rows, each of them one that some text spells.
#[derive(Debug, Drop)]
pub struct Table {
    rows: Vec<Row>,
    // For each lever the rows that may hold it.
    uses: Vec<Uses>,
}

impl Model for Table {
    ghost use Rattle.std.specs.Prelude.{List};
    ghost use Rattle.locking_table.specs.declared.row.Row.{Row};
    ghost use Rattle.locking_table.specs.Index.{IsTable};

    ghost Value = { List Row };

    ghost view = { λ t. t.rows.items };

    ghost invariant = { λ t. IsTable t.rows.items t.uses.items };
}

/// The first of these rows that doesn't let a lever move to its other end.
fn first_holder(rows: &[Row], ends: &[End], lever: u32) -> Option<Holder>
    requires few { length rows.now < 2 ^ 32 }
    requires rows { All (RowFits (length ends.now)) rows.now }
    requires lever { IsLever (length ends.now) lever }
    ensures { result ≡ first_holder ends.now lever 1 rows.now }
{
    for (i, row) in rows.iter().enumerate() {
        if !row.allows(ends, lever) {
            return Some(Holder {
                lever: row.holding_lever(lever),
                row: i as u32 + 1,
            });
        }
    }
    None
}

fn rows_fit(rows: &[Row], levers: u32) -> bool
    ensures { IsTrue result ↔ All (RowFits levers) rows.now }
{
    rows.iter().all(|row| row.fits(levers))
}

fn rows_hold(rows: &[Row], ends: &[End]) -> bool
    requires { All (RowFits (length ends.now)) rows.now }
    ensures { IsTrue result ↔ All (RowHolds (at_ends ends.now)) rows.now }
{
    rows.iter().all(|row| row.holds_at_ends(ends))
}

impl Table {
    /// A table without rows. It keeps the allocator and takes no memory.
    pub fn new(alloc: Global) -> Self
        ensures { result ≡ [] }
    {
        Table {
            rows: Vec::new(alloc),
            uses: Vec::new(alloc),
        }
    }

    /// Adds a row behind the others. The table is unchanged where memory ran out.
    pub fn push(&mut self, row: Row) -> Result<(), NoMemory>
        requires few { length self.old < 2 ^ 32 - 1 }
        requires row { IsRow row }
        ensures ok { OnOk result (self.new ≡ self.old ++ row ∷ []) }
        ensures err { OnErr result (self.new ≡ self.old) }
    {
        let alloc = *self.rows.allocator();
        let number = self.rows.len();
        self.rows.push(row)?;
        match file_row(&mut self.uses, alloc, &self.rows[number], number as u32) {
            Ok(()) => Ok(()),
            Err(_) => {
                let _row = self.rows.pop();
                Err(NoMemory)
            }
        }
    }

    /// The rows in table order.
    pub fn rows(&self) -> &[Row]
        ensures rows { result.now ≡ self.now }
        ensures each { All IsRow self.now }
        ensures few { length self.now < 2 ^ 32 }
    {
        &self.rows
    }

    /// The number of rows.
    pub fn len(&self) -> usize
        ensures len { result ≡ length self.now }
        ensures few { result < 2 ^ 32 }
    {
        self.rows.len()
    }

    /// Whether the table has no rows.
    pub fn is_empty(&self) -> bool
        ensures { result ≡ (length self.now == 0) }
    {
        self.rows.is_empty()
    }

    /// Whether a frame of levers 1 to `levers` has each lever that the rows name.
    pub fn fits(&self, levers: u32) -> bool
        ensures { IsTrue result ↔ All (RowFits levers) self.now }
    {
        rows_fit(&self.rows, levers)
    }

    /// Whether every row holds with the levers at these ends: that of lever 1 stands first.
    pub fn all_hold(&self, positions: &[End]) -> bool
        requires { All (RowFits (length positions.now)) self.now }
        ensures { IsTrue result ↔ All (RowHolds (at_ends positions.now)) self.now }
    {
        rows_hold(&self.rows, positions)
    }

    /// The number, from 1, of the first row that doesn't let a lever move to its other end: the row fails
    /// with the lever at mid or at its new end. `None` exactly where every row lets it move.
    ///
    /// `positions[n - 1]` is where lever n stands.
    #[tactic(auto, using(crate::proofs::Holding::holder_rules))]
    pub fn holder(&self, positions: &[End], lever: u32) -> Option<u32>
        requires lever { IsLever (length positions.now) lever }
        requires rows { All (RowFits (length positions.now)) self.now }
        ensures row { result ≡ option_map (λ h. h.row) (holder_of positions.now lever self.now) }
        ensures free { IsNone result ↔ MayMove positions.now lever self.now }
    {
        self.named_holder(positions, lever).map(|holder| holder.row)
    }

    /// The holder as `holder` gives it, with the lever that its row names: `None` exactly where every row lets the
    /// lever move.
    #[tactic(auto, using(crate::proofs::Holding::holder_rules))]
    pub fn named_holder(&self, positions: &[End], lever: u32) -> Option<Holder>
        requires lever { IsLever (length positions.now) lever }
        requires rows { All (RowFits (length positions.now)) self.now }
        ensures holder { result ≡ holder_of positions.now lever self.now }
        ensures free { IsNone result ↔ MayMove positions.now lever self.now }
    {
        first_holder(&self.rows, positions, lever)
    }

    /// The holder as `named_holder` gives it, where every row holds in the positions. Only the rows that may hold
    /// the lever are read: where it holds, any other lets the lever move.
    pub fn holder_among_its_rows(&self, positions: &[End], lever: u32) -> Option<Holder>
        requires lever { IsLever (length positions.now) lever }
        requires rows { All (RowFits (length positions.now)) self.now }
        requires hold { All (RowHolds (at_ends positions.now)) self.now }
        ensures { result ≡ holder_of positions.now lever self.now }
    {
        first_of(&self.rows, uses_of(&self.uses, lever), positions, lever)
    }
}
