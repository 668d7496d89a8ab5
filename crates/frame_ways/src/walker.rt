//! A walker, who moves one lever after another as a table allows.

ghost use Rattle.std.specs.Prelude.{◌≡◌};
ghost use Rattle.frame_ways.specs.Walkers.{WalkerFields};

use locking_table::{Cond, End, Holder, NoMemory, Table, end_of};
use std::alloc::Global;
use std::marker::Model;

/// A walker on his way from all levers normal: the ends at which the levers stand, and the levers that he has moved.
#[derive(Drop)]
pub(crate) struct Walker<'a> {
    table: &'a Table,
    ends: Vec<End>,
    path: Vec<u32>,
}

impl<'a> Model for Walker<'a> {
    ghost use Rattle.frame_ways.specs.Walkers.{IsWalker, WalkerFields};

    ghost Value = { WalkerFields };

    ghost view = { λ w. record { rows = w.table.now; ends = w.ends.items; path = w.path.items } };

    ghost invariant = { λ w. IsWalker w.table.now w.ends.items w.path.items };
}

impl<'a> Walker<'a> {
    ghost use Rattle.std.specs.Prelude.{◌≡◌, ◌≤◌, ◌↔◌, All, IfOk, IfSome, IsTrue, List, None, ℕ, length};
    ghost use Rattle.locking_table.specs.Places.{IsLever, end_at, most_levers};
    ghost use Rattle.locking_table.specs.Sound.{RowFits};
    ghost use Rattle.frame_walk.specs.States.{CanMove};
    ghost use Rattle.frame_ways.specs.Ways.{IsWay};
    ghost use Rattle.frame_findings.specs.Findings.{AreReversed};

    /// He stands where all levers of a frame are normal.
    pub(crate) fn start(
        alloc: Global,
        table: &'a Table,
        levers: u32,
    ) -> Result<Walker<'a>, NoMemory>
        requires levers { levers ≤ most_levers }
        requires rows { All (RowFits levers) table.now }
        ensures { IfOk result (λ walker. (walker.rows ≡ table.now) × (length walker.ends ≡ levers)) }
    {
        let ends = vec![in alloc; End::Normal; levers as usize]?;
        let path = Vec::new(alloc);
        Ok(Walker { table, ends, path })
    }

    /// Whether the frame has this lever.
    pub(crate) fn has_lever(&self, lever: u32) -> bool
        ensures { IsTrue result ↔ IsLever (length self.now.ends) lever }
    {
        1 <= lever && lever as usize <= self.ends.len()
    }

    /// Whether a lever stands at the end that a condition names.
    pub(crate) fn stands(&self, cond: Cond) -> bool
        requires { IsLever (length self.now.ends) cond.lever }
        ensures { IsTrue result ↔ (end_at self.now.ends cond.lever ≡ cond.end) }
    {
        end_of(&self.ends, cond.lever) == cond.end
    }

    // Moves a lever to its other end, as the table allows it.
    fn move_lever(&mut self, lever: u32) -> Result<(), NoMemory>
        requires { CanMove self.old.rows self.old.ends lever }
        ensures rows { self.new.rows ≡ self.old.rows }
        ensures levers { length self.new.ends ≡ length self.old.ends }
    {
        let end = end_of(&self.ends, lever).other();
        self.path.push(lever)?;
        self.ends[lever as usize - 1] = end;
        Ok(())
    }

    /// Moves a lever to its other end, where the table allows it; else it is told what holds it.
    #[tactic(auto, using(locking_table::proofs::Holding::held_by_none))]
    pub(crate) fn try_move(&mut self, lever: u32) -> Result<Option<Holder>, NoMemory>
        requires { IsLever (length self.old.ends) lever }
        ensures rows { self.new.rows ≡ self.old.rows }
        ensures levers { length self.new.ends ≡ length self.old.ends }
    {
        match self.table.holder_among_its_rows(&self.ends, lever) {
            Some(holder) => Ok(Some(holder)),
            None => {
                self.move_lever(lever)?;
                Ok(None)
            }
        }
    }

    /// The table by which he goes.
    pub(crate) fn table(&self) -> &Table
        ensures { result.now ≡ self.now.rows }
    {
        self.table
    }

    /// The first of these levers that isn't reversed yet.
    pub(crate) fn first_normal(&self, levers: &[u32]) -> Option<u32>
        requires { All (IsLever (length self.now.ends)) levers.now }
        ensures none { result ≡ None → AreReversed levers.now self.now.ends }
        ensures some { IfSome result (IsLever (length self.now.ends)) }
    {
        for lever in levers {
            match end_of(&self.ends, *lever) {
                End::Normal => return Some(*lever),
                End::Reversed => {}
            }
        }
        None
    }

    /// The levers that he has moved.
    pub(crate) fn into_path(self) -> Vec<u32>
        ensures { (reversed : List ℕ) → AreReversed reversed self.entry.ends
            → IsWay self.entry.rows (length self.entry.ends) reversed result.items }
    {
        self.path
    }
}
