//! The first pair of rows that holds as much as another row.

ghost use Rattle.std.specs.Prelude.{◌≡◌, ◌↔◌, ◌<◌, All, IfOk, IsTrue, length};
ghost use Rattle.locking_table.specs.Sound.{RowFits};
ghost use Rattle.frame_walk.specs.Walked.{IsWalked};
ghost use Rattle.row_covers.specs.Covers.{AreKept};
ghost use Rattle.row_covers.specs.Pairs.{IsPair, IsPairFound, IsPartner};

use crate::covering::cover_together;
use frame_walk::Walk;
use locking_table::NoMemory;
use std::alloc::Global;

/// Two rows, by their places from 0, the first of them first.
#[derive(Clone, Copy, Debug, PartialEq, Eq)]
pub struct RowPair {
    pub one: u32,
    pub two: u32,
}

// Whether two rows are others than the one at a place, and together hold all that it holds.
#[tactic(auto, using(crate::proofs::PairLemmas::first_same, crate::proofs::PairLemmas::second_same))]
fn is_pair(
    alloc: Global,
    walk: &Walk,
    failed: &mut Vec<usize>,
    at: usize,
    one: usize,
    two: usize,
) -> Result<bool, NoMemory>
    requires walked { IsWalked walk.now }
    requires rows { All (RowFits walk.now.levers) walk.now.rows }
    requires failed { AreKept walk.now failed.old.items }
    requires at { at < length walk.now.rows }
    requires one { one < length walk.now.rows }
    requires two { two < length walk.now.rows }
    ensures pair { IfOk result (λ is. IsTrue is ↔ IsPair walk.now at one two) }
    ensures failed { IfOk result (λ _. AreKept walk.now failed.new.items) }
{
    if one == at {
        return Ok(false);
    }
    if two == at {
        return Ok(false);
    }
    let rows = walk.table().rows();
    let cover = cover_together(alloc, walk, failed, &rows[one], &rows[two], &rows[at])?;
    Ok(cover)
}

// The first row behind one with which that one holds all that the row at a place holds.
fn partner_of(
    alloc: Global,
    walk: &Walk,
    failed: &mut Vec<usize>,
    at: usize,
    one: usize,
) -> Result<Option<u32>, NoMemory>
    requires walked { IsWalked walk.now }
    requires rows { All (RowFits walk.now.levers) walk.now.rows }
    requires failed { AreKept walk.now failed.old.items }
    requires at { at < length walk.now.rows }
    requires one { one < length walk.now.rows }
    ensures partner { IfOk result (IsPartner walk.now at one) }
    ensures failed { IfOk result (λ _. AreKept walk.now failed.new.items) }
{
    let count = walk.table().len();
    for two in one + 1..count {
        if is_pair(alloc, walk, failed, at, one, two)? {
            return Ok(Some(two as u32));
        }
    }
    Ok(None)
}

/// The first two other rows that together hold, in each state that a walk keeps, each lever that the row at a place
/// holds there; `None` where no two do.
pub fn pair_in_place(alloc: Global, walk: &Walk, at: usize) -> Result<Option<RowPair>, NoMemory>
    requires walked { IsWalked walk.now }
    requires rows { All (RowFits walk.now.levers) walk.now.rows }
    requires at { at < length walk.now.rows }
    ensures { IfOk result (IsPairFound walk.now at) }
{
    let mut failed = Vec::new(alloc);
    for one in 0..walk.table().len() {
        if let Some(two) = partner_of(alloc, walk, &mut failed, at, one)? {
            return Ok(Some(RowPair {
                one: one as u32,
                two,
            }));
        }
    }
    Ok(None)
}
