//! Whether rows refute that levers are ever reversed together.

ghost use Rattle.std.specs.Prelude.{◌≡◌, IfOk, IsTrue, List, Some, ℕ};
ghost use Rattle.locking_table.specs.declared.places.End.{End};
ghost use Rattle.locking_table.specs.Meaning.{RowHolds};
ghost use Rattle.locking_table.specs.Places.{at_ends, end_at};
ghost use Rattle.row_refutations.specs.Known.{Agrees};
ghost use Rattle.row_refutations.specs.Refuted.{HoldIn, Refute};
ghost use Rattle.frame_findings.specs.Findings.{AreReversed};

use crate::known::Said;
use crate::saying::row_said;
use locking_table::{Cond, End, NoMemory, Row};
use std::alloc::Global;

// What comes of going over the rows once.
#[derive(Clone, Copy, Debug, PartialEq, Eq)]
enum Passed {
    // A row is broken.
    Broken(usize),
    // More is known.
    Onward,
    // No more is known than before.
    Still,
}

// A lever is known to stand at an end. Where it is told by a row, the row's place is noted, from 1.
#[tactic(auto, using(crate::proofs::RowsSay::agrees_set))]
fn note(known: &mut [Option<End>], reasons: &mut [usize], at: Cond, reason: usize)
    ensures { (state : List End) → end_at state at.lever ≡ at.end → Agrees known.old state → Agrees known.new state }
{
    let place = at.lever.saturating_sub(1) as usize;
    if place < known.len() {
        known[place] = Some(at.end);
    }
    if place < reasons.len() {
        reasons[place] = reason;
    }
}

// What comes of one row.
#[derive(Clone, Copy, Debug, PartialEq, Eq)]
enum Heard {
    Nothing,
    Broken,
    More,
}

// What a row at a place says is known from there on.
#[tactic(auto, using(crate::proofs::RowsSay::said_broken, crate::proofs::RowsSay::said_forces))]
fn hear(known: &mut [Option<End>], reasons: &mut [usize], row: &Row, at: usize) -> Heard
    ensures known { (state : List End) → RowHolds (at_ends state) row.now → Agrees known.old state
        → Agrees known.new state }
    ensures broken { (state : List End) → result ≡ Heard.Broken → RowHolds (at_ends state) row.now
        → ¬ Agrees known.old state }
{
    match row_said(known, row) {
        Said::Nothing => Heard::Nothing,
        Said::Broken => Heard::Broken,
        Said::Forces(cond) => {
            let other = Cond {
                lever: cond.lever,
                end: cond.end.other(),
            };
            note(known, reasons, other, at.saturating_add(1));
            Heard::More
        }
    }
}

// Goes over the rows once: what each says is known from there on.
fn pass(known: &mut [Option<End>], reasons: &mut [usize], rows: &[Row]) -> Passed
    ensures known { (state : List End) → HoldIn rows.now state → Agrees known.old state → Agrees known.new state }
    ensures broken { (state : List End) (at : ℕ) → result ≡ Passed.Broken at → HoldIn rows.now state
        → ¬ Agrees known.old state }
{
    let mut is_more = false;
    for (at, row) in rows.iter().enumerate() {
        match hear(known, reasons, row, at) {
            Heard::Nothing => {}
            Heard::Broken => return Passed::Broken(at),
            Heard::More => is_more = true,
        }
    }
    if is_more {
        Passed::Onward
    } else {
        Passed::Still
    }
}

// These levers are known to be reversed.
fn suppose(known: &mut [Option<End>], reasons: &mut [usize], levers: &[u32])
    ensures { (state : List End) → AreReversed levers.now state → Agrees known.old state → Agrees known.new state }
{
    for lever in levers {
        let reversed = Cond {
            lever: *lever,
            end: End::Reversed,
        };
        note(known, reasons, reversed, 0);
    }
}

// Goes over the rows so often, until one is broken, whose place is told, or no more is known.
fn go_on(
    known: &mut [Option<End>],
    reasons: &mut [usize],
    rows: &[Row],
    rounds: u32,
) -> Option<usize>
    ensures { (state : List End) (at : ℕ) → result ≡ Some at → HoldIn rows.now state → ¬ Agrees known.old state }
{
    for _ in 0..=rounds {
        match pass(known, reasons, rows) {
            Passed::Broken(at) => return Some(at),
            Passed::Onward => {}
            Passed::Still => return None,
        }
    }
    None
}

/// A row that is broken where these levers are reversed, beside what is known.
pub(crate) fn broken_row(
    known: &mut [Option<End>],
    reasons: &mut [usize],
    rows: &[Row],
    reversed: &[u32],
    rounds: u32,
) -> Option<usize>
    ensures { (state : List End) (at : ℕ) → result ≡ Some at → HoldIn rows.now state
        → AreReversed reversed.now state → ¬ Agrees known.old state }
{
    suppose(known, reasons, reversed);
    go_on(known, reasons, rows, rounds)
}

/// Nothing is known of so many levers.
#[tactic(auto, using(crate::proofs::RowsSay::agrees_none, crate::proofs::RowsSay::agrees_push))]
pub(crate) fn unknown(alloc: Global, levers: u32) -> Result<Vec<Option<End>>, NoMemory>
    ensures { IfOk result (λ known. (state : List End) → Agrees known.items state) }
{
    let mut known = Vec::new(alloc);
    for _ in 0..levers {
        known.push(None)?;
    }
    Ok(known)
}

/// Whether rows of a frame of so many levers refute that these levers are ever reversed together: each of the rows
/// holds in every state that can be reached. Where it isn't found, nothing is known.
pub fn refute(alloc: Global, rows: &[Row], levers: u32, reversed: &[u32]) -> Result<bool, NoMemory>
    ensures { IfOk result (λ does. IsTrue does → Refute rows.now reversed.now) }
{
    let mut known = unknown(alloc, levers)?;
    let mut reasons = vec![in alloc; 0usize; levers as usize]?;
    match broken_row(&mut known, &mut reasons, rows, reversed, levers) {
        Some(_) => Ok(true),
        None => Ok(false),
    }
}
