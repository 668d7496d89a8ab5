//! The levers that a frame has, numbered from 1 in their order, and its rows by these numbers. So a lever that isn't
//! there, as a spare one, is in no state.

ghost use Rattle.std.specs.Prelude.{◌≡◌, ◌≤◌, ◌<◌, ◌==◌, IfOk, IfSome, length, map, position};
ghost use Rattle.locking_table.specs.Places.{most_levers};
ghost use Rattle.frame_report.specs.Frame.{IsFrameOf, cond_in, place_of, row_in};

use locking_table::{Cond, Conds, NoMemory, Row, Table};
use std::alloc::Global;

// The place, from 0, of a lever among those that a frame has.
fn position_of(numbers: &[u32], lever: u32) -> Option<usize>
    ensures position { result ≡ position (λ number. number == lever) numbers.now }
    ensures within { IfSome result (λ at. at < length numbers.now) }
{
    numbers.iter().position(|number| *number == lever)
}

/// The place, from 1, of a lever among those that a frame has; 0 where it hasn't it.
pub fn place_of(numbers: &[u32], lever: u32) -> u32
    requires { length numbers.now ≤ most_levers }
    ensures place { result ≡ place_of numbers.now lever }
    ensures small { result ≤ length numbers.now }
{
    match position_of(numbers, lever) {
        Some(at) => at as u32 + 1,
        None => 0,
    }
}

fn cond_in(numbers: &[u32], cond: &Cond) -> Cond
    requires { length numbers.now ≤ most_levers }
    ensures { result ≡ cond_in numbers.now cond.now }
{
    Cond {
        lever: place_of(numbers, cond.lever),
        end: cond.end,
    }
}

fn conds_in(numbers: &[u32], conds: &[Cond]) -> Conds
    requires numbers { length numbers.now ≤ most_levers }
    requires conds { length conds.now ≤ 2 }
    ensures { result ≡ map (cond_in numbers.now) conds.now }
{
    match conds {
        [] => Conds::none(),
        [only] => Conds::one(cond_in(numbers, only)),
        [first, second, ..] => Conds::both(cond_in(numbers, first), cond_in(numbers, second)),
    }
}

/// A row by the places of its levers.
pub fn row_in(numbers: &[u32], row: &Row) -> Row
    requires { length numbers.now ≤ most_levers }
    ensures { result ≡ row_in numbers.now row.now }
{
    Row {
        subject: place_of(numbers, row.subject),
        kind: row.kind,
        object: place_of(numbers, row.object),
        when: conds_in(numbers, row.when.as_slice()),
    }
}

/// The locking table by the places of the levers; none where a row names a lever that the frame hasn't.
pub fn frame_of(alloc: Global, numbers: &[u32], table: &Table) -> Result<Option<Table>, NoMemory>
    requires { length numbers.now ≤ most_levers }
    ensures { IfOk result (IsFrameOf numbers.now table.now) }
{
    let levers = numbers.len() as u32;
    let mut frame = Table::new(alloc);
    for row in table.rows() {
        let own = row_in(numbers, row);
        if !own.is_spelled() | !own.fits(levers) {
            drop(frame);
            return Ok(None);
        }
        frame.push(own)?;
    }
    Ok(Some(frame))
}
