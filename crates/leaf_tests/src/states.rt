//! Reports on the states of small frames. What they must say was worked out apart, by a slow program that keeps sets of
//! states and tries each frame again without each row, and read through by hand.

use crate::facts::all_hold;
use crate::walks::table_of;
use frame_report::{StatesFault, StatesWanted, states_report};
use std::alloc::Global;
use std::process::Abort;

const JUNCTION: [&str; 8] = [
    "1 released by 3",
    "1 locks 2 normal",
    "3 locks 2 both ways",
    "4 released by 2",
    "4 released by 3",
    "4 locks 1 normal",
    "9 released by 1",
    "9 locks 4 normal",
];

const WHOLE: &str = "states Elm
by the locking table alone: tracks and instruments are left out, as if clear and free
this is no proof of a layout's safety
states that were walked: 14
these are all that can be reached
reversed together: . they can be, x never
              1
    1 2 3 4 9 2
  1 .
  2 x .
  3 . . .
  4 x . . .
  9 . x . x .
 12 . . . . . .
each row that is redundant is so while all others stay
row 6 is redundant: 4 locks 1 normal
    rows 2 4 together hold as much
row 8 is redundant: 9 locks 4 normal
    rows 4 7 together hold as much
reach 4
    pull 2
    pull 3
    pull 4
never 1 4
    no sequence of pulls and puts reverses them together
";

const SHORT: &str = "states Elm
by the locking table alone: tracks and instruments are left out, as if clear and free
this is no proof of a layout's safety
states that were walked: 5
not all states were walked, and of those that are left nothing is said
reversed together: . they can be, x never, ? not found
              1
    1 2 3 4 9 2
  1 .
  2 x .
  3 . . .
  4 x . . .
  9 . x . x .
 12 . . . . . .
levers 1 2 never, by rows 2
levers 1 4 never, by rows 2 4
levers 2 9 never, by rows 2 7
levers 4 9 never, by rows 6 7
reach 4
    found beside the walk; there may be a shorter sequence
    pull 2
    pull 3
    pull 4
never 1 4
    never, by rows 2 4
";

const FROZEN: [&str; 4] = [
    "1 released by 2",
    "2 released by 1",
    "3 released by 1",
    "3 released by 1",
];

const THREE: &str = "states Elm
by the locking table alone: tracks and instruments are left out, as if clear and free
this is no proof of a layout's safety
states that were walked: 1
these are all that can be reached
lever 1 can never be reversed
    row 1 holds it in every state: 1 released by 2
    round the rows 1 2
lever 2 can never be reversed
    row 2 holds it in every state: 2 released by 1
    round the rows 2 1
lever 3 can never be reversed
    row 3 holds it in every state: 3 released by 1
    row 4 holds it in every state: 3 released by 1
    round the rows 1 2
reversed together: . they can be, x never
    1 2 3
  1 x
  2 x x
  3 x x x
each row that is redundant is so while all others stay
row 3 is redundant: 3 released by 1
    row 4 holds all that it holds: 3 released by 1
row 4 is redundant: 3 released by 1
    row 3 holds all that it holds: 3 released by 1
reach 2
    no sequence of pulls and puts reverses them together
never 1 2
    no sequence of pulls and puts reverses them together
";

// The report on a frame of these levers and rows.
fn report(
    rt: &impl Abort,
    alloc: Global,
    numbers: &[u32],
    rows: &[&str],
    limit: u32,
    asked: (u32, u32),
) -> Result<String, StatesFault> {
    let (one, other) = asked;
    let wanted = StatesWanted {
        limit,
        reach: vec![in alloc; other]?,
        never: Vec::from_array(alloc, [one, other])?,
    };
    let table = table_of(rt, alloc, rows);
    assert!(rt; numbers.len() <= 120 && 1 <= limit);
    states_report(alloc, "Elm", numbers, &table, &wanted)
}

// Whether it is this text.
fn is_text(report: &Result<String, StatesFault>, text: &str) -> bool {
    match report {
        Ok(made) => made.as_str() == text,
        Err(_) => false,
    }
}

#[test]
fn a_report_says_what_a_slow_program_finds(rt: HostRuntime) {
    let alloc = rt.alloc();
    let levers = [1, 2, 3, 4, 9, 12];
    let whole = report(&rt, alloc, &levers, &JUNCTION, 100, (1, 4));
    let short = report(&rt, alloc, &levers, &JUNCTION, 5, (1, 4));
    let frozen = report(&rt, alloc, &[1, 2, 3], &FROZEN, 100, (1, 2));
    let missing = report(&rt, alloc, &levers, &JUNCTION, 100, (1, 5));
    let unknown = report(&rt, alloc, &[1, 2, 4], &JUNCTION, 100, (1, 2));
    all_hold(
        &rt,
        &[
            ("a junction", is_text(&whole, WHOLE)),
            ("cut short", is_text(&short, SHORT)),
            ("three levers are frozen", is_text(&frozen, THREE)),
            ("no lever 5", missing.err() == Some(StatesFault::NoLever(5))),
            ("no lever 3", unknown.err() == Some(StatesFault::BadRow)),
        ],
    );
}
