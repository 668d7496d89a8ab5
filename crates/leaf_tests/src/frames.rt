//! Bridles: those that a frame can have, and where they are seated.

use crate::facts::{all_hold, are_equal, hold};
use bridle_frame::{Bridle, Dog, Dogs, Frame, Notches, Shift};
use locking_table::{End, Stand};
use std::alloc::{AllocError, Global};
use std::process::Abort;
use std::slice;

/// A bridle of this row, with these dogs.
pub fn bridle(alloc: Global, row: u32, dogs: &[(u32, Notches)]) -> Result<Bridle, AllocError> {
    let mut made = Vec::new(alloc);
    for (lever, notches) in dogs {
        made.push(Dog {
            lever: *lever,
            notches: *notches,
        })?;
    }
    Ok(Bridle {
        dogs: Dogs::from_vec(made),
        row,
    })
}

fn is_accepted(rt: &impl Abort, alloc: Global, dogs: &[(u32, Notches)]) -> bool {
    let bar = bridle(alloc, 1, dogs).expect(rt, "memory");
    Frame::accepts(8, slice::from_ref(&bar))
}

const UNFIT: [(&str, &[(u32, Notches)]); 6] = [
    (
        "a lever past the last",
        &[(1, Notches::Normal), (9, Notches::Normal)],
    ),
    ("lever 0", &[(0, Notches::Normal), (2, Notches::Normal)]),
    ("a lever twice", &[(3, Notches::Normal), (3, Notches::Both)]),
    (
        "not seated at first",
        &[(3, Notches::Reversed), (4, Notches::Reversed)],
    ),
    ("one dog", &[(3, Notches::Normal)]),
    (
        "five dogs",
        &[
            (1, Notches::Normal),
            (2, Notches::Normal),
            (3, Notches::Normal),
            (4, Notches::Normal),
            (5, Notches::Normal),
        ],
    ),
];

#[test]
fn bridles_that_no_frame_can_have(rt: HostRuntime) {
    for (fault, dogs) in UNFIT.iter() {
        hold(&rt, fault, !is_accepted(&rt, rt.alloc(), dogs));
    }
}

fn compare(rt: &impl Abort, bar: &Bridle, other: &Bridle) {
    let ends = [End::Normal, End::Reversed];
    assert!(rt; bar.fits(2) && other.fits(2));
    all_hold(
        rt,
        &[
            ("a bridle is itself", are_equal(bar, bar)),
            ("dogs differ", !are_equal(&bar.dogs, &other.dogs)),
            (
                "a shift is itself",
                are_equal(&Shift::Shifted, &Shift::Shifted),
            ),
            ("lever 2 lies past the last", !bar.fits(1)),
            ("not seated", !bar.is_seated(&ends, 1, Stand::AtMid)),
            ("seated", other.is_seated(&ends, 1, Stand::AtMid)),
            ("no dog lies", bar.lying_dogs(&ends) == 0),
            ("one dog lies", other.lying_dogs(&ends) == 1),
            ("what holds lever 1", other.holding_lever(1) == 2),
            ("what holds lever 2", other.holding_lever(2) == 1),
        ],
    );
}

#[test]
fn bridles_compare(rt: HostRuntime) {
    let dogs = [(1, Notches::Reversed), (2, Notches::Normal)];
    let others = [(1, Notches::Reversed), (2, Notches::Both)];
    let bar = bridle(rt.alloc(), 4, &dogs).expect(&rt, "memory");
    let other = bridle(rt.alloc(), 4, &others).expect(&rt, "memory");
    compare(&rt, &bar, &other);
    drop(other);
    let count = bar.dogs.into_vec().len();
    assert!(rt; count == 2);
}
