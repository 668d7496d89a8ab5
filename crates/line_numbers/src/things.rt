//! What stands at a box, in numbers.

ghost use Rattle.std.specs.Prelude.{◌≡◌};
ghost use Rattle.line_numbers.specs.ThingParts.{arm_number, thing_as, thing_numbers, track_numbers};

use crate::parts::{code_if, mark_number, position_number, train_if, way_number};
use look_records::{BoxThing, LineTrains};

/// A thing that stands at a box, in numbers. A field that it doesn't have is 0.
///
/// | `kind` | The thing | `number` | `state` | Further |
/// |---|---|---|---|---|
/// | 0 | a lever | its number | 0 normal, 1 reversed | `arm` |
/// | 1 | a place | from 0 in the box | the train on it, 0 for none | |
/// | 2 | a bell | the way | the code that stands unheard, 0 for none | |
/// | 3 | a plain line that comes in | the way | 1 where the first train is a left portion | the trains |
/// | 4 | a block instrument | the way | the position | |
#[repr(C)]
#[derive(Clone, Copy, Debug, PartialEq, Eq)]
pub struct ThingNumbers {
    /// Which kind of thing it is.
    pub kind: u32,
    /// Which of its kind it is.
    pub number: u32,
    /// How it stands.
    pub state: u32,
    /// The arm of a lever: 0 where there is none, 1 on, which is at danger, 2 off.
    pub arm: u32,
    /// The first train on a plain line, 0 for none.
    pub first: u32,
    /// The second train, 0 for none.
    pub second: u32,
    /// The third train, 0 for none.
    pub third: u32,
    /// The fourth train, 0 for none.
    pub fourth: u32,
}

// The number of an arm, whether it is off, where there is one.
fn arm_number(arm: Option<bool>) -> u32
    ensures { result ≡ arm_number arm }
{
    match arm {
        Some(true) => 2,
        Some(false) => 1,
        None => 0,
    }
}

// A thing of that kind, with no arm and no trains.
fn thing_as(kind: u32, number: u32, state: u32) -> ThingNumbers
    ensures { result ≡ thing_as kind number state }
{
    ThingNumbers {
        kind,
        number,
        state,
        arm: 0,
        first: 0,
        second: 0,
        third: 0,
        fourth: 0,
    }
}

// A plain line with its trains.
fn track_numbers(number: u32, trains: LineTrains, is_portion: bool) -> ThingNumbers
    ensures { result ≡ track_numbers number trains is_portion }
{
    ThingNumbers {
        first: train_if(trains.first),
        second: train_if(trains.second),
        third: train_if(trains.third),
        fourth: train_if(trains.fourth),
        ..thing_as(3, number, mark_number(is_portion))
    }
}

/// The numbers of a thing that stands at a box.
pub fn thing_numbers(thing: &BoxThing) -> ThingNumbers
    ensures { result ≡ thing_numbers thing.now }
{
    match *thing {
        BoxThing::Lever {
            number,
            is_reversed,
            arm,
        } => ThingNumbers {
            arm: arm_number(arm),
            ..thing_as(0, number, mark_number(is_reversed))
        },
        BoxThing::Place { place, train } => thing_as(1, place, train_if(train)),
        BoxThing::Bell { way, unheard } => thing_as(2, way_number(way), code_if(unheard)),
        BoxThing::Line {
            way,
            trains,
            is_portion,
        } => track_numbers(way_number(way), trains, is_portion),
        BoxThing::Block { way, position } => {
            thing_as(4, way_number(way), position_number(position))
        }
    }
}
