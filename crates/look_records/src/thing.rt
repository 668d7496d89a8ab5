//! What stands at a box, thing by thing.

use bell_codes::CodeNo;
use block_words::{Position, Way};

/// A thing of a box as it stands. Places are numbered from 0, trains from 1; a line that comes in is known by its way.
#[derive(Clone, Copy, Debug)]
pub enum BoxThing {
    /// A lever, whether it is reversed, and where it works a signal whether the arm is off.
    Lever {
        number: u32,
        is_reversed: bool,
        arm: Option<bool>,
    },
    /// A place, and the train on it.
    Place {
        place: u32,
        train: Option<u32>,
    },
    /// The bell that the box in the rear rings, and the code that stands unheard on it.
    Bell {
        way: Way,
        unheard: Option<CodeNo>,
    },
    /// The instrument of a line that comes in, and what it shows.
    Block {
        way: Way,
        position: Position,
    },
    /// The trains on the plain line that comes in, the first first, and whether that is a portion that was left there.
    Line {
        way: Way,
        trains: LineTrains,
        is_portion: bool,
    },
}

/// The trains on a plain line, of which there are four at most, the first first.
#[derive(Clone, Copy, Debug, PartialEq, Eq)]
pub struct LineTrains {
    pub first: Option<u32>,
    pub second: Option<u32>,
    pub third: Option<u32>,
    pub fourth: Option<u32>,
}

/// A kind of things.
#[derive(Clone, Copy, Debug, PartialEq, Eq)]
pub enum ThingKind {
    Lever,
    Place,
    Bell,
    Block,
    Line,
}
