//! What is seen of a line, thing by thing.

use crate::walk::Spot;
use bell_codes::CodeNo;
use block_words::{Position, Way};
use line_plan::{Kind, To};

/// A thing of a line as it stands. Boxes and places are numbered from 0, trains from 1; a section is known by its way
/// and the box in its rear.
#[derive(Clone, Copy, Debug, PartialEq, Eq)]
pub enum Shown {
    /// A place of a box, where it stands in the box's diagram, and the train on it.
    Place {
        box_no: u32,
        place: u32,
        spot: Spot,
        train: Option<u32>,
    },
    /// The arm of a signal that stands at a place of a box: the lever that works it, where it leads, how many arms
    /// stand above it on that post, and whether it is off.
    Arm {
        box_no: u32,
        lever: u32,
        spot: Spot,
        rank: u32,
        to: To,
        is_off: bool,
    },
    /// A lever of a box, and whether it is reversed.
    Lever {
        box_no: u32,
        number: u32,
        kind: Kind,
        is_reversed: bool,
    },
    /// What the instrument of a section shows.
    Instrument {
        rear: u32,
        way: Way,
        position: Position,
    },
    /// The code that stands unheard on the bell that a box rings to the next one of this way.
    Bell {
        rear: u32,
        way: Way,
        unheard: Option<CodeNo>,
    },
    /// The train that is so far behind the first one on the plain line of a section, and whether it is a portion that
    /// was left there.
    OnLine {
        rear: u32,
        way: Way,
        behind: u32,
        train: Option<u32>,
        is_portion: bool,
    },
}
