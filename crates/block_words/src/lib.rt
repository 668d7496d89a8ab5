//! The shared words of a line of signal boxes: what a bell, a block instrument and the plain line of a section hold,
//! each packed into one 64-bit word, and what each operation makes of the word that it meets.
//!
//! | Word | Its number |
//! |---|---|
//! | bell | `256 * count + code`, code 0 where none stands unheard |
//! | block instrument | `8 * turns + 4 * spent + position`, with Normal 0, Line Clear 1, Train on Line 2 |
//! | section | four lanes of 16 bits, lane 0 lowest; the i-th train to enter stands in lane `i mod 4`, 0 for empty |
#![tactic(auto)]

ghost use Rattle.std.specs.Prelude.{◌≡◌};
ghost use Rattle.block_words.specs.Ways.{opposite};

pub mod bells;
pub mod instruments;
pub mod sections;
pub mod tallies;

pub use bells::{COUNT_MASK, bell_code, bell_count, bell_word};
pub use instruments::{SPENT_BIT, block_position, block_spent, block_turns, block_word};
pub use sections::{lane, lane_bits, lane_mask};

/// A way along the line: `Up` towards lower box numbers, `Down` towards higher ones.
///
/// It names a side of a box, and a line that comes in or goes out there.
#[derive(Clone, Copy, Debug, PartialEq, Eq)]
pub enum Way {
    Up,
    Down,
}

impl Way {
    /// The other way.
    pub fn opposite(self) -> Way
        ensures { result ≡ opposite self }
    {
        match self {
            Way::Up => Way::Down,
            Way::Down => Way::Up,
        }
    }
}

/// What a block instrument shows: the box in advance turns it, and the box in the rear sees its repeater.
#[derive(Clone, Copy, Debug, PartialEq, Eq)]
pub enum Position {
    /// No train is offered or in the section.
    Normal,
    /// The box in advance has accepted a train.
    LineClear,
    /// A train is in the section.
    TrainOnLine,
}

/// How far the Welwyn control of an absolute line has come: a second Line Clear is given only once the berth
/// has been occupied and cleared.
#[derive(Clone, Copy, Debug, PartialEq, Eq)]
pub enum WelwynState {
    /// Line Clear may be given.
    Ready,
    /// Line Clear was given, and its train has not come to the berth.
    Given,
    /// The train stands in the berth.
    Berthed,
}

/// One operation on one shared word, at which a call of a signalman is decided.
///
/// `side` names the neighbour of a bell, `way` the line of an instrument or a section.
#[derive(Clone, Copy, Debug, PartialEq, Eq)]
pub enum WordOp {
    /// Adds 1 to the tally of the box's own calls.
    Local,
    /// Puts `new` in place of `expect`, and leaves any other word.
    Ring { side: Way, expect: u64, new: u64 },
    /// Takes the code off a bell and keeps its count.
    Hear { side: Way },
    /// Reads a bell.
    LookBell { side: Way },
    /// Puts `new` in place of any word of an instrument.
    Turn { way: Way, new: u64 },
    /// Marks an instrument as spent.
    Pull { way: Way },
    /// Reads an instrument.
    LookBlock { way: Way },
    /// Reads a section.
    LookSection { way: Way },
    /// Adds the bits of a train's lane to a section.
    Enter { way: Way, bits: u64 },
    /// Keeps the bits of `mask` of a section, and so empties the lane that it leaves out.
    TakeOut { way: Way, mask: u64 },
}
