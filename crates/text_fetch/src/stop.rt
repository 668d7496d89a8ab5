//! Why no output could be made.

ghost use Rattle.std.specs.Prelude.{◌≡◌};
ghost use Rattle.text_fetch.specs.declared.stop.Stop.TheVariants.{NoMemory as memory};

use rail_text::{Cause, NoMemory};
use std::alloc::{AllocError, AllocFailed};

/// Why no output could be made.
#[derive(Clone, Copy, Debug, PartialEq, Eq)]
pub enum Stop {
    /// The shelf failed to fetch a text.
    ShelfFault,
    /// A text is refused, the plan being text 1 and the script of the first box text 2, for what is wrong with that
    /// line, from 1. Line 0 is the whole text, or the number of scripts.
    Refused { text: u32, line: u32, cause: Cause },
    /// Memory ran out.
    NoMemory,
}

impl From<NoMemory> for Stop {
    ghost from_gives = { λ _ e. e ≡ memory };

    fn from(_: NoMemory) -> Stop {
        Stop::NoMemory
    }
}

impl From<AllocError> for Stop {
    ghost from_gives = { λ _ e. e ≡ memory };

    fn from(_: AllocError) -> Stop {
        Stop::NoMemory
    }
}

impl<T: Drop> From<AllocFailed<T>> for Stop {
    ghost from_gives = { λ _ e. e ≡ memory };

    fn from(_: AllocFailed<T>) -> Stop {
        Stop::NoMemory
    }
}
