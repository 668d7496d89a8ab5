//! Why no report is made.

use locking_table::NoMemory;
use std::alloc::{AllocError, AllocFailed};

/// Why no report of a frame's states is made.
#[derive(Clone, Copy, Debug, PartialEq, Eq)]
pub enum StatesFault {
    /// A row names a lever that the frame hasn't.
    BadRow,
    /// The frame hasn't this lever, of which something is asked.
    NoLever(u32),
    /// Memory ran out.
    NoMemory,
}

impl From<NoMemory> for StatesFault {
    ghost use Rattle.std.specs.Prelude.{◌≡◌};
    ghost use Rattle.frame_report.specs.declared.fault.StatesFault.TheVariants as faults;

    ghost from_gives = { λ _ e. e ≡ faults.NoMemory };

    fn from(_: NoMemory) -> StatesFault {
        StatesFault::NoMemory
    }
}

impl From<AllocError> for StatesFault {
    ghost use Rattle.std.specs.Prelude.{◌≡◌};
    ghost use Rattle.frame_report.specs.declared.fault.StatesFault.TheVariants as faults;

    ghost from_gives = { λ _ e. e ≡ faults.NoMemory };

    fn from(_: AllocError) -> StatesFault {
        StatesFault::NoMemory
    }
}

impl<T: Drop> From<AllocFailed<T>> for StatesFault {
    ghost use Rattle.std.specs.Prelude.{◌≡◌};
    ghost use Rattle.frame_report.specs.declared.fault.StatesFault.TheVariants as faults;

    ghost from_gives = { λ _ e. e ≡ faults.NoMemory };

    fn from(_: AllocFailed<T>) -> StatesFault {
        StatesFault::NoMemory
    }
}
