//! Why no row is read of a text.

use crate::memory::NoMemory;

/// Why a text spells no row.
#[derive(Clone, Copy, Debug, PartialEq, Eq, Hash)]
pub enum RowFault {
    /// The text is off the grammar of rows: no row's text goes on with the word of this number, from 1. It is
    /// one past the last word where the text ends too early.
    BadRow { word: u32 },
    /// A row's text that names a lever twice.
    SameLever,
}

/// Why no row is read of a text: what is wrong with it, or want of memory.
#[derive(Clone, Copy, Debug, PartialEq, Eq, Hash)]
pub enum RowError {
    /// The text is off the grammar of rows: no row's text goes on with the word of this number, from 1. It is
    /// one past the last word where the text ends too early.
    BadRow { word: u32 },
    /// A row's text that names a lever twice.
    SameLever,
    /// The text spells a row, and memory ran out.
    NoMemory,
}

impl From<RowFault> for RowError {
    ghost use Rattle.std.specs.Prelude.{◌≡◌};
    ghost use Rattle.locking_table.specs.Spelled.{as_error};

    ghost from_gives = { λ fault e. e ≡ as_error fault };

    fn from(fault: RowFault) -> RowError {
        match fault {
            RowFault::BadRow { word } => RowError::BadRow { word },
            RowFault::SameLever => RowError::SameLever,
        }
    }
}

impl From<NoMemory> for RowError {
    ghost use Rattle.std.specs.Prelude.{◌≡◌};
    ghost use Rattle.locking_table.specs.declared.fault.RowError.TheVariants as errors;

    ghost from_gives = { λ _ e. e ≡ errors.NoMemory };

    fn from(_: NoMemory) -> RowError {
        RowError::NoMemory
    }
}
