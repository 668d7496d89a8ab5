//! Why a text is refused.

use locking_table::NoMemory;
use std::alloc::{AllocError, AllocFailed};

/// Why the text of a locking table is refused.
#[derive(Clone, Copy, Debug, PartialEq, Eq)]
pub enum RowsCause {
    /// A line begins with something else than the number of a lever, from 1 to 120.
    NoLever,
    /// Behind a lever's number no colon stands, or one stands elsewhere.
    Colon,
    /// An item begins with none of `rel`, `locks` and `both`; or `#` isn't followed by a number from 1 to 9999.
    NoVerb,
    /// Where an item names its levers, something else stands.
    NoObject,
    /// Behind `when` or `and` no lever's number stands.
    NoCondition,
    /// Behind the lever of a condition neither `n` nor `r` stands.
    NoEnd,
    /// Behind a condition something else stands than `and` with a second and last one.
    NoMore,
    /// An item ends too early.
    CutShort,
    /// A row names a lever twice.
    SameLever,
}

/// Why no rows are read of a text.
#[derive(Clone, Copy, Debug, PartialEq, Eq)]
pub enum RowsError {
    /// The line, from 1, and what is wrong with it.
    Refused { line: u32, cause: RowsCause },
    /// Memory ran out.
    NoMemory,
}

/// Why a word wasn't taken.
#[derive(Clone, Copy, Debug, PartialEq, Eq)]
pub(crate) enum WordFault {
    /// What is wrong with it.
    Cause(RowsCause),
    /// Memory ran out.
    NoMemory,
}

impl From<NoMemory> for RowsError {
    ghost use Rattle.std.specs.Prelude.{◌≡◌};
    ghost use Rattle.row_texts.specs.declared.cause.RowsError.TheVariants as errors;

    ghost from_gives = { λ _ e. e ≡ errors.NoMemory };

    fn from(_: NoMemory) -> RowsError {
        RowsError::NoMemory
    }
}

impl From<AllocError> for RowsError {
    ghost use Rattle.std.specs.Prelude.{◌≡◌};
    ghost use Rattle.row_texts.specs.declared.cause.RowsError.TheVariants as errors;

    ghost from_gives = { λ _ e. e ≡ errors.NoMemory };

    fn from(_: AllocError) -> RowsError {
        RowsError::NoMemory
    }
}

impl<T: Drop> From<AllocFailed<T>> for RowsError {
    ghost use Rattle.std.specs.Prelude.{◌≡◌};
    ghost use Rattle.row_texts.specs.declared.cause.RowsError.TheVariants as errors;

    ghost from_gives = { λ _ e. e ≡ errors.NoMemory };

    fn from(_: AllocFailed<T>) -> RowsError {
        RowsError::NoMemory
    }
}

impl<T: Drop> From<AllocFailed<T>> for WordFault {
    ghost use Rattle.std.specs.Prelude.{◌≡◌};
    ghost use Rattle.row_texts.specs.declared.cause.WordFault.TheVariants as faults;

    ghost from_gives = { λ _ e. e ≡ faults.NoMemory };

    fn from(_: AllocFailed<T>) -> WordFault {
        WordFault::NoMemory
    }
}
