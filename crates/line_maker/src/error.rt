//! Why a line was not made.

ghost use Rattle.std.specs.Prelude.{◌≡◌};
ghost use Rattle.line_maker.specs.declared.error.MakeError.TheVariants as errors;

use std::alloc::{AllocError, AllocFailed};

/// Why a line was not made.
#[derive(Clone, Copy, Debug, PartialEq, Eq)]
pub enum MakeError {
    /// A made line has 1 to 200 trains.
    OutOfRange { n: u32 },
    /// Memory ran out.
    NoMemory,
}

impl From<AllocError> for MakeError {
    ghost from_gives = { λ _ e. e ≡ errors.NoMemory };

    fn from(_: AllocError) -> MakeError {
        MakeError::NoMemory
    }
}

impl<T: Drop> From<AllocFailed<T>> for MakeError {
    ghost from_gives = { λ _ e. e ≡ errors.NoMemory };

    fn from(_: AllocFailed<T>) -> MakeError {
        MakeError::NoMemory
    }
}
