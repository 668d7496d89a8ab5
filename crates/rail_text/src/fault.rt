//! Why a text could not be fetched, or a piece not be put.

ghost use Rattle.std.specs.Prelude.{◌≡◌};
ghost use Rattle.rail_text.specs.declared.fault.FetchFault.TheVariants as fetch;

use std::alloc::{AllocError, AllocFailed};
use thiserror::Error;

/// Memory ran out.
#[derive(Clone, Copy, Debug, PartialEq, Eq, Error)]
#[error("out of memory")]
pub struct NoMemory;

impl From<AllocError> for NoMemory {
    fn from(_: AllocError) -> NoMemory {
        NoMemory
    }
}

impl<T: Drop> From<AllocFailed<T>> for NoMemory {
    fn from(_: AllocFailed<T>) -> NoMemory {
        NoMemory
    }
}

/// Why a text was not fetched: the shelf counted a fault, or memory ran out.
#[derive(Clone, Copy, Debug, PartialEq, Eq, Error)]
pub enum FetchFault {
    /// The shelf counted a fault.
    #[error("the text could not be fetched")]
    Failed,
    /// Memory ran out.
    #[error("out of memory")]
    NoMemory,
}

impl From<AllocError> for FetchFault {
    ghost from_gives = { λ _ e. e ≡ fetch.NoMemory };

    fn from(_: AllocError) -> FetchFault {
        FetchFault::NoMemory
    }
}

impl<T: Drop> From<AllocFailed<T>> for FetchFault {
    ghost from_gives = { λ _ e. e ≡ fetch.NoMemory };

    fn from(_: AllocFailed<T>) -> FetchFault {
        FetchFault::NoMemory
    }
}

/// Why a piece was not taken: the sink counted a fault.
#[derive(Clone, Copy, Debug, PartialEq, Eq, Error)]
pub enum SinkFault {
    /// The sink counted a fault.
    #[error("the output could not be written")]
    Failed,
}
