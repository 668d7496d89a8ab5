//! Why a word is no code, and why a code was not added.

ghost use Rattle.std.specs.Prelude.{◌≡◌, Some, codes};
ghost use Rattle.bell_codes.specs.declared.fault.AddFault.TheVariants as faults;
ghost use Rattle.bell_codes.specs.Faults.{add_fault_text};

use crate::CodeNo;
use std::alloc::{AllocError, AllocFailed};
use std::error::Error;
use std::fmt;

/// Memory ran out.
#[derive(Clone, Copy, Debug, PartialEq, Eq, Hash)]
pub struct NoMemory;

impl fmt::Display for NoMemory {
    ghost output = { λ _. Some (codes "out of memory") };

    fn fmt<W: fmt::Write>(&self, f: &mut fmt::Formatter<W>) -> fmt::Result {
        f.write_str("out of memory")
    }
}

impl Error for NoMemory {}

impl From<AllocError> for NoMemory {
    fn from(_: AllocError) -> NoMemory {
        NoMemory
    }
}

impl<T: Drop> From<AllocFailed<T>> for NoMemory {
    fn from(_: AllocFailed<T>) -> NoMemory {
        NoMemory
    }
}

/// A word is no bell code.
#[derive(Clone, Copy, Debug, PartialEq, Eq, Hash)]
pub struct BadCode;

impl fmt::Display for BadCode {
    ghost output = { λ _. Some (codes "bad code") };

    fn fmt<W: fmt::Write>(&self, f: &mut fmt::Formatter<W>) -> fmt::Result {
        f.write_str("bad code")
    }
}

impl Error for BadCode {}

/// Why a code was not added to a table.
#[derive(Clone, Copy, Debug, PartialEq, Eq, Hash)]
pub enum AddFault {
    /// The table has the code already, under this number.
    Known { no: CodeNo },
    /// The table has 200 codes.
    Full,
    /// Memory ran out.
    NoMemory,
}

impl fmt::Display for AddFault {
    ghost output = { λ fault. Some (add_fault_text fault) };

    fn fmt<W: fmt::Write>(&self, f: &mut fmt::Formatter<W>) -> fmt::Result {
        match self {
            AddFault::Known { no } => write!(f, "the code table has this code as number {no}"),
            AddFault::Full => f.write_str("the code table is full"),
            AddFault::NoMemory => f.write_str("out of memory"),
        }
    }
}

impl Error for AddFault {}

impl From<AllocError> for AddFault {
    ghost from_gives = { λ _ e. e ≡ faults.NoMemory };

    fn from(_: AllocError) -> AddFault {
        AddFault::NoMemory
    }
}

impl<T: Drop> From<AllocFailed<T>> for AddFault {
    ghost from_gives = { λ _ e. e ≡ faults.NoMemory };

    fn from(_: AllocFailed<T>) -> AddFault {
        AddFault::NoMemory
    }
}
