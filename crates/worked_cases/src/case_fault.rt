//! What is wrong with a line of a file of cases or rows.

use std::alloc::{AllocError, AllocFailed};
use std::fmt;

/// What is wrong with a line of a file of cases or rows, if it isn't that memory ran out.
#[derive(Clone, Copy)]
pub enum CaseFault {
    /// The line has none of the forms of a line of a file of short cases.
    Form,
    /// The line spells a text that isn't begun.
    NoText,
    /// The line is wanted where no words are given.
    NoWords,
    /// The lines before it spell the text of a case for which no output is wanted.
    NoOutput,
    /// A backslash stands before what it can't stand before.
    Backslash,
    /// The line of a file of rows has no arrow between a call and an answer.
    NoRow,
    /// No call has the word of the row.
    UnknownCall,
    /// The call of the row has other arguments.
    Argument,
    /// Memory ran out.
    NoMemory,
}

/// The fault as it is told.
pub fn fault_text(fault: CaseFault) -> &'static str {
    match fault {
        CaseFault::Form => "a line of no known form",
        CaseFault::NoText => "a line of no text: `text NAME` or `each NAME` is wanted before it",
        CaseFault::NoWords => "no words: `words WORD WORD ..` is wanted before it",
        CaseFault::NoOutput => "no output is wanted of the case before it",
        CaseFault::Backslash => "a backslash that stands for nothing",
        CaseFault::NoRow => "no row: `CALL ARGUMENTS -> ANSWER` is wanted",
        CaseFault::UnknownCall => "no call has this word",
        CaseFault::Argument => "the call has other arguments",
        CaseFault::NoMemory => "out of memory",
    }
}

impl From<AllocError> for CaseFault {
    fn from(_: AllocError) -> CaseFault {
        CaseFault::NoMemory
    }
}

impl<T: Drop> From<AllocFailed<T>> for CaseFault {
    fn from(_: AllocFailed<T>) -> CaseFault {
        CaseFault::NoMemory
    }
}

impl From<fmt::Error> for CaseFault {
    fn from(_: fmt::Error) -> CaseFault {
        CaseFault::NoMemory
    }
}

impl From<bell_codes::NoMemory> for CaseFault {
    fn from(_: bell_codes::NoMemory) -> CaseFault {
        CaseFault::NoMemory
    }
}

impl From<locking_table::NoMemory> for CaseFault {
    fn from(_: locking_table::NoMemory) -> CaseFault {
        CaseFault::NoMemory
    }
}

impl From<rail_text::NoMemory> for CaseFault {
    fn from(_: rail_text::NoMemory) -> CaseFault {
        CaseFault::NoMemory
    }
}
