//! Locking tables of a lever frame: their rows as texts, what a row means, and which row holds a lever.
//!
//! Levers are numbered from 1. A row has a subject, a kind, an object and up to two conditions, and a table
//! numbers its rows from 1.
#![tactic(auto)]

mod conds;
mod fault;
mod index;
mod laws;
mod memory;
mod places;
mod printing;
mod reading;
mod row;
mod table;
mod words;

pub use conds::Conds;
pub use fault::{RowError, RowFault};
pub use laws::{holder_law, row_law, unnamed_lever_law};
pub use memory::NoMemory;
pub use places::{End, MOST_LEVERS, Stand, end_of, stand_of};
pub use printing::{print_row, put_row};
pub use reading::{read_row, read_spelled};
pub use row::{Cond, Holder, Row, RowKind};
pub use table::Table;
