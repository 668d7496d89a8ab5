//! The sheets of a train register: which entry of a journal stands in which line and column of them.
//!
//! A box has a sheet for each way: a line for each train, with a column for each thing that is written of it. What the
//! register has no column for stands among the remarks, or beside the sheets.
#![tactic(auto)]

mod bell;
mod event;
mod laws;
mod making;
mod open_lines;
mod pages;
mod queue;
mod sheet;
mod spot;

pub use bell::class_of;
pub use laws::once_law;
pub use making::sheets_of;
pub use sheet::{BoxSheet, Line, Remark};
pub use spot::{Column, column_no};
