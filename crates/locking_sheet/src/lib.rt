//! The locking table of a box as it is drawn up in an office: a line for each lever, with its rows and their converse,
//! what rows of other levers make of it. The rows are read back from the text.
#![tactic(auto)]

mod boxes;
mod items;
mod laws;
mod lines;
mod printing;
mod sheet;

pub use boxes::box_table;
pub use items::{put_conds, put_converse, put_item};
pub use laws::{place_law, read_back_law};
pub use printing::sheet_text;
pub use sheet::{LockingSheet, sheet_of};
