//! The locking table of a box as a page of HTML: a line for each lever, with its rows in the columns of what they ask
//! and their converse, what rows of other levers make of it.
#![tactic(auto)]

mod cells;
mod laws;
mod lines;
mod page;

pub use laws::column_law;
pub use page::{box_page, locking_page};
