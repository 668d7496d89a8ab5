//! The sheets of a train register as text: lines in columns of fixed width, in pages.
#![tactic(auto)]

mod cells;
mod headings;
mod printing;
mod rows;

pub use cells::{hundred_hours, put_described, put_told_at};
pub use headings::{put_beside, put_no_train, put_title};
pub use printing::{is_wanted, sheet_text};
pub use rows::{Row, rows_of};
