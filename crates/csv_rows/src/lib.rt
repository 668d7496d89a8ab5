//! Rows of comma-separated fields.
#![tactic(auto)]

mod row;
mod texts;

pub use row::Row;
pub use texts::put_row;
