//! A locking table made into bridles, one for each row, so that a frame's bars and notches do what the table says.
#![tactic(auto)]

mod compiler;
mod laws;

pub use compiler::{compile, frame_of};
pub use laws::{same_holder, seated_where_row_holds};
