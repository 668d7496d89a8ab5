//! The races of a journal: the places where two men who aren't made to wait for one another come to a shared word, so
//! that other replies may come about on another run.
#![tactic(auto)]

mod finding;
mod keys;
mod known;
mod last_marks;
mod laws;
mod marks;
mod scan;
mod shown;

pub use finding::{Race, races};
pub use laws::exchange_law;
