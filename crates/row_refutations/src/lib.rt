//! What rows of a locking table refute by themselves, without a walk: that levers are ever reversed together.
//!
//! A row that holds forbids that its subject is reversed, its conditions act and its object breaks it, all at once. Where
//! all but one of these is known, the last is known not to be so; and where all are known, the levers can't stand so.
#![tactic(auto)]

mod known;
mod laws;
mod refuting;
mod saying;
mod searching;

pub use laws::refuted_law;
pub use refuting::refute;
pub use searching::refutation;
