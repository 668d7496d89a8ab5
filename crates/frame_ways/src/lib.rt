//! A way by moves that a locking table allows, from all levers normal towards levers that are to be reversed together.
//! It is sought without a walk of all states: where none is found, nothing is known.
#![tactic(auto)]

mod walker;
mod ways;

pub use ways::way_to;
