//! The texts that a command names, fetched from a shelf and read: a plan, and the scripts of a run.
#![tactic(auto)]

mod fetch;
mod gather;
mod stop;

pub use fetch::{fetch_bytes, fetch_plan, stop_of};
pub use gather::{Inputs, fetch_inputs};
pub use stop::Stop;
