//! The work of a line: each signalman works his script, on a thread of his own.
#![tactic(auto)]

mod crew;
mod gate;
mod starting;
mod working;

pub use gate::{Gate, OpenGate, TimedGate};
pub use working::work_line;
