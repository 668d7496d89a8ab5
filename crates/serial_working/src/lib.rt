//! Scripts that are worked on one thread, one call at a time, and what each box has then left of its script.
#![tactic(auto)]

mod look;
mod roster;
mod serial;
mod turns;

pub use look::Look;
pub use roster::Roster;
pub use serial::work_serially;
pub use turns::{NumberedCall, next_call, take_call};
