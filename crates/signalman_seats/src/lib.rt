//! The signalmen of a line, one at each box, who may work on threads of their own.
//!
//! All that the men of a line do is one legal history of it. Each call of a man is one entry of that history, made at
//! one step on one shared word; and each man has seen a beginning of it, with all that he did himself.
#![tactic(auto)]

mod closing;
mod fittings;
mod laws;
mod looks;
mod man;
mod notes;
mod opening;
mod pausing;

pub use closing::{CloseRefused, close_line};
pub use laws::refusal_law;
pub use man::Signalman;
pub use opening::{OpenError, open_line};
pub use pausing::{BacksOff, Pauses};
