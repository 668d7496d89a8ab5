//! One box's desk: its state apart from the line, and the two steps of a call.
//!
//! A box has a real frame of bridles, track circuits, commutators with their Welwyn control or their permit, and
//! counts of what it has done on the words that it shares with its neighbours. A call that concerns the box alone is
//! decided by these. Any other is decided at one operation on one shared word; the desk says which, and what the word
//! then means.
#![tactic(auto)]

mod arrivals;
mod ask;
mod bells;
mod desk;
mod equipment;
mod finish;
mod incoming;
mod instruments;
mod levers;
mod local;
mod met;
mod opening;
mod operations;
mod prepare;
mod releases;
mod trains;
mod words;

pub use ask::{Step, WordAsk};
pub use desk::Desk;
