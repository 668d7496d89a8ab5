//! A lever frame with its bridles: bars with dogs, of which one must always lie in a notch of its lever.
//!
//! Levers and bridles are numbered from 1. A lever in its move is at mid, where it has no notch.
#![tactic(auto)]

mod bridle;
mod dogs;
mod frame;
mod index;
mod laws;

pub use bridle::{Bridle, Dog, Notches};
pub use dogs::Dogs;
pub use frame::{Frame, Shift};
pub use laws::mid_is_enough;
