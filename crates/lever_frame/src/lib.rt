//! The lever frame of one box: which lever may be pulled or put back, what holds it, and which arms are off.
//!
//! The frame's bridles are those that are compiled of the box's locking table. Levers and rows are numbered from 1,
//! places from 0.
#![tactic(auto)]

mod frame;
mod laws;
mod lever_plan;
mod reply;

pub use frame::LeverFrame;
pub use laws::{answer_law, frame_law};
pub use reply::LeverReply;
