//! The picture of a box's lever frame as SVG: its levers in their colours, with their numbers and what they work, and
//! under them the locking chart with the fewest channels: tappets as columns, bridles as bars, with their dogs and the
//! notches of these.
#![tactic(auto)]

mod chart_drawing;
mod frame_drawing;
mod key_drawing;
mod laws;
mod picture;
mod places;
mod scene;
mod works;

pub use laws::apart_law;
pub use picture::{draw_scene, frame_picture};
pub use scene::{Bar, LaidDog, Scene, scene_of};
