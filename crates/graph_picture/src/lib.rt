//! The picture of a train graph as SVG: boxes from top to bottom with the levels of their places, hours and minutes
//! ruled, the line of each train with its name, and between the boxes the bars of Line Clear and Train on Line.
#![tactic(auto)]

mod box_drawing;
mod key_drawing;
mod laws;
mod layout;
mod picture;
mod ruling;
mod train_drawing;

pub use laws::apart_law;
pub use picture::{draw_scene, train_graph};
