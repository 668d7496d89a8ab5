//! What is seen of a line after an entry of its journal: the places of each box with the trains on them, its arms and
//! levers, and of each section its instrument, its bell and the trains on its plain line.
#![tactic(auto)]

mod box_shown;
mod diagram;
mod laws;
mod performing;
mod scene;
mod section_shown;
mod shown;
mod walk;

pub use diagram::{Diagram, diagrams_of};
pub use laws::spots_law;
pub use performing::line_after;
pub use scene::{Scene, scene_after, things_of};
pub use shown::Shown;
pub use walk::Spot;
