//! What a train graph shows of a journal: the line of each train, with all that it did; for how long each instrument
//! showed Line Clear and Train on Line; and how far to the right each entry stands.
#![tactic(auto)]

mod axis;
mod bars;
mod deeds;
mod laws;
mod lines;
mod scene;
mod words;

pub use axis::{Axis, axis_of, ten_minutes};
pub use bars::{Bar, Turn, bars_of, turn_of};
pub use deeds::{Deed, TrainDeed, deed_of, deeds_of};
pub use laws::{apart_law, bars_law, bringing_law, legal_law, lines_law};
pub use lines::{TrainLine, lines_of};
pub use scene::{Scene, scene_of};
pub use words::{letters_of, train_name};
