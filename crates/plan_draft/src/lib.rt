//! The plan of a line as it is read: each line of its text, with its words and its conditions, onto what is read
//! before.
#![tactic(auto)]

mod box_lines;
mod draft;
mod kinds;
mod line_words;
mod names;
mod reading;

pub use draft::{PlanDraft, Stage};
pub use names::{add_name, label_of};
