//! Refused replies as sentences for people: one line of plain English each, with the names of what it tells.
#![tactic(auto)]

mod arrivals;
mod bells;
mod instruments;
mod levers;
mod names;
mod sentence;
mod told;

pub use names::position_name;
pub use sentence::Sentence;
pub use told::{put_sentence, sentence_of};
