//! Texts with their form mended: line ends of other systems, byte order marks, tabs, and spaces that are too many.
#![tactic(auto)]

mod laws;
mod line;
mod whole;

pub use laws::{form_law, stays_law, words_law};
pub use whole::tidy;
