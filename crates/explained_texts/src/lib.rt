//! The texts that a command for people names, fetched and read: where one can't be had, or is refused, it is told why.
#![tactic(auto)]

mod fetching;
mod frames;
mod gathering;
mod journals;
mod others;
mod reading;
mod shelf;
mod trouble;

pub use fetching::fetch_text;
pub use frames::fetch_frame;
pub use gathering::{RunTexts, fetch_run};
pub use journals::{JournalTexts, fetch_journal};
pub use others::{OthersTexts, fetch_box, fetch_others, fetch_plan, named_box};
pub use shelf::ReasonedShelf;
pub use trouble::{Trouble, trouble_with};
