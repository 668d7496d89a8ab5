//! A box worked by hand: one man types his calls, and each is answered; the other boxes go on by their scripts.
#![tactic(auto)]

mod book;
mod due;
mod duty;
mod ending;
mod input;
mod laws;
mod listening;
mod manner;
mod misread;
mod passage;
mod saving;
mod screen;
mod source;
mod store;
mod tones;
mod working;

pub use duty::Duty;
pub use input::InputLines;
pub use laws::hand_law;
pub use manner::{Manner, Terminal};
pub use saving::{print_calls, print_line};
pub use source::{LineSource, SourceFault};
pub use store::{FileStore, Store, StoreFault};
pub use working::{HandFault, work_by_hand};
