//! The words of the command line of `signalbox`, and the command that they ask for.
#![tactic(auto)]

mod reading;
mod table;

pub use reading::{MarkWords, PictureWords, SheetWords, SignalboxCommand, Words, read_words};
