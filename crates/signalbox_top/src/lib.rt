//! What `signalbox` does of a command line: it fetches texts, and puts what it finds of them.
#![tactic(auto)]

mod answering;
mod files;
mod frames;
mod framing;
mod graphing;
mod hand;
mod listing;
mod marking;
mod picturing;
mod rehearsing;
mod row_reading;
mod serving;
mod sheeting;
mod status;
mod tabling;
mod tidying;
mod top;
mod walking;

pub use files::ReasonedFiles;
pub use status::Status;
pub use top::signalbox_top;
