//! The commands: what the words of a command line ask for, done over a shelf and a sink.
#![tactic(auto)]

mod desk;
mod put;
mod status;
mod top;

pub use desk::desk_top;
pub use line_working::{Gate, OpenGate, TimedGate, work_line};
pub use status::Status;
pub use top::box_top;

// The words of `stress` name as many trains as can be made.
const _: () = prove!(command_words::MOST_MADE_TRAINS == line_maker::MOST_MADE_TRAINS);
