//! The words of a command line, and the command that they ask for.
#![tactic(auto)]

mod clap_words;
mod command;
mod table;

pub use command::{
    CommandLine, DeskCommand, MOST_MADE_TRAINS, MOST_ROUNDS, command_of, desk_command_of,
};
