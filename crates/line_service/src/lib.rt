//! A line that is held for a program of others: each request, a line of JSON, is answered by a line of JSON.
#![tactic(auto)]

mod answer;
mod calls;
mod lists;
mod looks;
mod moves;
mod others;
mod replay;
mod roster;
mod scripts;
mod service;

pub use answer::Answer;
pub use calls::{call_in, entry_made};
pub use moves::Present;
pub use service::{MOST_ENTRIES, Service};
