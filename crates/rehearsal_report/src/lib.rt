//! The report of a rehearsal, for people: how far it came, how each box stands where it stopped, which calls were
//! refused, and what may come about otherwise on threads; each call by its line in the text of its script.
#![tactic(auto)]

mod account;
mod call_lines;
mod call_numbers;
mod cells;
mod columns;
mod differences;
mod progress;
mod race_sentences;
mod refusals;
mod report;
mod standings;
mod stop_sentences;

pub use call_lines::ScriptText;
pub use report::{has_found, put_report};
