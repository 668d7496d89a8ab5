//! What is told of a line after it was worked: its journal as a text, printed and read; which calls were refused, the
//! most trains that each section held, and whether a journal keeps the law.
#![tactic(auto)]

mod entry_line;
mod hearing;
mod journal;
mod journal_reader;
mod judging;
mod laws;
mod reading;
mod sections;

pub use hearing::{Hearing, judge_text};
pub use journal::{print_journal, put_entry, put_heading, put_journal};
pub use journal_reader::{NO_ENTRY, most_journal_bytes};
pub use judging::{Verdict, judge, may_judge};
pub use laws::{
    answers_law, held_law, histories_can_be_printed, most_trains_law, printed_journal_law,
    verdict_law,
};
pub use reading::{journals_law, read_journal};
pub use sections::{HeldTrains, count_on, most_trains, no_trains, put_sections};
