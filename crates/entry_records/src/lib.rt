//! What is told of a journal's entry, as a record for other programs: a JSON object, or a row of commas.
#![tactic(auto)]

mod object;
mod row;
mod words;

pub use object::{entry_object, object_text};
pub use row::{put_columns, put_words_row};
pub use words::EntryWords;
