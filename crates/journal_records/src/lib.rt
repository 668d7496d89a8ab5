//! The entries of a journal as records for other programs: JSON objects, one a line, or rows of commas.
#![tactic(auto)]

mod lines;
mod named;
mod records;
mod rows;
mod said;
mod told;
mod words;

pub use lines::{entry_text, entry_value, print_json_lines};
pub use records::print_records;
pub use rows::print_csv;
pub use told::told_of;
pub use words::words_of;
