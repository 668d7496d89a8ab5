//! Texts and what is written: where texts come from and where output goes, the lines and words of a
//! text, numbers and names, and the causes for which a text is refused.
#![tactic(auto)]

mod cause;
mod chunks;
mod fault;
mod file_shelf;
mod forms;
mod line_fault;
mod line_words;
mod lines;
mod mem_shelf;
mod mem_sink;
mod names;
mod number;
mod out_sink;
mod reading;
mod shelf;
mod sink;
mod word_ends;
mod words;

pub use cause::{Cause, ReadError, cause_text, text_error};
pub use fault::{FetchFault, NoMemory, SinkFault};
pub use file_shelf::FileShelf;
pub use forms::{LineForm, printed_words_are_read};
pub use line_fault::LineFault;
pub use line_words::LineWords;
pub use lines::{
    Lines, TextLine, first_word, lines_are_lines, printed_lines_are_read, words_are_words,
};
pub use mem_shelf::MemShelf;
pub use mem_sink::MemSink;
pub use names::Names;
pub use number::{printed_numbers_are_read, read_number};
pub use out_sink::OutSink;
pub use reading::{Draft, read_text};
pub use shelf::Shelf;
pub use sink::{Sink, put_all};
pub use word_ends::KeptEnds;
pub use words::{has_keyword, is_name, name_in, no_word, number_in, one_word};
