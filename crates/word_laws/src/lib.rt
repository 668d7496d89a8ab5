//! The laws of the words that two boxes of a line share: what a call reads and changes, what its reply tells of its
//! word, and what the operations make of the words' numbers.
#![tactic(auto)]

mod bells;
mod footprint;
mod words;

pub use bells::bell_law;
pub use footprint::{commuting_law, footprint_law};
pub use words::{
    agreement_law, count_law, end_law, kind_law, number_law, operation_law, places_law, rising_law,
    words_law,
};
