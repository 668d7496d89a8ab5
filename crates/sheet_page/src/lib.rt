//! The sheets of a train register as one page of HTML, to be read on a screen, by ear, or on paper: for each box a
//! section, in it for each way a table with a row for each line and each remark.
#![tactic(auto)]

mod columns;
mod page;
mod rows;
mod sheets;
mod words;

pub use page::sheet_page;
