//! What an instructor would mark in the journal of a line: mistakes of which the nine rules of the audit say nothing.
#![tactic(auto)]

mod bell;
mod clock;
mod doing;
mod lapse;
mod marking;
mod page;
mod printing;

pub use lapse::Lapse;
pub use marking::{Marking, mark};
pub use printing::{MarkedText, mark_text, print_markings};
