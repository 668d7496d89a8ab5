//! The lines of a source are answered by a service, one after another.
#![tactic(auto)]

mod input;
mod serving;
mod source;

pub use input::RequestLines;
pub use serving::{ServeFault, serve};
pub use source::{RequestSource, SourceFault};
