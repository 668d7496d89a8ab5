//! The work of a line beside an observer, who fills his board on a thread of his own, and its last round when the men
//! have ended.
#![tactic(auto)]

mod beside;
mod laws;
mod watched;

pub use beside::work_beside;
pub use laws::watched_law;
pub use watched::work_watched;
