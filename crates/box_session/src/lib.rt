//! Sessions: one man works his own box, call by call. Behind each of his calls the other boxes go on by their scripts,
//! on one thread, up to where each is stopped at an await that the line doesn't satisfy, or has ended.
#![tactic(auto)]

mod laws;
mod made_call;
mod others;
mod session;
mod work;

pub use laws::session_law;
pub use made_call::{MOST_MADE, MadeCall};
pub use session::Session;
pub use work::has_empty_script;
