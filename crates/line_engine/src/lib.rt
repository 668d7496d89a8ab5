//! An engine that a program of another language can hold: a line with its plan and its journal, and the text that its
//! last call had to tell.
#![tactic(auto)]

mod call_fault;
mod calls;
mod engine;
mod journals;
mod looks;
mod refusal;

pub use call_fault::CallFault;
pub use engine::Engine;
pub use refusal::why_refused;
