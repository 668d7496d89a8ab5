//! An engine behind an address that C may keep.
#![tactic(auto)]

pub mod handle;
mod parts;
pub mod slot;

pub use handle::Handle;
pub use slot::Slot;
