//! The electrical control on giving Line Clear at one incoming line of a box: `Welwyn` on an absolute line, where a
//! second Line Clear waits until the berth has been occupied and cleared, and `Permit` on a permissive line, which
//! counts the trains that were accepted and have not passed on.
//!
//! Where a train doesn't come, the signalman winds a release: begun at one moment, completed at a later one. It gives
//! back the Line Clear that the train would have used.
#![tactic(auto)]

pub mod absolute;
pub mod permissive;
pub mod releases;

pub use absolute::Welwyn;
pub use permissive::Permit;
pub use releases::ReleaseReply;
