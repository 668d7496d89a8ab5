//! Rehearsals: the scripts of a line are worked on one thread, in the serial order, up to the first place where every
//! box that has a call left stands at an await that isn't satisfied; what each stopped man waits for there; and why
//! nothing there will ever satisfy one.
#![tactic(auto)]

mod calling;
mod laws;
mod rehearsal;
mod search;
mod stop;
mod until;

pub use laws::stuck_law;
pub use rehearsal::{Rehearsal, rehearse};
pub use stop::Stop;
pub use until::Until;
