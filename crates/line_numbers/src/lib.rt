//! Plain numbers for what a C library passes: calls, replies, what stands at a box, and why a text is refused. Each
//! struct has the layout of C, with unsigned numbers alone, and each of these values is found again from its numbers.
//!
//! | What | Its numbers |
//! |---|---|
//! | a way or side | 0 up, 1 down |
//! | a position of a block instrument | 0 Normal, 1 Line Clear, 2 Train on Line |
//! | a state of a Welwyn control | 0 ready, 1 given, 2 berthed |
//! | a code, a train | its number, from 1; 0 for none |
//! | a place | its number in its box, from 0 |
#![tactic(auto)]

mod calls;
mod causes;
mod laws;
mod parts;
mod replies;
mod things;

pub use calls::{CallNumbers, call_in, call_numbers};
pub use causes::cause_number;
pub use laws::{cause_law, numbers_law, reply_law, thing_law};
pub use replies::{ReplyNumbers, reply_numbers};
pub use things::{ThingNumbers, thing_numbers};
