//! The moves of a train in a box: how it is brought there, and how it passes a signal or overruns it.
#![tactic(auto)]

mod moves;
mod standing;
mod trains;

pub use moves::{MoveTest, go, move_test, plan_move};
pub use standing::{Standing, first_standing};
pub use trains::{BringReply, Trains};
