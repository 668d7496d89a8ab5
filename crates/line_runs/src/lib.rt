//! Runs: a line is worked by the scripts of its boxes, each on a thread of its own, and may be watched meanwhile. What
//! is printed of it is made one text.
#![tactic(auto)]

mod both;
mod copying;
mod counting;
mod printing;
mod registers;
mod rest;
mod run;
mod sizes;
mod stress;
mod watch;
mod watched;
mod worked;

pub use run::run_outcome;
pub use stress::stress_outcome;
pub use watch::watch_outcome;
pub use watched::{WatchedLine, watched_line};
pub use worked::{WorkedLine, worked_line};
