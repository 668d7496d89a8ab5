//! Pairs of rows that together hold all that another row holds in the states that a walk keeps.
#![tactic(auto)]

mod covering;
mod laws;
mod pairs;

pub use laws::pair_law;
pub use pairs::{RowPair, pair_in_place};
