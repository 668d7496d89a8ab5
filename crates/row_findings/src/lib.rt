//! What a walk shows of the rows of a locking table: which of them change nothing, and which other row holds as much.
#![tactic(auto)]

mod covering;
mod laws;
mod marking;
mod uses;

pub use covering::covers;
pub use laws::redundant_law;
pub use uses::{RowUse, row_uses};
