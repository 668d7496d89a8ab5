//! What the regulations would have the man of a box do next.
#![tactic(auto)]

mod hint;
mod laws;
mod sides;
mod telling;

pub use hint::{Hint, hint_of};
pub use laws::hint_law;
pub use telling::put_hint;
