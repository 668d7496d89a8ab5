//! The made line: three boxes and so many trains, with the scripts by which they are worked.
#![tactic(auto)]

mod error;
mod made_text;
mod making;
mod scripts;
mod working;

pub use error::MakeError;
pub use making::{MOST_MADE_TRAINS, made_calls_law, make_line};
