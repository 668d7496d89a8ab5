//! What a man types at his box: calls as a script has them, with or without a moment, and what he may ask beside them,
//! by whole words or by beginnings.
#![tactic(auto)]

mod chosen;
mod full;
mod laws;
mod reading;
mod table;
mod typed;
mod words;

pub use laws::{understood_law, whole_words_law, written_out_law};
pub use reading::read_typed;
pub use typed::{NotUnderstood, Typed};
pub use words::typed_words;
