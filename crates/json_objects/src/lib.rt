//! JSON objects that are put together from their last member to their first, and the texts of values.
#![tactic(auto)]

mod object;
mod texts;

pub use object::Object;
pub use texts::text_of;
