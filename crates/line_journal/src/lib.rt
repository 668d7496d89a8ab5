//! The journal of a line that has ended: the registers of its boxes merged in one order.
#![tactic(auto)]

mod fitting;
mod keeper;
mod keepers;
mod keeping;
mod laws;
mod lines;
mod merging;
mod order;
mod remaining;

pub use fitting::is_on_word;
pub use laws::{exchange_law, one_order_law, order_law, parts_law, reply_law};
pub use lines::word_of;
pub use merging::{merge, merged};
pub use order::{Merged, Walk};
