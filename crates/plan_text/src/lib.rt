//! The text of a plan: plans are read from texts, printed as texts, and upgraded. Its laws tie what is read to what is
//! printed.
#![tactic(auto)]

mod copies;
mod printing;
mod reading;
mod spelling;
mod upgrading;

pub use printing::print_plan;
pub use reading::{read_is_a_plan, read_plan};
pub use spelling::{printed_is_read, spelled_is_read};
pub use upgrading::{into_upgraded, upgrade};
