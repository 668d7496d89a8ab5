//! What a line of JSON asks a service for, and the answers that tell a fault or a count.
#![tactic(auto)]

mod answers;
mod fault;
mod reading;
mod request;

pub use answers::{COUNT_ROOM, count_room, count_text, fault_text, put_count};
pub use fault::{Fault, fault_line, fault_word};
pub use reading::{request_in, value_in};
pub use request::{LINE_LIMIT, Request};
