//! Bell codes of absolute block working: their texts, and the table that numbers them.
#![tactic(auto)]

mod code;
mod fault;
mod reading;
mod table;

pub use code::{Code, print_code};
pub use fault::{AddFault, BadCode, NoMemory};
pub use reading::{printed_is_read, read_code, read_is_spelled, text_is_a_word};
pub use table::{
    CALL_ATTENTION, CANCELLING, CodeNo, CodeTable, EMPTY, EXPRESS, LIGHT, OBSTRUCTION_DANGER,
    ORDINARY, TESTING, TRAIN_ENTERING_SECTION, TRAIN_OUT_OF_SECTION, opening_numbers,
};
