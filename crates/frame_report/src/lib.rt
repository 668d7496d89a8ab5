//! The report of a lever frame's states: how many can be reached, which levers can never be reversed and which never
//! together, which rows are redundant, and the shortest sequences that reverse what is asked.
#![tactic(auto)]

mod asked;
mod circling;
mod collecting;
mod fault;
mod frame;
mod printing;
mod report;
mod states;

pub use asked::StatesWanted;
pub use fault::StatesFault;
pub use frame::{frame_of, place_of, row_in};
pub use printing::print_states;
pub use report::{LeverReport, RowReport, StatesReport};
pub use states::states_report;
