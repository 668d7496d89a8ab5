//! The law of the line: the calls of the signalmen, the reply that each gets, and what it changes.
#![tactic(auto)]

mod answer;
mod arrivals;
mod bells;
mod call;
mod controls;
mod instruments;
mod known;
mod laws;
mod levers;
mod link;
mod plain;
mod plain_line;
mod refusals;
mod replies;
mod reply_laws;
mod same_reply;
mod state;
mod step;
mod tracks;
mod trains;
mod ways;

pub use call::{Act, Call, Entry, Journal, Reply};
pub use known::{
    DAY_OF_MINUTES, DAY_OF_SECONDS, is_code_no, knows, knows_arm, knows_berth, knows_lever,
    knows_outgoing, knows_side, knows_train, moments_of,
};
pub use laws::{
    box_law, growing_law, history_law, keeping_law, neighbour_law, opening_law, outcome_law,
    run_law, section_law, serial_law, shape_law, step_law,
};
pub use levers::{first_reversed, is_off, is_pulled, starter_way};
pub use link::Link;
pub use plain::{Plain, open_pairs};
pub use plain_line::PlainLine;
pub use refusals::{is_refused, refusal_law};
pub use reply_laws::replies_law;
pub use state::{Bell, Block, BoxState, Control, Incoming, PairState, Passage};
pub use step::{link_of, perform_at};
pub use tracks::{Standing, first_standing, train_on};
pub use ways::ByWay;
