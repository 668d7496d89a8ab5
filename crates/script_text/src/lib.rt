//! Scripts, calls and replies as texts: what a text spells, what is wrong with it first, and how each is printed.
#![tactic(auto)]

mod calls;
mod draft;
mod entries;
mod laws;
mod moments;
mod names;
mod numbers;
mod possible_replies;
mod printing_acts;
mod printing_replies;
mod printing_scripts;
mod reading_acts;
mod reading_replies;
mod reading_scripts;
mod script;
mod spelled_replies;
mod whole;

pub use calls::{moment_in, print_call, put_call, read_call};
pub use entries::{is_spelled, put_told};
pub use laws::{calls_law, moments_law, replies_law, scripts_law};
pub use moments::{put_moment, read_moment, read_ready};
pub use names::{position_word, put_code};
pub use numbers::put_number;
pub use possible_replies::may_answer;
pub use printing_acts::put_act;
pub use printing_replies::{print_reply, put_reply, spent_word};
pub use printing_scripts::print_script;
pub use reading_acts::read_act;
pub use reading_replies::{read_reply, reply_in};
pub use reading_scripts::read_script;
pub use script::{MOST_CALLS, SCRIPT_LIMIT, Script};
pub use spelled_replies::is_spelled_reply;
pub use whole::put_text;
