//! A single line with tokens: two boxes, 0 and 1, with a token instrument each. A token is drawn only under the other
//! box's leave, goes with a train, and is put back at either end. This is the law of its calls, and what holds after
//! every legal history of them: at most one token is out.
#![tactic(auto)]

pub mod calls;
pub mod laws;
pub mod line;

pub use calls::{Shown, TokenAct, TokenCall, TokenEntry, TokenReply};
pub use laws::{one_token_law, refusals_law, token_calls_law, token_history_law};
pub use line::{MOST_TOKENS, SingleLine};
