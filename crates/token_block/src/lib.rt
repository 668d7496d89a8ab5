//! A single line with tokens, worked by a man at each end: one table of shared words under one rule.
//!
//! Both men may work at once, on threads of their own. What they do is one legal token history: each call is one entry
//! of it, made at one step on one word; and each man has seen a beginning of it, with all that he did himself.
#![tactic(auto)]

mod instrument;
mod line;
mod man;
mod opening;
mod plays;
mod post;
mod view;
mod words;
mod working;

pub use line::TokenLine;
pub use man::TokenMan;
pub use opening::{TokenOpenError, open_token};
pub use view::{OneTokenHistory, SeenBefore, TokenView, Tokens};
pub use working::{WorkedCalls, work_tokens};
