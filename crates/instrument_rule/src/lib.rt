//! The shared words of a line, one table under one rule, and the posts that step on them.
//!
//! Any thread may hold a post. What all posts have done on the words is one legal history of the line: each step adds
//! one call to it or adds nothing, and each post has seen a beginning of it, with all that its own boxes did.
#![tactic(auto)]

mod line;
mod merges;
mod opening;
mod plays;
mod post;
mod steps;
mod view;

pub use line::Line;
pub use opening::open_words;
pub use post::Post;
pub use view::{Old, OneHistory, View};
