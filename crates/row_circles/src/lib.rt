//! Circles of rows among levers that are frozen: each row holds its lever in every state that a walk keeps, and names
//! as what would release it the lever that the next row holds.
#![tactic(auto)]

mod chain;
mod circle;

pub use circle::circle_of;
