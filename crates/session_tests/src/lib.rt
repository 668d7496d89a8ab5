//! A test of a session: a man at his own box, and another box by its script.
#![tactic(auto)]

#[cfg(test)]
mod sessions;
