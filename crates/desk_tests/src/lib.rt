//! Tests of the desks of a line: each is worked on words that are plain numbers, one call at a time, beside a line in
//! one hand. And tests of the signalmen of a line, one call after another and on threads of their own.
#![tactic(auto)]

pub mod desk_line;
#[cfg(test)]
pub mod endings;
#[cfg(test)]
mod facts;
#[cfg(test)]
pub mod hands;
#[cfg(test)]
pub mod line;
#[cfg(test)]
pub mod operations;
#[cfg(test)]
pub mod pull;
#[cfg(test)]
mod tests;
#[cfg(test)]
pub mod work;
