//! Tests of signalmen who work on threads of their own, behind gates that hold them back or note who comes.
#![tactic(auto)]

#[cfg(test)]
pub mod line;
#[cfg(test)]
pub mod relay;
#[cfg(test)]
mod tests;
