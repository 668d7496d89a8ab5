//! Tests of the indicator board: what an observer saw of a line that nobody worked, of the made line, and of a busy
//! line.
#![tactic(auto)]

#[cfg(test)]
pub mod busy;
#[cfg(test)]
pub mod line;
#[cfg(test)]
pub mod shown;
#[cfg(test)]
mod tests;
