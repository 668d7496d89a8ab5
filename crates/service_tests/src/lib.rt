//! Tests of a service and of the lines that it answers.
#![tactic(auto)]

#[cfg(test)]
mod lines;
