//! Tests of whole runs, from the words of a command line to the bytes that are printed.
#![tactic(auto)]

#[cfg(test)]
mod tests;
