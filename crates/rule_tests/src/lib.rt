//! Tests of the shared words of a line, word by word: posts are drawn and joined, a signalman's hand rings, hears and
//! looks, instruments are turned, and trains are sent into a section and taken out of it.
#![tactic(auto)]

#[cfg(test)]
pub mod hand;
#[cfg(test)]
pub mod instrument;
#[cfg(test)]
pub mod joined;
#[cfg(test)]
pub mod numbers;
#[cfg(test)]
pub mod section;
#[cfg(test)]
mod tests;
