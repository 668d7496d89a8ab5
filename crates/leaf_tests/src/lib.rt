//! Tests of the lowest crates, where they need values made by hand: texts and words, bell codes, locking tables,
//! frames, their walks, what these show and the reports on it, charts, shared words, places and controls. What maps a
//! text to a text is a worked row.
#![tactic(auto)]

#[cfg(test)]
mod charts;
#[cfg(test)]
mod codes;
#[cfg(test)]
mod controls;
#[cfg(test)]
mod facts;
#[cfg(test)]
mod findings;
#[cfg(test)]
mod frames;
#[cfg(test)]
mod places;
#[cfg(test)]
mod shared_words;
#[cfg(test)]
mod states;
#[cfg(test)]
mod tables;
#[cfg(test)]
mod text_readers;
#[cfg(test)]
mod walks;
