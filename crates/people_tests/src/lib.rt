//! Tests of what `signalbox` is to be made of: a rehearsal that stops, the sentence of a refused call, and what is told
//! of a refused text.
#![tactic(auto)]

#[cfg(test)]
mod facts;
#[cfg(test)]
mod rehearsals;
#[cfg(test)]
mod sentences;
