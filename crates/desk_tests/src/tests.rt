//! Tests of desks, of lines of them, and of signalmen.

mod journals;
mod men;
mod plans;
mod threads;
mod words;
mod worked;
