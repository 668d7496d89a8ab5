//! Tests of the board, by calls.

mod boards;
mod journals;
