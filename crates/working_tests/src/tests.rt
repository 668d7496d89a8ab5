//! Tests of lines with bells alone.

mod calls;
mod desk;
mod held;
mod waiting;
