//! The register of each signalman: what he did, in order, and how it is printed.
#![tactic(auto)]

mod ended;
mod printing;
mod register;

pub use ended::Ended;
pub use printing::{print_register, put_registers};
pub use register::Register;
