//! The check of a plan: rows of a locking table that clash, levers without a row, and sections that lack a berth or a
//! starter. It judges rows, and pairs of rows; it doesn't search the states of a frame.
#![tactic(auto)]

mod check;
mod finding;
mod gaps;
mod laws;
mod printing;
mod rows;

pub use check::check_plan;
pub use finding::Finding;
pub use laws::{clash_law, findings_law};
pub use printing::{print_findings, put_findings};
