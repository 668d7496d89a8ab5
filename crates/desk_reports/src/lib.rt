//! The reports of the desk: what is printed of a plan, of a box's frame, of its locking chart, of a
//! journal, judged or audited, and of the calls at a single line with tokens, built whole.
#![tactic(auto)]

mod charts;
mod frames;
mod judging;
mod reports;
mod single_line;

pub use charts::chart_outcome;
pub use frames::frame_outcome;
pub use judging::{audit_outcome, judge_outcome};
pub use reports::{check_outcome, upgrade_outcome};
pub use single_line::token_outcome;
