//! The audit of a journal: a journal can be legal and still be bad working. Nine rules, which are this project's own,
//! tell where a signalman went wrong.
#![tactic(auto)]

mod auditing;
mod behind;
mod bell;
mod deed;
mod laws;
mod marks;
mod printing;
mod rule;
mod text_audit;

pub use auditing::audit;
pub use behind::{InHand, in_hand};
pub use bell::{BellEntry, BellKind, is_class_code};
pub use deed::Deed;
pub use laws::{audit_law, in_hand_law};
pub use marks::SideMarks;
pub use printing::print_audit;
pub use rule::{Breach, Rule};
pub use text_audit::audit_text;
