//! A rehearsal, with the scripts that were rehearsed and their texts.

use crate::call_lines::NumberedScript;
use line_plan::Plan;
use line_rehearsal::Rehearsal;
use script_text::Script;

/// A rehearsal, with the scripts that were rehearsed and their texts.
#[derive(Drop)]
pub struct Account<'a> {
    pub plan: &'a Plan,
    pub scripts: &'a [Script],
    pub texts: &'a [NumberedScript<'a>],
    pub rehearsal: &'a Rehearsal,
}
