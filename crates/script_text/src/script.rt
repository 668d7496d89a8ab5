//! A signalman's script.

use line_law::Call;
use line_plan::Items;

/// The most calls of a script.
pub const MOST_CALLS: usize = 10_000;

/// The most bytes of a script's text.
pub const SCRIPT_LIMIT: usize = 1_048_576;

/// What one signalman does, call by call.
#[derive(Debug, Drop)]
pub struct Script {
    /// His box.
    pub box_no: u32,
    /// His calls, in order: at most `MOST_CALLS`, whose moments don't fall.
    pub calls: Items<Call>,
}
