//! The calls that a man makes in a session.

use line_law::Call;

/// The most calls that a man makes in a session.
pub const MOST_MADE: usize = 1_000_000_000;

/// A call that he made, and where it stands.
#[derive(Clone, Copy, Debug, PartialEq, Eq)]
pub struct MadeCall {
    /// What he did, and when.
    pub call: Call,
    /// Its place in the journal, from 0.
    pub place: usize,
}
