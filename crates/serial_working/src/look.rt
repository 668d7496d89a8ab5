//! How a box stands whose script is worked.

/// How a box stands on a line.
#[derive(Clone, Copy, Debug, PartialEq, Eq)]
pub enum Look {
    /// It has no call left.
    Idle,
    /// Its next call is an await that the line doesn't satisfy.
    Stopped,
    /// It may make its next call.
    Free,
}
