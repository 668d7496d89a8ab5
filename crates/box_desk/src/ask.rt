//! What the first step of a call answers.

use block_words::WordOp;
use line_law::{Call, Reply};

/// What a call asks of the shared words: one operation on one word, and a second one on it after a look.
#[derive(Clone, Copy, Debug, PartialEq, Eq)]
pub struct WordAsk {
    pub call: Call,
    /// The first operation; an await does it look by look.
    pub first: WordOp,
    /// The operation that is due once a look has met what it wants.
    pub second: Option<WordOp>,
    /// Whether the call looks until it is satisfied, at most so many times as the plan says.
    pub awaits: bool,
}

/// How far the first step of a call has come.
#[derive(Clone, Copy, Debug, PartialEq, Eq)]
pub enum Step {
    /// The call was decided in the box alone, with this reply.
    Local(Reply),
    /// It is decided on a shared word, and nothing has changed but the moment of the last call.
    NeedsWord(WordAsk),
}
