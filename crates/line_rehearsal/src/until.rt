//! How far scripts are rehearsed.

ghost use Rattle.std.specs.Prelude.{◌≡◌};
ghost use Rattle.line_rehearsal.specs.Rehearsals.{ends_with};

use line_law::{Reply, is_refused};

/// How far scripts are rehearsed.
#[derive(Clone, Copy, Debug, PartialEq, Eq)]
pub enum Until {
    /// As far as the boxes come.
    Stop,
    /// No further than the first call that is refused.
    Refusal,
}

impl Until {
    // Whether a rehearsal ends with a call that is answered so.
    pub(crate) fn ends_with(self, reply: &Reply) -> bool
        ensures { result ≡ ends_with self reply.now }
    {
        match self {
            Until::Stop => false,
            Until::Refusal => is_refused(reply),
        }
    }
}
