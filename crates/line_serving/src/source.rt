//! Where requests come from.

ghost use Rattle.std.specs.Prelude.{◌≡◌, ℕ, List, Option, IfErr, IfOk, option_map};
ghost use Rattle.line_serving.specs.Sources.{given_more};

use std::alloc::{AllocError, Global};

/// Why a source gave no line.
#[derive(Clone, Copy, Debug, PartialEq, Eq)]
pub enum SourceFault {
    /// It can't be read.
    Failed,
    /// Memory ran out.
    NoMemory,
}

impl From<AllocError> for SourceFault {
    fn from(_: AllocError) -> SourceFault {
        SourceFault::NoMemory
    }
}

/// Gives lines one after another. It may tell which lines it has given.
pub trait RequestSource {
    /// The lines given so far, without their ends, where the source tells them.
    ghost given: { Self → Option (List (List ℕ)) };

    /// The next line without its end, or none where there will be no more. Of a line longer than `LINE_LIMIT` of
    /// `line_requests` the first bytes do, one more than that.
    fn next_line(&mut self, alloc: Global) -> Result<Option<Vec<u8>>, SourceFault>
        ensures given { IfOk result (λ line. given self.new
            ≡ given_more (given self.old) (option_map (λ line. line.items) line)) }
        ensures not_given { IfErr result (λ _. given self.new ≡ given self.old) };
}
