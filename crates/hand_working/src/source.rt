//! Where typed lines come from.

ghost use Rattle.std.specs.Prelude.{◌≡◌, ℕ, List, IfErr, IfOk, string_bytes};
ghost use Rattle.std.specs.Option.{option_map};
ghost use Rattle.hand_working.specs.Sources.{given_more};

use std::alloc::{AllocError, Global};

/// Why a source gave no line.
#[derive(Clone, Copy, Debug, PartialEq, Eq)]
pub enum SourceFault {
    /// It can't be read.
    Failed,
    /// Memory ran out.
    NoMemory,
}

impl From<AllocError> for SourceFault {
    fn from(_: AllocError) -> SourceFault {
        SourceFault::NoMemory
    }
}

/// Gives lines one after another, as a man types them. It tells which lines it has given.
pub trait LineSource {
    /// The lines given so far, without their ends.
    ghost given: { Self → List (List ℕ) };

    /// The next line, or none where there will be no more.
    fn next_line(&mut self, alloc: Global) -> Result<Option<String>, SourceFault>
        ensures given { IfOk result (λ line. given self.new
            ≡ given_more (given self.old) (option_map (λ line. string_bytes line) line)) }
        ensures not_given { IfErr result (λ _. given self.new ≡ given self.old) };
}
