//! The shelf of a case of `signalbox`.

ghost use Rattle.std.specs.Prelude.{◌≡◌, ℕ, ◌+◌, ◌^◌, ◌<◌, ◌≤◌, List, length, IfOk, IsErrOf, None};
ghost use Rattle.rail_text.specs.Causes.{Rose};

use explained_texts::ReasonedShelf;
use rail_text::{FetchFault, MemShelf, Shelf};
use std::alloc::Global;

/// The texts of a case. It tells of every text that it doesn't have what is told of a file that isn't there.
#[derive(Drop)]
pub struct CaseShelf {
    texts: MemShelf,
}

impl CaseShelf {
    /// A shelf of these texts.
    pub fn new(alloc: Global, texts: Vec<(String, Vec<u8>)>) -> CaseShelf {
        CaseShelf {
            texts: MemShelf::new(texts, Vec::new(alloc)),
        }
    }
}

impl Shelf for CaseShelf {
    ghost held = { λ s n. None };

    ghost faults = { λ s n. s.texts.faults };

    fn fetch(&mut self, alloc: Global, name: &str, limit: usize) -> Result<Vec<u8>, FetchFault>
        requires { limit < 2 ^ 32 }
        ensures few { IfOk result (λ v. length v.items ≤ limit + 1) }
        ensures later { (n : List ℕ) → self.old.texts.faults ≤ self.new.texts.faults }
        ensures cause { IsErrOf result FetchFault.Failed → Rose self.old.texts.faults self.new.texts.faults }
    {
        self.texts.fetch(alloc, name, limit)
    }
}

impl ReasonedShelf for CaseShelf {
    fn reason(&self) -> &str {
        "no such file or directory"
    }
}
