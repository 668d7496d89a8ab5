//! A text that is fetched.

ghost use Rattle.std.specs.Prelude.{◌≡◌, ℕ, ◌+◌, ◌≤◌, ◌<◌, ◌^◌, List, IfOk, IfErr, IfSome, length, take};
ghost use Rattle.rail_text.specs.Causes.{Rose};
ghost use Rattle.explained_texts.specs.Troubles.{IfUntaken, IsNoRefusal};

use crate::shelf::ReasonedShelf;
use crate::trouble::{Trouble, trouble_with};
use rail_text::FetchFault;
use std::alloc::Global;

/// The first bytes of a text: one more than the limit, if there are so many.
pub fn fetch_text<S: ReasonedShelf>(
    alloc: Global,
    shelf: &mut S,
    name: &str,
    limit: usize,
) -> Result<Vec<u8>, Trouble>
    requires { limit < 2 ^ 32 }
    ensures bytes { IfOk result (λ v. IfSome (S.held shelf.old name.now) (λ all. v.items ≡ take (limit + 1) all)) }
    ensures few { IfOk result (λ v. length v.items ≤ limit + 1) }
    ensures trouble { IfErr result IsNoRefusal }
    ensures fault { IfErr result (λ trouble. IfUntaken trouble
        (Rose (S.faults shelf.old name.now) (S.faults shelf.new name.now))) }
    ensures same { (n : List ℕ) → S.held shelf.new n ≡ S.held shelf.old n }
    ensures later { (n : List ℕ) → S.faults shelf.old n ≤ S.faults shelf.new n }
{
    match shelf.fetch(alloc, name, limit) {
        Ok(bytes) => Ok(bytes),
        Err(FetchFault::Failed) => Err(trouble_with(alloc, name, shelf.reason())),
        Err(FetchFault::NoMemory) => Err(Trouble::NoMemory),
    }
}
