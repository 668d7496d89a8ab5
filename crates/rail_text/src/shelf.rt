//! Where texts are fetched from, by name.

ghost use Rattle.std.specs.Prelude.{◌≡◌, ℕ, ◌+◌, ◌^◌, ◌<◌, ◌≤◌, List, take, length, Option, IfOk, IfSome, IsErrOf};
ghost use Rattle.rail_text.specs.Causes.{Rose};

use crate::FetchFault;
use std::alloc::Global;

/// Gives texts by their names. It counts its faults, and may tell what it holds.
pub trait Shelf {
    /// The bytes under a name, where the shelf tells them. No fetch changes them.
    ghost held: { Self → List ℕ → Option (List ℕ) };

    /// How often a fetch of that name has failed. It never falls.
    ghost faults: { Self → List ℕ → ℕ };

    /// The first `limit + 1` bytes under the name, or all if there are fewer. `Failed` comes only
    /// where the count of faults of that name rose in this call; a name under which nothing stands
    /// is such a fault.
    fn fetch(&mut self, alloc: Global, name: &str, limit: usize) -> Result<Vec<u8>, FetchFault>
        requires { limit < 2 ^ 32 }
        ensures bytes { IfOk result (λ v.
            IfSome (held self.old name.now) (λ all. v.items ≡ take (limit + 1) all)) }
        ensures few { IfOk result (λ v. length v.items ≤ limit + 1) }
        ensures same { (n : List ℕ) → held self.new n ≡ held self.old n }
        ensures later { (n : List ℕ) → faults self.old n ≤ faults self.new n }
        ensures cause { IsErrOf result FetchFault.Failed →
            Rose (faults self.old name.now) (faults self.new name.now) };
}
