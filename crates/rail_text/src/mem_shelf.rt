//! A shelf in memory, whose calls fail where its maker says so.

ghost use Rattle.std.specs.Prelude.{◌≡◌, ℕ, ◌+◌, ◌^◌, ◌<◌, ◌≤◌, List, [], take, map, length, IfOk, IfSome, IsErrOf};
ghost use Rattle.std.specs.Option.{option_map};
ghost use Rattle.rail_text.specs.Causes.{Rose};
ghost use Rattle.rail_text.specs.MemShelf.{text_of, held_in, fetched, shelf_after, GivesBytes};

use crate::{FetchFault, Shelf};
use std::alloc::Global;
use std::marker::Model;

/// Texts by name, in memory. Its calls are counted from 1, and those that `fails` lists fail. A
/// name that no text has is a fault too. It gives its one count of faults for every name.
#[derive(Drop)]
pub struct MemShelf {
    texts: Vec<(String, Vec<u8>)>,
    fails: Vec<u64>,
    calls: u64,
    faults: u64,
}

impl Model for MemShelf {
    ghost use Rattle.std.specs.Prelude.{map};
    ghost use Rattle.rail_text.specs.MemShelf.{ShelfState, text_of};

    ghost Value = { ShelfState };

    ghost view = { λ s. record {
      texts = map text_of s.texts.items;
      fails = s.fails.items;
      calls = s.calls;
      faults = s.faults;
    } };
}

impl MemShelf {
    /// A shelf of these texts, before any call. Of texts with one name the first is found.
    pub fn new(texts: Vec<(String, Vec<u8>)>, fails: Vec<u64>) -> MemShelf
        ensures { result ≡ record {
          texts = map text_of texts.items;
          fails = fails.items;
          calls = 0;
          faults = 0;
        } }
    {
        MemShelf {
            texts,
            fails,
            calls: 0,
            faults: 0,
        }
    }
}

// The first text of that name.
fn find_text<'a>(texts: &'a [(String, Vec<u8>)], name: &str) -> Option<&'a [u8]>
    ensures { option_map (λ s. s.now) result ≡ held_in (map text_of texts.now) name.now }
{
    for text in texts {
        if text.0.as_str() == name {
            return Some(text.1.as_slice());
        }
    }
    None
}

impl Shelf for MemShelf {
    ghost held = { λ s n. held_in s.texts n };

    ghost faults = { λ s n. s.faults };

    fn fetch(&mut self, alloc: Global, name: &str, limit: usize) -> Result<Vec<u8>, FetchFault>
        requires { limit < 2 ^ 32 }

        // What this call gives, and the shelf after it, exactly.
        ensures gives { GivesBytes result (fetched self.old name.now limit) }
        ensures after { self.new ≡ shelf_after self.old name.now limit }

        // What every shelf says.
        ensures bytes { IfOk result (λ v.
            IfSome (held_in self.old.texts name.now) (λ all. v.items ≡ take (limit + 1) all)) }
        ensures few { IfOk result (λ v. length v.items ≤ limit + 1) }
        ensures same { (n : List ℕ) → held_in self.new.texts n ≡ held_in self.old.texts n }
        ensures later { (n : List ℕ) → self.old.faults ≤ self.new.faults }
        ensures cause { IsErrOf result FetchFault.Failed → Rose self.old.faults self.new.faults }
    {
        self.calls = self.calls.saturating_add(1);
        if self.fails.contains(&self.calls) {
            self.faults = self.faults.saturating_add(1);
            return Err(FetchFault::Failed);
        }
        match find_text(&self.texts, name) {
            Some(text) => Ok(text[..text.len().min(limit + 1)].to_vec(alloc)?),
            None => {
                self.faults = self.faults.saturating_add(1);
                Err(FetchFault::Failed)
            }
        }
    }
}
