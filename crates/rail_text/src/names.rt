//! Names that are numbered in the order in which they came.

ghost use Rattle.std.specs.Prelude.{◌≡◌, ℕ, ◌+◌, ◌^◌, ◌<◌, ◌==◌, [], ◌∷◌, ◌++◌, length, not, is_some, bytes_eq};
ghost use Rattle.std.specs.Prelude.{position, slice_get, false, MatchOption, IfSome, IfOk, OnOk, OnErr, Some};
ghost use Rattle.std.specs.List.{list_any};
ghost use Rattle.std.specs.String.{string_bytes};
ghost use Rattle.std.proofs.Common.{ap};
ghost use Rattle.std.specs.Cmp.Lexicographic.{bytes_decides, nat_list_eq_equiv};
ghost use Rattle.std.specs.Hash as fed;
ghost use Rattle.rail_text.specs.Names.{AreNumbered};

use crate::NoMemory;
use indexmap::{Equivalent, IndexSet};
use std::alloc::Global;
use std::hash::{Hash, Hasher};
use std::marker::Model;

// The bytes of a word, by which the name that they spell is found.
#[derive(Clone, Copy, PartialEq, Eq)]
struct Spelled<'a> {
    word: &'a [u8],
}

// Hashed as the text of these bytes is.
impl<'a> Hash for Spelled<'a> {
    ghost hash_input = { λ spelled. fed.str spelled.word.now };

    ghost respects_eq = { λ x y h. ap fed.str ((bytes_decides x.word.now y.word.now).0 h) };

    fn hash<H: Hasher>(&self, state: &mut H) {
        state.write(self.word);
        state.write_u8(255);
    }
}

impl<'a> Equivalent<String> for Spelled<'a> {
    ghost equivalent = { λ spelled name. bytes_eq spelled.word.now (string_bytes name) };

    ghost respects_hash = { λ spelled name h. ap fed.str ((bytes_decides spelled.word.now (string_bytes name)).0 h) };

    ghost respects_eq = { λ spelled x y. nat_list_eq_equiv.congr spelled.word.now (string_bytes x) (string_bytes y) };

    fn equivalent(&self, name: &String) -> bool {
        self.word == name.as_bytes()
    }
}

/// Distinct names, numbered from 0.
#[derive(Drop)]
pub struct Names {
    alloc: Global,
    set: IndexSet<String>,
}

impl Model for Names {
    ghost use Rattle.std.specs.Prelude.{List, ℕ, map, string_bytes};
    ghost use Rattle.rail_text.specs.Names.{AreNumbered};

    ghost Value = { List (List ℕ) };

    ghost view = { λ s. map (λ name. string_bytes name) s.set.keys };

    ghost invariant = { λ s. AreNumbered (map (λ name. string_bytes name) s.set.keys) };
}

impl Names {
    /// No name. It keeps the allocator, by which `add` grows, and takes no memory.
    pub fn new(alloc: Global) -> Names
        ensures { result ≡ [] }
    {
        Names {
            alloc,
            set: IndexSet::new(alloc),
        }
    }

    /// How many names there are. No name stands twice, and there are at most 2^32.
    pub fn len(&self) -> usize
        ensures len { result ≡ length self.now }
        ensures numbered { AreNumbered self.now }
    {
        self.set.len()
    }

    /// Whether there is no name.
    pub fn is_empty(&self) -> bool
        ensures { result ≡ (length self.now == 0) }
    {
        self.set.is_empty()
    }

    /// Whether the name is there.
    pub fn contains(&self, name: &str) -> bool
        ensures there { result ≡ list_any (bytes_eq name.now) self.now }
        ensures numbered { AreNumbered self.now }
    {
        self.set.contains(name)
    }

    // Adds a name that is not there yet.
    fn append(&mut self, name: &str) -> Result<(), NoMemory>
        requires absent { list_any (bytes_eq name.now) self.old ≡ false }
        requires few { length self.old < 2 ^ 32 }
        ensures ok { OnOk result (self.new ≡ self.old ++ name.now ∷ []) }
        ensures err { OnErr result (self.new ≡ self.old) }
        ensures numbered { AreNumbered self.new }
    {
        let name = String::from_str(self.alloc, name)?;
        self.set.insert(name)?;
        Ok(())
    }

    /// Adds a name, and gives its number, one more than the last name's. `None`, and nothing
    /// changes, exactly where the name is there already. After `NoMemory` nothing has changed; it
    /// comes only at a name that isn't there.
    pub fn add(&mut self, name: &str) -> Result<Option<u32>, NoMemory>
        requires { length self.old < 2 ^ 32 }
        ensures found { IfOk result (λ r. is_some r ≡ not (list_any (bytes_eq name.now) self.old)) }
        ensures names { IfOk result (λ r. MatchOption r (self.new ≡ self.old) (λ k.
            (k ≡ length self.old) × (self.new ≡ self.old ++ name.now ∷ []))) }
        ensures err { OnErr result (self.new ≡ self.old) }
        ensures err_absent { OnErr result (list_any (bytes_eq name.now) self.old ≡ false) }
        ensures numbered { AreNumbered self.new }
    {
        if self.contains(name) {
            return Ok(None);
        }
        let number = self.len() as u32;
        self.append(name)?;
        Ok(Some(number))
    }

    fn first_number(&self, name: &str) -> Option<u32>
        ensures first { result ≡ position (bytes_eq name.now) self.now }
        ensures numbered { AreNumbered self.now }
    {
        let at = self.set.get_index_of(name)?;
        Some(at as u32)
    }

    /// The number of a name; `None` exactly where it isn't there.
    #[tactic(auto, using(crate::proofs::DistinctNames::distinct_rules))]
    pub fn number_of(&self, name: &str) -> Option<u32>
        ensures first { result ≡ position (bytes_eq name.now) self.now }
        ensures there { IfSome result (λ i. slice_get self.now i ≡ Some name.now) }
        ensures own { (i : ℕ) → slice_get self.now i ≡ Some name.now → result ≡ Some i }
    {
        self.first_number(name)
    }

    /// The number of the name that a word spells; `None` exactly where it isn't there.
    pub fn number_of_word(&self, word: &[u8]) -> Option<u32>
        ensures first { result ≡ position (bytes_eq word.now) self.now }
        ensures numbered { AreNumbered self.now }
    {
        let at = self.set.get_index_of(Spelled { word })?;
        Some(at as u32)
    }

    /// The name with this number.
    pub fn name_of(&self, number: u32) -> &str
        requires { number < length self.now }
        ensures name { slice_get self.now number ≡ Some result.now }
        ensures numbered { AreNumbered self.now }
    {
        self.set.get_index(number as usize).unwrap().as_str()
    }
}
