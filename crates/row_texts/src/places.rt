//! The places at which each key stands in a list, found by going over it once.

ghost use Rattle.std.specs.Prelude.{◌≡◌, ◌∷◌, ◌++◌, [], IfOk, OnOk};
ghost use Rattle.row_texts.specs.Places.{AreEmpty, AreFiled, IsFiled};

use locking_table::NoMemory;
use std::alloc::Global;
use std::marker::Model;

/// The places of one key, from 0, in order.
#[derive(Debug, Drop)]
pub struct Places {
    at: Vec<usize>,
}

impl Model for Places {
    ghost use Rattle.std.specs.Prelude.{List, ℕ};

    ghost Value = { List ℕ };

    ghost view = { λ p. p.at.items };
}

impl Places {
    fn new(alloc: Global) -> Places
        ensures { result ≡ [] }
    {
        Places {
            at: Vec::new(alloc),
        }
    }

    fn push(&mut self, place: usize) -> Result<(), NoMemory>
        ensures { OnOk result (self.new ≡ self.old ++ place ∷ []) }
    {
        self.at.push(place)?;
        Ok(())
    }

    /// The places as a slice.
    pub fn as_slice(&self) -> &[usize]
        ensures { result.now ≡ self.now }
    {
        &self.at
    }
}

// So many lists without a place.
#[tactic(auto, using(crate::proofs::PlaceLemmas::empty_more))]
fn no_places(alloc: Global, count: u64) -> Result<Vec<Places>, NoMemory>
    ensures { IfOk result (λ lists. AreEmpty count lists.items) }
{
    let mut lists = Vec::new(alloc);
    for made in 0..count {
        lists.push(Places::new(alloc))?;
    }
    Ok(lists)
}

// Puts a place behind those of a key, if it has a list.
#[tactic(auto, using(crate::proofs::PlaceLemmas::filed_is, crate::proofs::PlaceLemmas::filed_none))]
fn file(lists: &mut Vec<Places>, key: u32, place: usize) -> Result<(), NoMemory>
    ensures { OnOk result (IsFiled lists.old.items key place lists.new.items) }
{
    let at = key as usize;
    if at < lists.len() {
        lists[at].push(place)?;
    }
    Ok(())
}

/// For each key up to the most the places at which it stands.
#[tactic(auto, using(crate::proofs::PlaceLemmas::filed_start, crate::proofs::PlaceLemmas::filed_next))]
pub fn places_by_key(alloc: Global, keys: &[u32], most: u32) -> Result<Vec<Places>, NoMemory>
    ensures { IfOk result (λ lists. AreFiled most keys.now lists.items) }
{
    let mut lists = no_places(alloc, u64::from(most) + 1)?;
    for (place, key) in keys.iter().enumerate() {
        file(&mut lists, *key, place)?;
    }
    Ok(lists)
}
