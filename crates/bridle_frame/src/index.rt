//! The index of a frame: for each lever, at one of its ends, the bridles that have a dog lying in a notch of it.

ghost use Rattle.std.specs.Prelude.{◌≡◌, ◌<◌, ◌^◌, ◌∷◌, ◌++◌, [], All, IfOk, OnOk, length, replicate};
ghost use Rattle.bridle_frame.specs.Seated.{BridleFits, DogFits};
ghost use Rattle.bridle_frame.specs.Frames.{used_by, used_by_all};

use crate::bridle::{Bridle, Dog};
use locking_table::{End, NoMemory};
use std::alloc::Global;
use std::marker::Model;

/// The numbers, from 0, of the bridles that have a dog lying in a notch of one lever at an end, in order.
#[derive(Debug, Drop)]
pub struct Uses {
    numbers: Vec<u32>,
}

impl Model for Uses {
    ghost use Rattle.std.specs.Prelude.{List, ℕ};

    ghost Value = { List ℕ };

    ghost view = { λ u. u.numbers.items };
}

impl Uses {
    fn new(alloc: Global) -> Self
        ensures { result ≡ [] }
    {
        Uses {
            numbers: Vec::new(alloc),
        }
    }

    fn push(&mut self, number: u32) -> Result<(), NoMemory>
        ensures { OnOk result (self.new ≡ self.old ++ number ∷ []) }
    {
        self.numbers.push(number)?;
        Ok(())
    }

    /// The numbers as a slice.
    pub fn as_slice(&self) -> &[u32]
        ensures { result.now ≡ self.now }
    {
        &self.numbers
    }
}

// The index of a frame without bridles.
fn no_uses(alloc: Global, levers: u32) -> Result<Vec<Uses>, NoMemory>
    ensures { IfOk result (λ uses. uses.items ≡ replicate levers []) }
{
    let mut uses = Vec::new(alloc);
    for _ in 0..levers {
        uses.push(Uses::new(alloc))?;
    }
    Ok(uses)
}

// Puts a bridle's number behind those of each lever in which one of its dogs lies at that end.
fn add_uses(uses: &mut Vec<Uses>, dogs: &[Dog], end: End, number: u32) -> Result<(), NoMemory>
    requires { All (DogFits (length uses.old.items)) dogs.now }
    ensures { OnOk result (uses.new.items ≡ used_by uses.old.items end number dogs.now) }
{
    for dog in dogs {
        if dog.notches.has_end(end) {
            let uses_of = &mut uses[dog.lever as usize - 1];
            uses_of.push(number)?;
        }
    }
    Ok(())
}

/// For each lever the bridles that have a dog lying in a notch of it where it stands at that end.
pub fn index_of(
    alloc: Global,
    levers: u32,
    end: End,
    bridles: &[Bridle],
) -> Result<Vec<Uses>, NoMemory>
    requires few { length bridles.now < 2 ^ 32 }
    requires fits { All (BridleFits levers) bridles.now }
    ensures { IfOk result (λ uses. uses.items ≡ used_by_all (replicate levers []) end 0 bridles.now) }
{
    let mut uses = no_uses(alloc, levers)?;
    for (i, bridle) in bridles.iter().enumerate() {
        add_uses(&mut uses, bridle.dogs.as_slice(), end, i as u32)?;
    }
    Ok(uses)
}
