//! Numbers that are found without a scan.

ghost use Rattle.std.specs.Prelude.{◌≡◌, ◌==◌, ◌<◌, [], ◌∷◌, ◌++◌, length, position, false, OnOk, OnErr};
ghost use Rattle.std.specs.List.{list_any};
ghost use Rattle.line_plan.specs.Numbers.{AreAlike};

use rail_text::NoMemory;
use std::alloc::{AllocError, Global};
use std::marker::Model;

/// Different numbers in the order in which they came.
///
/// A number is found by an index: at the number it has one more than the number's place, and at any other number 0 or
/// nothing. So it is longer than the greatest number, and meant for small ones.
#[derive(Drop)]
pub struct Numbers {
    numbers: Vec<u32>,
    places: Vec<usize>,
}

impl Model for Numbers {
    ghost use Rattle.std.specs.Prelude.{List, ℕ};
    ghost use Rattle.line_plan.specs.Numbers.{IsIndex};

    ghost Value = { List ℕ };

    ghost view = { λ n. n.numbers.items };

    ghost invariant = { λ n. IsIndex n.numbers.items n.places.items };
}

// Makes room in an index for a number. What it has at each number stays.
fn widen(places: &mut Vec<usize>, number: u32) -> Result<(), NoMemory>
    ensures ok { OnOk result (number < length places.new.items) }
    ensures same { AreAlike places.old.items places.new.items }
{
    while places.len() <= number as usize {
        places.push(0)?;
    }
    Ok(())
}

impl Numbers {
    /// No number. It takes no memory.
    pub fn new(alloc: Global) -> Numbers
        ensures { result ≡ [] }
    {
        Numbers {
            numbers: Vec::new(alloc),
            places: Vec::new(alloc),
        }
    }

    /// Adds a number that isn't there.
    pub fn add(&mut self, number: u32) -> Result<(), NoMemory>
        requires { list_any (λ n. n == number) self.old ≡ false }
        ensures ok { OnOk result (self.new ≡ self.old ++ number ∷ []) }
        ensures err { OnErr result (self.new ≡ self.old) }
    {
        widen(&mut self.places, number)?;
        self.numbers.push(number)?;
        self.places[number as usize] = self.numbers.len();
        Ok(())
    }

    /// The place of a number, from 0.
    pub fn place_of(&self, number: u32) -> Option<usize>
        ensures { result ≡ position (λ n. n == number) self.now }
    {
        let count = *self.places.as_slice().get(number as usize)?;
        count.checked_sub(1)
    }
}

impl Clone for Numbers {
    ghost is_clone = { λ numbers copy. copy ≡ numbers };

    fn clone(&self) -> Result<Numbers, AllocError> {
        Ok(Numbers {
            numbers: self.numbers.clone()?,
            places: self.places.clone()?,
        })
    }
}
