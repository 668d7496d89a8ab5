//! The dogs of a bridle.

ghost use Rattle.std.specs.Prelude.{◌≡◌};

use crate::bridle::Dog;
use std::marker::Model;

/// A list of dogs, which contracts see as the list.
#[derive(Debug, Drop)]
pub struct Dogs {
    items: Vec<Dog>,
}

impl Model for Dogs {
    ghost use Rattle.std.specs.Prelude.{List};
    ghost use Rattle.bridle_frame.specs.declared.bridle.Dog.{Dog};

    ghost Value = { List Dog };

    ghost view = { λ d. d.items.items };
}

impl Dogs {
    /// The dogs of a `Vec`.
    pub fn from_vec(items: Vec<Dog>) -> Self
        ensures { result ≡ items.items }
    {
        Dogs { items }
    }

    /// The dogs as a `Vec` again.
    pub fn into_vec(self) -> Vec<Dog>
        ensures { result.items ≡ self }
    {
        self.items
    }

    /// The dogs as a slice.
    pub fn as_slice(&self) -> &[Dog]
        ensures { result.now ≡ self.now }
    {
        &self.items
    }
}

impl PartialEq for Dogs {
    ghost use Rattle.std.specs.Cmp.Lexicographic.{lists_per, pointwise};
    ghost use Rattle.bridle_frame.specs.contracts.bridle.DogPartialEq.TheImpl.{ghosts as dog_ghosts};
    ghost use Rattle.bridle_frame.specs.contracts.bridle.DogPartialEq.TheImpl.Laws.{laws-law};

    ghost eq = { pointwise dog_ghosts.eq };

    ghost laws = { lists_per laws-law };

    fn eq(&self, other: &Dogs) -> bool {
        self.items == other.items
    }
}

impl Eq for Dogs {
    ghost use Rattle.std.specs.Cmp.Lexicographic.{lists_equiv};
    ghost use Rattle.bridle_frame.specs.contracts.bridle.DogEq.TheImpl.Laws.{laws-law};

    ghost laws = { lists_equiv laws-law };
}
