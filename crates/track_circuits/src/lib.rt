//! The track circuits of a box: each of its places holds at most one train.
#![tactic(auto)]

ghost use Rattle.std.specs.Prelude.{
  ◌≡◌,
  ◌<◌,
  OnOk,
  OnErr,
  IfOk,
  IfErr,
  None,
  Some,
  length,
  replicate,
  slice_set,
};
ghost use Rattle.track_circuits.specs.Tracks.{occupant_of};

use rail_text::NoMemory;
use std::alloc::Global;
use std::marker::Model;

/// A place that a train cannot enter, since this train stands there.
#[derive(Clone, Copy, Debug, PartialEq, Eq)]
pub struct Occupied {
    pub train: u32,
}

/// Which train stands at each place of a box, if any. Places are numbered from 0.
///
/// Contracts see it as the list of the places' occupants.
#[derive(Debug, Drop)]
pub struct Tracks {
    occupants: Vec<Option<u32>>,
}

impl Model for Tracks {
    ghost use Rattle.std.specs.Prelude.{List, Option, ℕ};

    ghost Value = { List (Option ℕ) };

    ghost view = { λ t. t.occupants.items };
}

impl Tracks {
    /// The track circuits of this many places, all empty.
    ///
    /// # Errors
    ///
    /// `NoMemory` where memory runs out.
    pub fn new(alloc: Global, places: u32) -> Result<Tracks, NoMemory>
        ensures { IfOk result (λ tracks. tracks ≡ replicate places None) }
    {
        let occupants = vec![in alloc; None; places as usize]?;
        Ok(Tracks { occupants })
    }

    /// Lets a train stand at an empty place.
    ///
    /// # Errors
    ///
    /// `Occupied`, with the train that stands there and all places unchanged, exactly where the place has one.
    pub fn enter(&mut self, place: u32, train: u32) -> Result<(), Occupied>
        requires { place < length self.old }
        ensures empty { OnOk result (occupant_of self.old place ≡ None) }
        ensures entered { OnOk result (self.new ≡ slice_set self.old place (Some train)) }
        ensures occupied { IfErr result (λ o. occupant_of self.old place ≡ Some o.train) }
        ensures kept { OnErr result (self.new ≡ self.old) }
    {
        let occupant = &mut self.occupants[place as usize];
        if let Some(train) = *occupant {
            return Err(Occupied { train });
        }
        *occupant = Some(train);
        Ok(())
    }

    /// Empties a place, and gives the train that stood there, if one did.
    pub fn leave(&mut self, place: u32) -> Option<u32>
        requires { place < length self.old }
        ensures occupant { result ≡ occupant_of self.old place }
        ensures empty { self.new ≡ slice_set self.old place None }
    {
        self.occupants[place as usize].take()
    }

    /// The train that stands at a place, if one does.
    pub fn occupant(&self, place: u32) -> Option<u32>
        requires { place < length self.now }
        ensures { result ≡ occupant_of self.now place }
    {
        self.occupants[place as usize]
    }
}
