//! Bridles, and where they are seated.

ghost use Rattle.std.specs.Prelude.{◌≡◌, ◌≤◌, ◌==◌, ◌↔◌, All, IsTrue, length, replicate};
ghost use Rattle.std.specs.List.{list_any};
ghost use Rattle.locking_table.specs.declared.places.End.TheVariants.{Normal as NormalEnd};
ghost use Rattle.locking_table.specs.Places.{IsLever, at_ends, stand_at, stand_of};
ghost use Rattle.bridle_frame.specs.Seated.{BridleFits, DogFits, IsSeated, all_normal, dogs_differ, has_notch};
ghost use Rattle.bridle_frame.specs.Seated.{holding_lever_in, lies_in, lying_dogs, seated};

use crate::dogs::Dogs;
use locking_table::{End, Stand, end_of, stand_of};

/// At which ends of its lever a dog has a notch. There is none at mid.
#[derive(Clone, Copy, Debug, PartialEq, Eq, Hash)]
pub enum Notches {
    Normal,
    Reversed,
    Both,
}

/// A dog on a bridle, with its notches in the lever's tappet.
#[derive(Clone, Copy, Debug, PartialEq, Eq, Hash)]
pub struct Dog {
    pub lever: u32,
    pub notches: Notches,
}

/// A bar with two to four dogs on different levers, made of a row of a locking table. It is seated where some
/// dog's lever stands at a notch of that dog.
#[derive(Debug, PartialEq, Eq, Drop)]
pub struct Bridle {
    /// The first dog is of the row's subject, the second of its object, the others of its conditions.
    pub dogs: Dogs,
    /// The number of the row, from 1.
    pub row: u32,
}

impl Notches {
    // Whether there is a notch where a lever stands so.
    fn has(self, stand: Stand) -> bool
        ensures { result ≡ has_notch self stand }
    {
        match self {
            Notches::Normal => stand == Stand::AtNormal,
            Notches::Reversed => stand == Stand::AtReversed,
            Notches::Both => stand == Stand::AtNormal || stand == Stand::AtReversed,
        }
    }

    /// Whether there is a notch where a lever stands at that end.
    pub(crate) fn has_end(self, end: End) -> bool
        ensures { result ≡ has_notch self (stand_at end) }
    {
        let at_normal = (self != Notches::Reversed) & (end == End::Normal);
        let at_reversed = (self != Notches::Normal) & (end == End::Reversed);
        at_normal | at_reversed
    }
}

impl Dog {
    // Whether the dog lies in a notch, with one lever brought to a place and all others at their ends.
    fn lies(&self, ends: &[End], moved: u32, place: Stand) -> bool
        requires { DogFits (length ends.now) self.now }
        ensures { result ≡ lies_in (stand_of ends.now moved place) self.now }
    {
        self.notches.has(stand_of(ends, moved, place, self.lever))
    }

    // Whether the dog lies in a notch, with all levers at their ends.
    fn lies_at_end(&self, ends: &[End]) -> bool
        requires { DogFits (length ends.now) self.now }
        ensures { result ≡ lies_in (at_ends ends.now) self.now }
    {
        self.notches.has_end(end_of(ends, self.lever))
    }
}

impl Bridle {
    /// Whether the bridle is seated, with the lever `moved` brought to a place and all others at their ends.
    pub fn is_seated(&self, ends: &[End], moved: u32, place: Stand) -> bool
        requires { BridleFits (length ends.now) self.now }
        ensures { result ≡ seated (stand_of ends.now moved place) self.now }
    {
        any_lies(self.dogs.as_slice(), ends, moved, place)
    }

    /// How many of the bridle's dogs lie in notches, with all levers at their ends.
    pub fn lying_dogs(&self, ends: &[End]) -> usize
        requires { BridleFits (length ends.now) self.now }
        ensures { result ≡ lying_dogs (at_ends ends.now) self.now.dogs }
    {
        lying_dogs(self.dogs.as_slice(), ends)
    }

    /// Whether the bridle has two to four dogs, on different levers of a frame of levers 1 to `levers`.
    #[tactic(auto, using(crate::proofs::Seats::dog_rules))]
    pub fn fits(&self, levers: u32) -> bool
        ensures { IsTrue result ↔ BridleFits levers self.now }
    {
        let dogs = self.dogs.as_slice();
        2 <= dogs.len() && dogs.len() <= 4 && all_fit(dogs, levers) && dogs_differ(dogs)
    }

    /// Whether the bridle is seated where all levers of the frame are normal.
    #[tactic(auto, using(crate::proofs::Seats::opening_rules))]
    pub fn opens_seated(&self, levers: u32) -> bool
        requires { BridleFits levers self.now }
        ensures { IsTrue result ↔ IsSeated (at_ends (replicate levers NormalEnd)) self.now }
    {
        any_open(self.dogs.as_slice())
    }

    /// The lever that holds the lever `moved` by this bridle: the second dog's where the first dog is of
    /// `moved`, else the first dog's.
    pub fn holding_lever(&self, moved: u32) -> u32
        requires { 2 ≤ length self.now.dogs }
        ensures { result ≡ holding_lever_in self.now.dogs moved }
    {
        let dogs = self.dogs.as_slice();
        if dogs[0].lever == moved {
            dogs[1].lever
        } else {
            dogs[0].lever
        }
    }
}

fn any_lies(dogs: &[Dog], ends: &[End], moved: u32, place: Stand) -> bool
    requires { All (DogFits (length ends.now)) dogs.now }
    ensures { result ≡ list_any (lies_in (stand_of ends.now moved place)) dogs.now }
{
    dogs.iter().any(|dog| dog.lies(ends, moved, place))
}

fn lying_dogs(dogs: &[Dog], ends: &[End]) -> usize
    requires { All (DogFits (length ends.now)) dogs.now }
    ensures { result ≡ lying_dogs (at_ends ends.now) dogs.now }
{
    dogs.iter().filter(|dog| dog.lies_at_end(ends)).count()
}

// Whether some dog has a notch at normal.
fn any_open(dogs: &[Dog]) -> bool
    ensures { result ≡ list_any (lies_in all_normal) dogs.now }
{
    dogs.iter().any(|dog| dog.notches.has(Stand::AtNormal))
}

fn is_lever(levers: u32, lever: u32) -> bool
    ensures { IsTrue result ↔ IsLever levers lever }
{
    1 <= lever && lever <= levers
}

fn all_fit(dogs: &[Dog], levers: u32) -> bool
    ensures { IsTrue result ↔ All (DogFits levers) dogs.now }
{
    dogs.iter().all(|dog| is_lever(levers, dog.lever))
}

// Whether a dog is on the lever.
fn any_on(dogs: &[Dog], lever: u32) -> bool
    ensures { result ≡ list_any (λ dog. dog.lever == lever) dogs.now }
{
    dogs.iter().any(|dog| dog.lever == lever)
}

// Whether the dogs are on different levers.
fn dogs_differ(dogs: &[Dog]) -> bool
    ensures { result ≡ dogs_differ dogs.now }
{
    for (i, dog) in dogs.iter().enumerate() {
        if any_on(&dogs[i + 1..], dog.lever) {
            return false;
        }
    }
    true
}
