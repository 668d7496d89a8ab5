//! Whether a thing stands as before.

ghost use Rattle.std.specs.Prelude.{◌≡◌, ◌↔◌, IsTrue};

use crate::thing::{BoxThing, LineTrains};
use bell_codes::CodeNo;
use block_words::{Position, Way};

// Whether a thing is this lever.
fn is_lever(old: BoxThing, number: u32, is_reversed: bool, arm: Option<bool>) -> bool
    ensures { IsTrue result ↔ (old ≡ BoxThing.Lever number is_reversed arm) }
{
    match old {
        BoxThing::Lever {
            number: n,
            is_reversed: r,
            arm: a,
        } => n == number && r == is_reversed && a == arm,
        _ => false,
    }
}

// Whether a thing is this place.
fn is_place(old: BoxThing, place: u32, train: Option<u32>) -> bool
    ensures { IsTrue result ↔ (old ≡ BoxThing.Place place train) }
{
    match old {
        BoxThing::Place { place: p, train: t } => p == place && t == train,
        _ => false,
    }
}

// Whether a thing is this bell.
fn is_bell(old: BoxThing, way: Way, unheard: Option<CodeNo>) -> bool
    ensures { IsTrue result ↔ (old ≡ BoxThing.Bell way unheard) }
{
    match old {
        BoxThing::Bell { way: w, unheard: u } => w == way && u == unheard,
        _ => false,
    }
}

// Whether a thing is this instrument.
fn is_block(old: BoxThing, way: Way, position: Position) -> bool
    ensures { IsTrue result ↔ (old ≡ BoxThing.Block way position) }
{
    match old {
        BoxThing::Block {
            way: w,
            position: p,
        } => w == way && p == position,
        _ => false,
    }
}

// Whether the same two trains are there.
fn are_two(old: (Option<u32>, Option<u32>), new: (Option<u32>, Option<u32>)) -> bool
    ensures { IsTrue result ↔ (old ≡ new) }
{
    old.0 == new.0 && old.1 == new.1
}

// Whether the same trains are there.
fn are_trains(old: LineTrains, new: LineTrains) -> bool
    ensures { IsTrue result ↔ (old ≡ new) }
{
    are_two((old.first, old.second), (new.first, new.second))
        && are_two((old.third, old.fourth), (new.third, new.fourth))
}

// Whether a thing is this plain line.
fn is_line(old: BoxThing, way: Way, trains: LineTrains, is_portion: bool) -> bool
    ensures { IsTrue result ↔ (old ≡ BoxThing.Line way trains is_portion) }
{
    match old {
        BoxThing::Line {
            way: w,
            trains: t,
            is_portion: p,
        } => w == way && are_trains(t, trains) && p == is_portion,
        _ => false,
    }
}

/// Whether a thing stands as before.
pub fn is_same(old: BoxThing, new: BoxThing) -> bool
    ensures { IsTrue result ↔ (old ≡ new) }
{
    match new {
        BoxThing::Lever {
            number,
            is_reversed,
            arm,
        } => is_lever(old, number, is_reversed, arm),
        BoxThing::Place { place, train } => is_place(old, place, train),
        BoxThing::Bell { way, unheard } => is_bell(old, way, unheard),
        BoxThing::Block { way, position } => is_block(old, way, position),
        BoxThing::Line {
            way,
            trains,
            is_portion,
        } => is_line(old, way, trains, is_portion),
    }
}
