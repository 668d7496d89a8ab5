//! Whether a thing is seen as before.

ghost use Rattle.std.specs.Prelude.{◌≡◌, ◌↔◌, IsTrue};

use bell_codes::CodeNo;
use block_words::{Position, Way};
use line_plan::{Kind, To};
use line_scene::{Shown, Spot};

// Whether a thing is this place.
fn is_place(old: Shown, box_no: u32, place: u32, spot: Spot, train: Option<u32>) -> bool
    ensures { IsTrue result ↔ (old ≡ Shown.Place box_no place spot train) }
{
    match old {
        Shown::Place {
            box_no: b,
            place: p,
            spot: s,
            train: t,
        } => b == box_no && p == place && s == spot && t == train,
        _ => false,
    }
}

// Whether a thing is this arm.
fn is_arm(old: Shown, box_no: u32, lever: u32, spot: Spot, rank: u32, to: To, is_off: bool) -> bool
    ensures { IsTrue result ↔ (old ≡ Shown.Arm box_no lever spot rank to is_off) }
{
    match old {
        Shown::Arm {
            box_no: b,
            lever: l,
            spot: s,
            rank: r,
            to: t,
            is_off: o,
        } => b == box_no && l == lever && s == spot && r == rank && t == to && o == is_off,
        _ => false,
    }
}

// Whether a thing is this lever.
fn is_lever(old: Shown, box_no: u32, number: u32, kind: Kind, is_reversed: bool) -> bool
    ensures { IsTrue result ↔ (old ≡ Shown.Lever box_no number kind is_reversed) }
{
    match old {
        Shown::Lever {
            box_no: b,
            number: n,
            kind: k,
            is_reversed: r,
        } => b == box_no && n == number && k == kind && r == is_reversed,
        _ => false,
    }
}

// Whether a thing is this instrument.
fn is_instrument(old: Shown, rear: u32, way: Way, position: Position) -> bool
    ensures { IsTrue result ↔ (old ≡ Shown.Instrument rear way position) }
{
    match old {
        Shown::Instrument {
            rear: r,
            way: w,
            position: p,
        } => r == rear && w == way && p == position,
        _ => false,
    }
}

// Whether a thing is this bell.
fn is_bell(old: Shown, rear: u32, way: Way, unheard: Option<CodeNo>) -> bool
    ensures { IsTrue result ↔ (old ≡ Shown.Bell rear way unheard) }
{
    match old {
        Shown::Bell {
            rear: r,
            way: w,
            unheard: u,
        } => r == rear && w == way && u == unheard,
        _ => false,
    }
}

// Whether a thing is this train on a plain line.
fn is_on_line(
    old: Shown,
    rear: u32,
    way: Way,
    behind: u32,
    train: Option<u32>,
    is_portion: bool,
) -> bool
    ensures { IsTrue result ↔ (old ≡ Shown.OnLine rear way behind train is_portion) }
{
    match old {
        Shown::OnLine {
            rear: r,
            way: w,
            behind: b,
            train: t,
            is_portion: p,
        } => r == rear && w == way && b == behind && t == train && p == is_portion,
        _ => false,
    }
}

/// Whether a thing is seen as before.
pub fn is_same(old: Shown, new: Shown) -> bool
    ensures { IsTrue result ↔ (old ≡ new) }
{
    match new {
        Shown::Place {
            box_no,
            place,
            spot,
            train,
        } => is_place(old, box_no, place, spot, train),
        Shown::Arm {
            box_no,
            lever,
            spot,
            rank,
            to,
            is_off,
        } => is_arm(old, box_no, lever, spot, rank, to, is_off),
        Shown::Lever {
            box_no,
            number,
            kind,
            is_reversed,
        } => is_lever(old, box_no, number, kind, is_reversed),
        Shown::Instrument {
            rear,
            way,
            position,
        } => is_instrument(old, rear, way, position),
        Shown::Bell { rear, way, unheard } => is_bell(old, rear, way, unheard),
        Shown::OnLine {
            rear,
            way,
            behind,
            train,
            is_portion,
        } => is_on_line(old, rear, way, behind, train, is_portion),
    }
}
