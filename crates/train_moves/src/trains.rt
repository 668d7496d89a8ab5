//! Which trains were brought at a box.

ghost use Rattle.std.specs.Prelude.{◌≡◌, ◌<◌, ◌-◌, IfOk, Some, false, length, replicate, true};
ghost use Rattle.track_circuits.specs.Tracks.{occupant_of};
ghost use Rattle.train_moves.specs.Bringing.{bring_reply, tracks_after, trains_after, was_brought};
ghost use Rattle.train_moves.specs.declared.trains.BringReply.TheVariants.{Brought};

use line_plan::Plan;
use rail_text::NoMemory;
use std::alloc::Global;
use std::marker::Model;
use track_circuits::Tracks;

/// What comes of bringing a train.
#[derive(Clone, Copy, Debug, PartialEq, Eq)]
pub enum BringReply {
    /// It stands at its place.
    Brought,
    /// It was brought before.
    AlreadyBrought,
    /// This train stands at its place.
    Occupied { place: u32, train: u32 },
}

/// Which trains of a plan were brought at one of its boxes.
///
/// Contracts see it as a `TrainsHere`: the box, and a list of truth values, that of train `t` at `t - 1`.
#[derive(Debug, Drop)]
pub struct Trains {
    box_no: u32,
    brought: Vec<bool>,
}

impl Model for Trains {
    ghost use Rattle.train_moves.specs.TrainsHere.{TrainsHere};

    ghost Value = { TrainsHere };

    ghost view = { λ t. record { box_no = t.box_no; brought = t.brought.items } };
}

impl Trains {
    /// The trains of a plan at a box as the line opens: none is brought.
    ///
    /// # Errors
    ///
    /// `NoMemory` where memory runs out.
    pub fn new(alloc: Global, plan: &Plan, box_no: u32) -> Result<Trains, NoMemory>
        requires { box_no < length plan.now.boxes }
        ensures { IfOk result (λ trains. trains
            ≡ record { box_no = box_no; brought = replicate (length plan.now.trains) false }) }
    {
        let brought = vec![in alloc; false; plan.trains.len()]?;
        Ok(Trains { box_no, brought })
    }

    /// The box at which they are brought.
    pub fn box_no(&self) -> u32
        ensures { result ≡ self.now.box_no }
    {
        self.box_no
    }

    /// Brings a train to a place of the box: the one that the plan gives it there. It takes no memory.
    ///
    /// `AlreadyBrought` comes exactly where it was brought before. Else `Occupied` comes exactly where a train stands
    /// at the place. With both nothing changes.
    pub fn bring(&mut self, tracks: &mut Tracks, place: u32, train: u32) -> BringReply
        requires low { 0 < train }
        requires train { train - 1 < length self.old.brought }
        requires place { place < length tracks.old }
        ensures reply { result ≡ bring_reply self.old.brought tracks.old place train }
        ensures trains { self.new ≡ record self.old { brought = trains_after result self.old.brought train } }
        ensures tracks { tracks.new ≡ tracks_after result tracks.old place train }
        ensures stands { result ≡ Brought → occupant_of tracks.new place ≡ Some train }
        ensures once { result ≡ Brought → was_brought self.new.brought train ≡ true }
    {
        let brought = &mut self.brought[(train - 1) as usize];
        if *brought {
            return BringReply::AlreadyBrought;
        }
        match tracks.enter(place, train) {
            Ok(()) => {
                *brought = true;
                BringReply::Brought
            }
            Err(there) => BringReply::Occupied {
                place,
                train: there.train,
            },
        }
    }
}
