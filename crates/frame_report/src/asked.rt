//! What is asked of a frame's states.

ghost use Rattle.std.specs.Prelude.{◌≤◌, IfErr, IfOk, length};
ghost use Rattle.locking_table.specs.Places.{most_levers};
ghost use Rattle.frame_report.specs.States.{AreHere, IsMissing};

use crate::fault::StatesFault;
use crate::frame::place_of;
use std::alloc::Global;

/// What is asked of a frame's states.
#[derive(Debug, Drop)]
pub struct StatesWanted {
    /// How many states may be kept.
    pub limit: u32,
    /// Levers, by their numbers, that are to be reversed together; none where this isn't asked.
    pub reach: Vec<u32>,
    /// Levers, by their numbers, that are never to be reversed together; none where this isn't asked.
    pub never: Vec<u32>,
}

/// The places of levers among those that a frame has, or the first that it hasn't.
pub fn places_of(alloc: Global, numbers: &[u32], levers: &[u32]) -> Result<Vec<u32>, StatesFault>
    requires { length numbers.now ≤ most_levers }
    ensures here { IfOk result (λ places. AreHere numbers.now levers.now places.items) }
    ensures missing { IfErr result (IsMissing numbers.now levers.now) }
{
    let mut places = Vec::with_capacity(alloc, levers.len())?;
    for lever in levers {
        let place = place_of(numbers, *lever);
        if place == 0 {
            return Err(StatesFault::NoLever(*lever));
        }
        places.push(place)?;
    }
    Ok(places)
}
