//! What a lever is answered.

ghost use Rattle.std.specs.Prelude.{◌≡◌, ◌<◌, All, length};
ghost use Rattle.lever_frame.specs.Replies.{track_reply};

use track_circuits::Tracks;

/// What becomes of a lever that is to be pulled or put back.
#[derive(Clone, Copy, Debug, PartialEq, Eq)]
pub enum LeverReply {
    /// Nothing holds it.
    Free,
    /// It stands there already. A spare lever is always normal.
    AlreadyThere,
    /// It is spare.
    Spare,
    /// This row of the locking table is the first that holds it, and names the lever.
    HeldByLever { lever: u32, row: u32 },
    /// The train stands on this place, the first occupied one of those that lock it.
    HeldByTrack { place: u32, train: u32 },
}

/// Whether a train holds a lever that these places lock, and which one on which place.
pub fn track_reply(tracks: &Tracks, places: &[u32]) -> LeverReply
    requires { All (λ place. place < length tracks.now) places.now }
    ensures { result ≡ track_reply tracks.now places.now }
{
    for place in places {
        if let Some(train) = tracks.occupant(*place) {
            return LeverReply::HeldByTrack {
                place: *place,
                train,
            };
        }
    }
    LeverReply::Free
}
