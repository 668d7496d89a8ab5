//! What stands at the places of a box.

ghost use Rattle.std.specs.Prelude.{◌≡◌, ◌<◌, All, length};
ghost use Rattle.train_moves.specs.Standings.{first_standing};

use track_circuits::Tracks;

/// A place with the train that stands there.
#[derive(Clone, Copy, Debug, PartialEq, Eq)]
pub struct Standing {
    pub place: u32,
    pub train: u32,
}

/// The first of these places on which a train stands, with the train.
pub fn first_standing(tracks: &Tracks, wanted: &[u32]) -> Option<Standing>
    requires { All (λ place. place < length tracks.now) wanted.now }
    ensures { result ≡ first_standing tracks.now wanted.now }
{
    for place in wanted {
        if let Some(train) = tracks.occupant(*place) {
            return Some(Standing {
                place: *place,
                train,
            });
        }
    }
    None
}
