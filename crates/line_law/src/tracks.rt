//! What stands at the places of a box.

ghost use Rattle.std.specs.Prelude.{◌≡◌, ◌<◌, All, length};
ghost use Rattle.line_law.specs.Tracks.{first_standing, train_on};

/// A place with the train that stands there.
#[derive(Clone, Copy, Debug, PartialEq, Eq)]
pub struct Standing {
    pub place: u32,
    pub train: u32,
}

/// The train at a place.
pub fn train_on(places: &[Option<u32>], place: u32) -> Option<u32>
    requires { place < length places.now }
    ensures { result ≡ train_on places.now place }
{
    places[place as usize]
}

/// The first of these places on which a train stands, with the train.
pub fn first_standing(places: &[Option<u32>], wanted: &[u32]) -> Option<Standing>
    requires { All (λ place. place < length places.now) wanted.now }
    ensures { result ≡ first_standing places.now wanted.now }
{
    for place in wanted {
        if let Some(train) = train_on(places, *place) {
            return Some(Standing {
                place: *place,
                train,
            });
        }
    }
    None
}
