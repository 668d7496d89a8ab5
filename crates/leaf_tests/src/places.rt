//! Trains enter and leave the places of a box.
ghost use Rattle.std.specs.Prelude.{◌≡◌, length};

use crate::facts::all_hold;
use std::process::Abort;
use std::test::Fail;
use track_circuits::{Occupied, Tracks};

fn are_entered_and_left(rt: &impl Abort, tracks: &mut Tracks)
    requires { length tracks.old ≡ 3 }
{
    let is_empty = tracks.occupant(1).is_none() && tracks.occupant(2).is_none();
    let entered = tracks.enter(1, 7);
    let occupied = tracks.enter(1, 8);
    let beside = tracks.enter(2, 8);
    let stand = tracks.occupant(1) == Some(7) && tracks.occupant(2) == Some(8);
    let left = tracks.leave(1);
    let again = tracks.leave(1);
    all_hold(
        rt,
        &[
            ("no train at first", is_empty),
            ("a train enters", entered == Ok(())),
            (
                "one train at each place",
                occupied == Err(Occupied { train: 7 }),
            ),
            ("another enters beside it", beside == Ok(())),
            ("both stand", stand),
            ("the first leaves", left == Some(7)),
            ("its place is empty", again.is_none()),
            ("the other stays", tracks.occupant(2) == Some(8)),
        ],
    );
}

#[test]
fn a_place_holds_one_train_until_it_leaves(rt: HostRuntime) -> Result<(), Fail> {
    let mut tracks = Tracks::new(rt.alloc(), 3)?;
    are_entered_and_left(&rt, &mut tracks);
    Ok(())
}
