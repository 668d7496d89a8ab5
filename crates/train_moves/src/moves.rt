//! How a train passes a signal or overruns it.

ghost use Rattle.std.specs.Prelude.{◌≡◌, ◌<◌, All, IsSome, Some, length, option_map};
ghost use Rattle.line_plan.specs.Frames.{end_places, entered_by, signal_of};
ghost use Rattle.track_circuits.specs.Tracks.{occupant_of};
ghost use Rattle.train_moves.specs.Moves.{HasGone, HasPlaces, Tells, come_to, gone, move_test};
ghost use Rattle.train_moves.specs.Standings.{AreEmpty, first_standing};

use crate::standing::{Standing, first_standing};
use line_plan::{BoxPlan, Signal, To};
use track_circuits::Tracks;

/// Whether a train may go past a signal.
#[derive(Clone, Copy, Debug, PartialEq, Eq)]
pub enum MoveTest {
    /// This train, which stands at the signal, may go.
    Free { train: u32 },
    /// No train stands at the signal.
    NoTrain,
    /// A train is to pass, and the arm isn't off.
    AtDanger,
    /// A train is to overrun, and the arm is off.
    ArmOff,
    /// This train stands at this place, the first on the way that isn't empty.
    Occupied { place: u32, train: u32 },
}

/// The signal or starter that a lever works; none exactly where the box has neither for it.
pub fn plan_move(plan: &BoxPlan, lever: u32) -> Option<&Signal>
    ensures { option_map (λ signal. signal.now) result ≡ signal_of plan.now lever }
{
    plan.signal(lever)
}

// The first place that isn't empty on the way past a signal, with the train that stands there: the places run over, and
// then the one to which the signal leads.
fn first_in_way(tracks: &Tracks, signal: &Signal) -> Option<Standing>
    requires { HasPlaces (length tracks.now) signal.now }
    ensures { result ≡ first_standing tracks.now (entered_by signal.now) }
{
    if let Some(there) = first_standing(tracks, signal.over.as_slice()) {
        return Some(there);
    }
    match signal.to {
        To::Place(place) => first_standing(tracks, &[place]),
        To::Section(_) | To::Away => None,
    }
}

/// Whether a train may pass a signal whose arm is off or isn't, or overrun it. An overrun needs an arm at danger.
///
/// The answers are tested in the order `NoTrain`, `AtDanger` or `ArmOff`, `Occupied`, `Free`.
pub fn move_test(tracks: &Tracks, signal: &Signal, arm_off: bool, overrun: bool) -> MoveTest
    requires { HasPlaces (length tracks.now) signal.now }
    ensures answer { result ≡ move_test tracks.now signal.now arm_off overrun }
    ensures told { Tells tracks.now signal.now arm_off overrun result }
{
    let Some(train) = tracks.occupant(signal.from) else {
        return MoveTest::NoTrain;
    };
    if overrun && arm_off {
        return MoveTest::ArmOff;
    }
    if !overrun && !arm_off {
        return MoveTest::AtDanger;
    }
    match first_in_way(tracks, signal) {
        Some(there) => MoveTest::Occupied {
            place: there.place,
            train: there.train,
        },
        None => MoveTest::Free { train },
    }
}

// Lets a train that has left its place come to where a signal leads.
fn come_to(tracks: &mut Tracks, to: To, train: u32)
    requires places { All (λ place. place < length tracks.old) (end_places to) }
    requires empty { AreEmpty tracks.old (end_places to) }
    ensures { tracks.new ≡ come_to tracks.old train to }
{
    match to {
        To::Place(place) => tracks.enter(place, train).unwrap(),
        To::Section(_) | To::Away => {}
    }
}

/// Lets the train at a signal go where the signal leads, and gives the train. It then stands at the place to which the
/// signal leads, or at none where that is a section or off the line; nothing else moves. It takes no memory.
pub fn go(tracks: &mut Tracks, signal: &Signal) -> u32
    requires places { HasPlaces (length tracks.old) signal.now }
    requires train { IsSome (occupant_of tracks.old signal.now.from) }
    requires free { AreEmpty tracks.old (entered_by signal.now) }
    ensures train { occupant_of tracks.old signal.now.from ≡ Some result }
    ensures places { tracks.new ≡ gone tracks.old signal.now result }
    ensures gone { HasGone tracks.old tracks.new signal.now.from signal.now.to result }
{
    let train = tracks.leave(signal.from).unwrap();
    come_to(tracks, signal.to, train);
    train
}
