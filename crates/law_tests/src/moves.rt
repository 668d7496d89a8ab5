//! The trains of two boxes: which are brought, what keeps them from going, and where they go.

ghost use Rattle.std.specs.Prelude.{◌≡◌, IsTrue, length};
ghost use Rattle.train_moves.specs.Moves.{HasPlaces};

use crate::facts::holds;
use crate::lines::absolute;
use block_words::Way;
use line_plan::{Plan, Signal, To};
use rail_text::NoMemory;
use std::alloc::Global;
use std::test::Fail;
use track_circuits::Tracks;
use train_moves::{BringReply, MoveTest, Trains, go, move_test, plan_move};

// The signal of a lever of a box of the plan.
fn signal_of(plan: &Plan, box_no: usize, lever: u32) -> Option<&Signal> {
    plan_move(plan.boxes.as_slice().get(box_no)?, lever)
}

// Does a signal that runs over no place name no place but two?
fn is_of_two_places(signal: &Signal) -> bool
    ensures { IsTrue result → HasPlaces 2 signal.now }
{
    let is_there = match signal.to {
        To::Place(place) => place < 2,
        To::Section(_) | To::Away => true,
    };
    signal.from < 2 && signal.over.is_empty() && is_there
}

// Is each train brought once, to a place that is empty?
fn are_brought(tracks: &mut Tracks, trains: &mut Trains) -> bool
    requires places { length tracks.old ≡ 2 }
    requires trains { length trains.old.brought ≡ 6 }
    ensures { length tracks.new ≡ 2 }
{
    let third = trains.bring(tracks, 1, 3) == BringReply::Brought;
    let again = trains.bring(tracks, 1, 3) == BringReply::AlreadyBrought;
    let first = trains.bring(tracks, 0, 1) == BringReply::Brought;
    let there = BringReply::Occupied { place: 0, train: 1 };
    let second = trains.bring(tracks, 0, 2) == there;
    third & again & first & second
}

// Does the first train go past the starter at danger or off, and only by the call for that?
fn has_answers(tracks: &Tracks, starter: &Signal) -> bool
    requires places { length tracks.now ≡ 2 }
    requires starter { HasPlaces 2 starter.now }
{
    let free = MoveTest::Free { train: 1 };
    let passes_at_danger = move_test(tracks, starter, false, false) == MoveTest::AtDanger;
    let overruns_at_danger = move_test(tracks, starter, false, true) == free;
    let passes_off = move_test(tracks, starter, true, false) == free;
    let overruns_off = move_test(tracks, starter, true, true) == MoveTest::ArmOff;
    passes_at_danger & overruns_at_danger & passes_off & overruns_off
}

// The train that goes past a signal whose arm is off; none where it may not.
fn gone(tracks: &mut Tracks, signal: &Signal) -> Option<u32>
    requires places { length tracks.old ≡ 2 }
    requires signal { HasPlaces 2 signal.now }
    ensures { length tracks.new ≡ 2 }
{
    match move_test(tracks, signal, true, false) {
        MoveTest::Free { .. } => Some(go(tracks, signal)),
        _ => None,
    }
}

// Do the trains at Ash come to P and Q, and does the first go into the section?
fn go_from_ash(plan: &Plan, tracks: &mut Tracks, trains: &mut Trains) -> bool
    requires places { length tracks.old ≡ 2 }
    requires trains { length trains.old.brought ≡ 6 }
{
    let Some(starter) = signal_of(plan, 0, 8) else {
        return false;
    };
    if !is_of_two_places(starter) {
        return false;
    }
    let leads = starter.to == To::Section(Way::Down);
    let is_none = move_test(tracks, starter, true, false) == MoveTest::NoTrain;
    let are_brought = are_brought(tracks, trains);
    let has_answers = has_answers(tracks, starter);
    let goes = gone(tracks, starter) == Some(1);
    let is_left = (tracks.occupant(0) == None) & (tracks.occupant(1) == Some(3));
    leads & is_none & are_brought & has_answers & goes & is_left
}

// Does a train at Beech go from B to M, and is M then occupied for the next?
fn go_at_beech(plan: &Plan, tracks: &mut Tracks) -> bool
    requires { length tracks.old ≡ 2 }
{
    let Some(home) = signal_of(plan, 1, 1) else {
        return false;
    };
    if !is_of_two_places(home) {
        return false;
    }
    let first = tracks.enter(0, 1).is_ok();
    let goes = gone(tracks, home) == Some(1);
    let moved = (tracks.occupant(0) == None) & (tracks.occupant(1) == Some(1));
    let second = tracks.enter(0, 2).is_ok();
    let there = MoveTest::Occupied { place: 1, train: 1 };
    let is_occupied = move_test(tracks, home, true, false) == there;
    first & goes & moved & second & is_occupied
}

// Do the trains of Ash come and go?
fn ash_works(alloc: Global, plan: &Plan) -> Result<bool, NoMemory> {
    if plan.boxes.len() != 2 || plan.trains.len() != 6 {
        return Ok(false);
    }
    let mut tracks = Tracks::new(alloc, 2)?;
    match Trains::new(alloc, plan, 0) {
        Ok(mut trains) => {
            let goes = go_from_ash(plan, &mut tracks, &mut trains);
            let is_ash = trains.box_no() == 0;
            drop(trains);
            drop(tracks);
            Ok(goes & is_ash)
        }
        Err(error) => {
            drop(tracks);
            Err(error)
        }
    }
}

// Do the trains of Beech go on?
fn beech_works(alloc: Global, plan: &Plan) -> Result<bool, NoMemory> {
    let mut tracks = Tracks::new(alloc, 2)?;
    let goes = go_at_beech(plan, &mut tracks);
    drop(tracks);
    Ok(goes)
}

#[test]
fn trains_come_and_go(rt: HostRuntime) -> Result<(), Fail> {
    let plan = absolute(rt.alloc())?;
    let has_none = signal_of(&plan, 0, 7).is_none() & signal_of(&plan, 0, 1).is_none();
    let ash = ash_works(rt.alloc(), &plan);
    let beech = beech_works(rt.alloc(), &plan);
    drop(plan);
    holds(&rt, "levers without a signal", has_none);
    holds(&rt, "trains at Ash", ash?);
    holds(&rt, "trains at Beech", beech?);
    Ok(())
}
