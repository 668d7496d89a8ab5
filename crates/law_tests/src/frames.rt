//! The lever frame of a box: what its levers are answered, and how they and their arms move.

ghost use Rattle.std.specs.Prelude.{◌≡◌, ◌<◌, length};
ghost use Rattle.line_law.specs.Sound.{IsSound};
ghost use Rattle.lever_frame.specs.LeverFrames.{IsFrameOf};

use crate::facts::holds;
use crate::lines::absolute;
use lever_frame::{LeverFrame, LeverReply, answer_law, frame_law};
use line_plan::{BoxPlan, Plan};
use locking_table::End;
use std::alloc::Global;
use std::process::Abort;
use std::test::Fail;
use track_circuits::Tracks;

// What is done to a lever, whether it is pulled or else put back, the lever, and what it is answered.
type Move = (&'static str, bool, u32, LeverReply);

const FREE: LeverReply = LeverReply::Free;

const THERE: LeverReply = LeverReply::AlreadyThere;

const HELD_BY_5: LeverReply = LeverReply::HeldByLever { lever: 5, row: 1 };

const HELD_BY_2: LeverReply = LeverReply::HeldByLever { lever: 2, row: 1 };

const HELD_BY_3: LeverReply = LeverReply::HeldByLever { lever: 3, row: 2 };

const HELD_BY_1: LeverReply = LeverReply::HeldByLever { lever: 1, row: 3 };

const HELD_BY_TRAIN: LeverReply = LeverReply::HeldByTrack { place: 1, train: 3 };

// Moves of a new frame, with every place empty.
const ONE_LOCKS_THE_OTHER: [Move; 6] = [
    ("5 is pulled", true, 5, FREE),
    ("2 is held by 5", true, 2, HELD_BY_5),
    ("5 is put back", false, 5, FREE),
    ("2 is pulled", true, 2, FREE),
    ("2 is pulled again", true, 2, THERE),
    ("5 is held by 2", true, 5, HELD_BY_2),
];

const BOTH_WAYS: [Move; 6] = [
    ("4 is pulled", true, 4, FREE),
    ("3 is pulled", true, 3, FREE),
    ("4 is held by 3", false, 4, HELD_BY_3),
    ("3 is put back", false, 3, FREE),
    ("4 is put back", false, 4, FREE),
    ("4 is put back again", false, 4, THERE),
];

const WHEN_ANOTHER_IS_REVERSED: [Move; 3] = [
    ("1 is pulled", true, 1, FREE),
    ("2 is pulled after 1", true, 2, FREE),
    ("6 is held by 1", true, 6, HELD_BY_1),
];

// Moves of a new frame, with the third train on the second place.
const WITH_A_TRAIN: [Move; 4] = [
    ("7 is spare", true, 7, LeverReply::Spare),
    ("7 is always normal", false, 7, THERE),
    ("3 is held by the train", true, 3, HELD_BY_TRAIN),
    ("no place locks 4", true, 4, FREE),
];

// The first box of a plan, all of whose numbers are its own.
fn first_box(plan: &Plan) -> &BoxPlan
    ensures { IsSound result.now }
{
    plan.meets_conditions();
    &plan.boxes.as_slice()[0]
}

// Pulls a lever, or puts it back.
fn work(
    rt: &impl Abort,
    plan: &BoxPlan,
    frame: &mut LeverFrame,
    tracks: &Tracks,
    lever: u32,
    pulls: bool,
) -> LeverReply
    requires sound { IsSound plan.now }
    requires frame { IsFrameOf plan.now frame.old }
    requires tracks { length tracks.now ≡ length plan.now.places }
    ensures { IsFrameOf plan.now frame.new }
{
    answer_law();
    frame_law();
    assert!(rt; 1 <= lever && lever <= plan.frame_size());
    if pulls {
        frame.pull_local(lever, tracks)
    } else {
        frame.put_local(lever, tracks)
    }
}

// Works the levers of a frame in turn.
fn work_all(
    rt: &impl Abort,
    plan: &BoxPlan,
    frame: &mut LeverFrame,
    tracks: &Tracks,
    moves: &[Move],
)
    requires sound { IsSound plan.now }
    requires frame { IsFrameOf plan.now frame.old }
    requires tracks { length tracks.now ≡ length plan.now.places }
{
    for (name, pulls, lever, wanted) in moves {
        let reply = work(rt, plan, frame, tracks, *lever, *pulls);
        holds(rt, name, reply == *wanted);
    }
}

// Works the levers of a new frame in turn.
fn work_new(rt: &impl Abort, alloc: Global, plan: &BoxPlan, tracks: &Tracks, moves: &[Move])
    requires sound { IsSound plan.now }
    requires tracks { length tracks.now ≡ length plan.now.places }
{
    let mut frame = LeverFrame::new(alloc, plan).expect(rt, "memory");
    work_all(rt, plan, &mut frame, tracks, moves);
    drop(frame);
}

// Does a lever stand reversed, and is its arm off?
fn state(rt: &impl Abort, plan: &BoxPlan, frame: &LeverFrame, lever: u32) -> (bool, bool)
    requires { IsFrameOf plan.now frame.now }
{
    assert!(rt; 1 <= lever && lever <= plan.frame_size());
    (frame.end(lever) == End::Reversed, frame.arm_off(lever))
}

// A train passes the signal of a lever.
fn pass(rt: &impl Abort, plan: &BoxPlan, frame: &mut LeverFrame, lever: u32)
    requires { IsFrameOf plan.now frame.old }
    ensures { IsFrameOf plan.now frame.new }
{
    frame_law();
    assert!(rt; 1 <= lever && lever <= plan.frame_size());
    frame.passed(lever);
}

// What would a pull be answered?
fn tested(
    rt: &impl Abort,
    plan: &BoxPlan,
    frame: &LeverFrame,
    tracks: &Tracks,
    lever: u32,
) -> LeverReply
    requires sound { IsSound plan.now }
    requires frame { IsFrameOf plan.now frame.now }
    requires tracks { length tracks.now ≡ length plan.now.places }
{
    answer_law();
    assert!(rt; 1 <= lever && lever <= plan.frame_size());
    frame.pull_test(lever, tracks)
}

// The arm of a starter goes off, then to danger; points have none.
fn move_arms(rt: &impl Abort, plan: &BoxPlan, frame: &mut LeverFrame, tracks: &Tracks)
    requires sound { IsSound plan.now }
    requires frame { IsFrameOf plan.now frame.old }
    requires tracks { length tracks.now ≡ length plan.now.places }
{
    let tested = tested(rt, plan, frame, tracks, 8);
    let untouched = state(rt, plan, frame, 8);
    let starter = work(rt, plan, frame, tracks, 8, true);
    let off = state(rt, plan, frame, 8);
    pass(rt, plan, frame, 8);
    let passed = state(rt, plan, frame, 8);
    let points = work(rt, plan, frame, tracks, 5, true);
    let without_arm = state(rt, plan, frame, 5);
    holds(rt, "a test moves nothing", untouched == (false, false));
    holds(rt, "the test says what the pull says", tested == starter);
    holds(rt, "the starter's arm is off", off == (true, true));
    holds(rt, "a train passed it", passed == (true, false));
    holds(rt, "points are pulled", points == FREE);
    holds(rt, "points have no arm", without_arm == (true, false));
    holds(rt, "three bridles", frame.bridles().len() == 3);
}

// The same of a new frame.
fn move_new_arms(rt: &impl Abort, alloc: Global, plan: &BoxPlan, tracks: &Tracks)
    requires sound { IsSound plan.now }
    requires tracks { length tracks.now ≡ length plan.now.places }
{
    let mut frame = LeverFrame::new(alloc, plan).expect(rt, "memory");
    move_arms(rt, plan, &mut frame, tracks);
    drop(frame);
}

// A train comes to stand at an empty place.
fn enter(rt: &impl Abort, tracks: &mut Tracks, place: u32, train: u32)
    requires { place < length tracks.old }
    ensures { length tracks.new ≡ length tracks.old }
{
    let entered = tracks.enter(place, train);
    holds(rt, "the place is empty", entered.is_ok());
}

// The frames of a box.
fn work_box(rt: &impl Abort, alloc: Global, plan: &BoxPlan)
    requires { IsSound plan.now }
{
    assert!(rt; plan.places.len() == 2);
    let mut tracks = Tracks::new(alloc, 2).expect(rt, "memory");
    work_new(rt, alloc, plan, &tracks, &ONE_LOCKS_THE_OTHER);
    work_new(rt, alloc, plan, &tracks, &BOTH_WAYS);
    work_new(rt, alloc, plan, &tracks, &WHEN_ANOTHER_IS_REVERSED);
    move_new_arms(rt, alloc, plan, &tracks);
    enter(rt, &mut tracks, 1, 3);
    work_new(rt, alloc, plan, &tracks, &WITH_A_TRAIN);
    drop(tracks);
}

#[test]
fn levers_of_a_box_are_worked(rt: HostRuntime) -> Result<(), Fail> {
    let plan = absolute(rt.alloc())?;
    work_box(&rt, rt.alloc(), first_box(&plan));
    drop(plan);
    Ok(())
}
