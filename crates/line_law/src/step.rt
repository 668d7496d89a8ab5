//! One call, in the state of its box and of the pair of neighbours that it reaches.

ghost use Rattle.std.specs.Prelude.{◌≡◌, ◌<◌, IsTrue, length};
ghost use Rattle.line_law.specs.Law.{link_of, pair_of, box_plan_of, step, step_at};
ghost use Rattle.line_law.specs.Levers.{lever_link};
ghost use Rattle.line_law.specs.Lines.{RowsHold};
ghost use Rattle.line_law.specs.Ready.{IsReady};
ghost use Rattle.line_law.specs.States.{box_at, pair_at};

use crate::call::{Act, Call, Reply};
use crate::levers::starter_way;
use crate::link::Link;
use crate::state::{BoxState, PairState};
use block_words::Way;
use line_plan::{BoxPlan, Plan};

// The line of a lever: a starter's outgoing line, and another's some line all the same.
fn lever_link(plan: &BoxPlan, lever: u32) -> Link
    ensures { result ≡ lever_link plan.now lever }
{
    match starter_way(plan.signal(lever)) {
        Some(way) => Link::Out(way),
        None => Link::In(Way::Down),
    }
}

/// The line on which a call may be decided. A code from a side passes the other way.
pub fn link_of(plan: &BoxPlan, act: Act) -> Link
    ensures { result ≡ link_of plan.now act }
{
    match act {
        Act::Ring { side, code: _ } => Link::Out(side),
        Act::Hear { side } | Act::AwaitBell { side, code: _ } => Link::In(side.opposite()),
        Act::AwaitBlock { way, position: _ } => Link::Out(way),
        Act::Pull { lever } | Act::Pass { lever } | Act::Overrun { lever } => {
            lever_link(plan, lever)
        }
        Act::Put { lever: _ } | Act::Bring { train: _ } => Link::In(Way::Down),
        Act::Turn { way, position: _ }
        | Act::AwaitTrain { way }
        | Act::Berth { way }
        | Act::BerthPart { way }
        | Act::ClearPortion { way }
        | Act::Wind { way }
        | Act::Release { way } => Link::In(way),
    }
}

// One call of a box, in its state and in the pair that the call reaches; steady where every row of the box holds.
fn perform_by(
    here: &mut BoxState,
    pair: &mut PairState,
    plan: &Plan,
    box_plan: &BoxPlan,
    call: &Call,
    steady: bool,
) -> Reply
    requires ready { IsReady plan.now box_plan.now call.now here.old pair.old }
    requires rows { IsTrue steady → RowsHold box_plan.now here.old }
    ensures { step_at plan.now box_plan.now call.now here.old pair.old
        ≡ record { reply = result; here = here.new; word = pair.new } }
{
    here.moment = call.moment;
    match call.act {
        Act::Ring { side, code } => here.ring(pair, side, code),
        Act::Hear { side } => pair.hear(side.opposite()),
        Act::AwaitBell { side, code } => pair.await_bell(side.opposite(), code),
        Act::Turn { way, position } => match box_plan.berth(way) {
            Some(berth) => here.turn(pair, berth, way, position),
            None => Reply::AlreadyThere,
        },
        Act::AwaitBlock { way, position } => pair.look_block(way, position),
        Act::Pull { lever } => here.pull(pair, box_plan, lever, steady),
        Act::Put { lever } => here.put(box_plan, lever, steady),
        Act::Bring { train } => here.bring(train, plan.train(train).place),
        Act::Pass { lever } => here.pass(pair, box_plan, lever),
        Act::Overrun { lever } => here.overrun(pair, box_plan, lever),
        Act::AwaitTrain { way } => here.look_plain_line(pair, way),
        Act::Berth { way } => match box_plan.berth(way) {
            Some(berth) => here.berth(pair, berth, way),
            None => Reply::BerthOccupied { train: 0 },
        },
        Act::BerthPart { way } => match box_plan.berth(way) {
            Some(berth) => here.berth_part(pair, berth, way),
            None => Reply::BerthOccupied { train: 0 },
        },
        Act::ClearPortion { way } => here.clear_portion(pair, way),
        Act::Wind { way } => here.wind(way, plan.delay),
        Act::Release { way } => here.release(way),
    }
}

/// One call of a box, in its state and in the pair that the call reaches.
pub fn perform_at(
    here: &mut BoxState,
    pair: &mut PairState,
    plan: &Plan,
    box_plan: &BoxPlan,
    call: &Call,
) -> Reply
    requires { IsReady plan.now box_plan.now call.now here.old pair.old }
    ensures { step_at plan.now box_plan.now call.now here.old pair.old
        ≡ record { reply = result; here = here.new; word = pair.new } }
{
    perform_by(here, pair, plan, box_plan, call, false)
}

/// One call of box `box_no`, in the states of all boxes and pairs, where every row of the box holds.
#[tactic(auto, unfolding(crate::specs::Law::step))]
pub fn perform_on(
    boxes: &mut [BoxState],
    pairs: &mut [PairState],
    plan: &Plan,
    box_no: u32,
    call: &Call,
) -> Reply
    requires plan_box { box_no < length plan.now.boxes }
    requires here { box_no < length boxes.old }
    requires pair { pair_of plan.now box_no call.now < length pairs.old }
    requires ready { IsReady plan.now (box_plan_of plan.now box_no) call.now
        (box_at (record { boxes = boxes.old; pairs = pairs.old }) box_no)
        (pair_at (record { boxes = boxes.old; pairs = pairs.old }) (pair_of plan.now box_no call.now)) }
    requires rows { RowsHold (box_plan_of plan.now box_no)
        (box_at (record { boxes = boxes.old; pairs = pairs.old }) box_no) }
    ensures { step plan.now (record { boxes = boxes.old; pairs = pairs.old }) box_no call.now
        ≡ record { reply = result; after = record { boxes = boxes.new; pairs = pairs.new } } }
{
    let at = box_no as usize;
    let box_plan = &plan.boxes.as_slice()[at];
    let here = &mut boxes[at];
    let pair = &mut pairs[link_of(box_plan, call.act).pair_no(at)];
    perform_by(here, pair, plan, box_plan, call, true)
}
