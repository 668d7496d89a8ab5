//! Which calls a plan knows.

ghost use Rattle.std.specs.Prelude.{◌≡◌, ◌<◌, length};
ghost use Rattle.line_law.specs.Known.{is_code_no, knows_act, knows_arm, knows_berth, knows_call, knows_lever};
ghost use Rattle.line_law.specs.Known.{knows_outgoing, knows_side, knows_train, moments_of};

use crate::call::{Act, Call};
use bell_codes::CodeNo;
use block_words::Way;
use line_plan::{Plan, comes_in, has_neighbour, leaves};

/// The minutes of a day.
pub const DAY_OF_MINUTES: u32 = 1440;

/// The seconds of a day.
pub const DAY_OF_SECONDS: u32 = 86400;

/// How many moments a day has: minutes where the plan has version 1, else seconds.
pub fn moments_of(version: u8) -> u32
    ensures { result ≡ moments_of version }
{
    if version == 1 {
        DAY_OF_MINUTES
    } else {
        DAY_OF_SECONDS
    }
}

/// Whether a box has a neighbour on that side. The first box has none on its up side, the last none on its down side.
pub fn knows_side(plan: &Plan, box_no: u32, side: Way) -> bool
    ensures { result ≡ knows_side plan.now box_no side }
{
    has_neighbour(plan.boxes.len() as u32, box_no, side)
}

/// Whether a code number is one of the plan's code table.
pub fn is_code_no(plan: &Plan, code: CodeNo) -> bool
    ensures { result ≡ is_code_no plan.now code }
{
    1 <= code && (code as usize) <= plan.codes.len()
}

/// Whether the line of that way comes into a box of the plan from a neighbour and has a berth there.
pub fn knows_berth(plan: &Plan, box_no: u32, way: Way) -> bool
    requires { box_no < length plan.now.boxes }
    ensures { result ≡ knows_berth plan.now box_no way }
{
    let here = &plan.boxes.as_slice()[box_no as usize];
    comes_in(plan.boxes.len() as u32, box_no, way) && here.berth(way).is_some()
}

/// Whether the line of that way leaves a box to a neighbour.
pub fn knows_outgoing(plan: &Plan, box_no: u32, way: Way) -> bool
    ensures { result ≡ knows_outgoing plan.now box_no way }
{
    leaves(plan.boxes.len() as u32, box_no, way)
}

/// Whether the frame of a box of the plan has a lever.
pub fn knows_lever(plan: &Plan, box_no: u32, lever: u32) -> bool
    requires { box_no < length plan.now.boxes }
    ensures { result ≡ knows_lever plan.now box_no lever }
{
    let here = &plan.boxes.as_slice()[box_no as usize];
    here.lever(lever).is_some()
}

/// Whether the frame of a box of the plan has a lever, and it works a signal or starter.
pub fn knows_arm(plan: &Plan, box_no: u32, lever: u32) -> bool
    requires { box_no < length plan.now.boxes }
    ensures { result ≡ knows_arm plan.now box_no lever }
{
    let here = &plan.boxes.as_slice()[box_no as usize];
    knows_lever(plan, box_no, lever) && here.signal(lever).is_some()
}

/// Whether a train is one of the plan that is brought at that box.
pub fn knows_train(plan: &Plan, box_no: u32, train: u32) -> bool
    ensures { result ≡ knows_train plan.now box_no train }
{
    plan.is_train(train) && plan.train(train).box_no == box_no
}

// The conditions of a call of a box of the plan, by what it does.
fn knows_act(plan: &Plan, box_no: u32, act: Act) -> bool
    requires { box_no < length plan.now.boxes }
    ensures { result ≡ knows_act plan.now box_no act }
{
    match act {
        Act::Ring { side, code } | Act::AwaitBell { side, code } => {
            knows_side(plan, box_no, side) && is_code_no(plan, code)
        }
        Act::Hear { side } => knows_side(plan, box_no, side),
        Act::AwaitBlock { way, position: _ } => knows_outgoing(plan, box_no, way),
        Act::Pull { lever } | Act::Put { lever } => knows_lever(plan, box_no, lever),
        Act::Pass { lever } | Act::Overrun { lever } => knows_arm(plan, box_no, lever),
        Act::Bring { train } => knows_train(plan, box_no, train),
        Act::Turn { way, position: _ }
        | Act::AwaitTrain { way }
        | Act::Berth { way }
        | Act::BerthPart { way }
        | Act::ClearPortion { way }
        | Act::Wind { way }
        | Act::Release { way } => knows_berth(plan, box_no, way),
    }
}

/// Whether the plan knows a call of a box: the box is one of the line, the line, lever, signal or train that the call
/// names is there, its code is in the code table, and its moment is one of a day. Of a call or a box that isn't of the
/// plan the answer is no.
#[tactic(auto, unfolding(crate::specs::Known::knows_call))]
pub fn knows(plan: &Plan, box_no: u32, call: &Call) -> bool
    ensures { result ≡ knows_call plan.now box_no call.now }
{
    (box_no as usize) < plan.boxes.len()
        && call.moment < moments_of(plan.version)
        && knows_act(plan, box_no, call.act)
}
