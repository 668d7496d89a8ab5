//! Calls in numbers.

ghost use Rattle.std.specs.Prelude.{◌≡◌};
ghost use Rattle.line_numbers.specs.CallParts.{act_number, act_of, act_value, act_way, call_in, call_numbers};
ghost use Rattle.line_numbers.specs.CallParts.{has_numbers};

use crate::parts::{code_of, position_number, position_of, way_number, way_of};
use line_law::{Act, Call};

/// A call in numbers. A field that the act doesn't have is 0.
///
/// | `act` | The act | `way` | `value` |
/// |---|---|---|---|
/// | 0 | rings a code | the side | the code |
/// | 1 | hears the bell | the side | |
/// | 2 | waits for a code | the side | the code |
/// | 3 | turns the commutator | the way | the position |
/// | 4 | waits for a position | the way | the position |
/// | 5 | pulls a lever | | the lever |
/// | 6 | puts a lever back | | the lever |
/// | 7 | a train is brought | | the train |
/// | 8 | a train passes a signal | | the lever |
/// | 9 | a train overruns a signal | | the lever |
/// | 10 | waits for a train | the way | |
/// | 11 | the train berths | the way | |
/// | 12 | the train berths in part | the way | |
/// | 13 | the left portion is cleared | the way | |
/// | 14 | begins to wind the release | the way | |
/// | 15 | releases the control | the way | |
#[repr(C)]
#[derive(Clone, Copy, Debug, PartialEq, Eq)]
pub struct CallNumbers {
    /// The number of the box, from 0.
    pub box_no: u32,
    /// When he calls.
    pub moment: u32,
    /// What he does.
    pub act: u32,
    /// The way or side, 0 up, 1 down.
    pub way: u32,
    /// A code, a position, a lever or a train, by the act.
    pub value: u32,
}

// The number of an act, in their order.
fn act_number(act: Act) -> u32
    ensures { result ≡ act_number act }
{
    match act {
        Act::Ring { .. } => 0,
        Act::Hear { .. } => 1,
        Act::AwaitBell { .. } => 2,
        Act::Turn { .. } => 3,
        Act::AwaitBlock { .. } => 4,
        Act::Pull { .. } => 5,
        Act::Put { .. } => 6,
        Act::Bring { .. } => 7,
        Act::Pass { .. } => 8,
        Act::Overrun { .. } => 9,
        Act::AwaitTrain { .. } => 10,
        Act::Berth { .. } => 11,
        Act::BerthPart { .. } => 12,
        Act::ClearPortion { .. } => 13,
        Act::Wind { .. } => 14,
        Act::Release { .. } => 15,
    }
}

// The number of its way or side; 0 where it has none.
fn act_way(act: Act) -> u32
    ensures { result ≡ act_way act }
{
    match act {
        Act::Ring { side, .. } | Act::Hear { side } | Act::AwaitBell { side, .. } => {
            way_number(side)
        }
        Act::Turn { way, .. }
        | Act::AwaitBlock { way, .. }
        | Act::AwaitTrain { way }
        | Act::Berth { way }
        | Act::BerthPart { way }
        | Act::ClearPortion { way }
        | Act::Wind { way }
        | Act::Release { way } => way_number(way),
        _ => 0,
    }
}

// Its code, position, lever or train; 0 where it has none.
fn act_value(act: Act) -> u32
    ensures { result ≡ act_value act }
{
    match act {
        Act::Ring { code, .. } | Act::AwaitBell { code, .. } => u32::from(code),
        Act::Turn { position, .. } | Act::AwaitBlock { position, .. } => position_number(position),
        Act::Pull { lever } | Act::Put { lever } | Act::Pass { lever } | Act::Overrun { lever } => {
            lever
        }
        Act::Bring { train } => train,
        _ => 0,
    }
}

/// The numbers of a call of that box.
pub fn call_numbers(box_no: u32, call: &Call) -> CallNumbers
    ensures { result ≡ call_numbers box_no call.now }
{
    CallNumbers {
        box_no,
        moment: call.moment,
        act: act_number(call.act),
        way: act_way(call.act),
        value: act_value(call.act),
    }
}

// The act of that number, with its parts as these numbers tell them; none where no act has it.
#[tactic(auto, using(crate::proofs::CallsAgain::no_act))]
fn act_of(numbers: CallNumbers) -> Option<Act>
    ensures { result ≡ act_of numbers }
{
    let way = way_of(numbers.way);
    let code = code_of(numbers.value);
    let position = position_of(numbers.value);
    let number = numbers.value;
    match numbers.act {
        0 => Some(Act::Ring { side: way, code }),
        1 => Some(Act::Hear { side: way }),
        2 => Some(Act::AwaitBell { side: way, code }),
        3 => Some(Act::Turn { way, position }),
        4 => Some(Act::AwaitBlock { way, position }),
        5 => Some(Act::Pull { lever: number }),
        6 => Some(Act::Put { lever: number }),
        7 => Some(Act::Bring { train: number }),
        8 => Some(Act::Pass { lever: number }),
        9 => Some(Act::Overrun { lever: number }),
        10 => Some(Act::AwaitTrain { way }),
        11 => Some(Act::Berth { way }),
        12 => Some(Act::BerthPart { way }),
        13 => Some(Act::ClearPortion { way }),
        14 => Some(Act::Wind { way }),
        15 => Some(Act::Release { way }),
        _ => None,
    }
}

// Whether these are the numbers of an act.
fn has_numbers(act: Act, numbers: CallNumbers) -> bool
    ensures { result ≡ has_numbers act numbers }
{
    act_number(act) == numbers.act && act_way(act) == numbers.way && act_value(act) == numbers.value
}

/// The call that has these numbers; none where no act has them.
pub fn call_in(numbers: &CallNumbers) -> Option<Call>
    ensures { result ≡ call_in numbers.now }
{
    match act_of(*numbers) {
        Some(act) if has_numbers(act, *numbers) => Some(Call {
            moment: numbers.moment,
            act,
        }),
        _ => None,
    }
}
