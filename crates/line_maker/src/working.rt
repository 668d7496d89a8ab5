//! What the signalmen of the made line do for each train.

ghost use Rattle.std.specs.Prelude.{◌≡◌, ◌+◌, ◌<◌, ◌≤◌, ◌++◌, ◌∷◌, [], OnOk};
ghost use Rattle.block_words.specs.Ways.{opposite};
ghost use Rattle.line_maker.specs.MadeCalls.{acts_for, calls_at, down_acts, off, send, take_in, up_acts};
ghost use Rattle.line_maker.specs.MadeTrains.{class_code, class_of, runs_down, train_moment};

use bell_codes::{
    CALL_ATTENTION, CodeNo, EMPTY, EXPRESS, LIGHT, ORDINARY, TRAIN_ENTERING_SECTION,
    TRAIN_OUT_OF_SECTION,
};
use block_words::{Position, Way};
use line_law::{Act, Call};
use std::alloc::AllocError;

/// The boxes of the made line, from the up end to the down end.
#[derive(Clone, Copy, Debug, PartialEq, Eq)]
pub enum MadeBox {
    Ash,
    Beech,
    Cedar,
}

// Odd trains run down, even ones up.
pub fn runs_down(train: u32) -> bool
    ensures { result ≡ runs_down train }
{
    train % 2 == 1
}

// The bell code of a train's class: ordinary, express, empty and light in turn.
fn class_code(train: u32) -> CodeNo
    ensures { result ≡ class_code train }
{
    match train % 4 {
        1 => ORDINARY,
        2 => EXPRESS,
        3 => EMPTY,
        _ => LIGHT,
    }
}

// The moment of all calls for a train: five minutes behind the train before, the first at 06:00.
fn train_moment(train: u32) -> u32
    requires low { 1 ≤ train }
    requires high { train ≤ 200 }
    ensures { result ≡ train_moment train }
{
    360 + 5 * (train - 1)
}

// Puts these acts, all at one moment, behind the calls.
#[tactic(auto, using(crate::proofs::Growing::joining))]
fn put_acts(calls: &mut Vec<Call>, moment: u32, acts: &[Act]) -> Result<(), AllocError>
    ensures { OnOk result (calls.new.items ≡ calls.old.items ++ calls_at moment acts.now) }
{
    for act in acts {
        calls.push(Call { moment, act: *act })?;
    }
    Ok(())
}

// A train is sent on, to this side, by the starter of a lever.
#[tactic(auto, unfolding(crate::specs::MadeCalls::send))]
fn put_sending(
    calls: &mut Vec<Call>,
    moment: u32,
    side: Way,
    lever: u32,
    code: CodeNo,
) -> Result<(), AllocError>
    ensures { OnOk result (calls.new.items ≡ calls.old.items ++ calls_at moment (send side lever code)) }
{
    let sending = [
        Act::Ring {
            side,
            code: CALL_ATTENTION,
        },
        Act::AwaitBell {
            side,
            code: CALL_ATTENTION,
        },
        Act::Ring { side, code },
        Act::AwaitBell { side, code },
        Act::AwaitBlock {
            way: side,
            position: Position::LineClear,
        },
        Act::Pull { lever },
        Act::Ring {
            side,
            code: TRAIN_ENTERING_SECTION,
        },
        Act::AwaitBell {
            side,
            code: TRAIN_ENTERING_SECTION,
        },
        Act::Pass { lever },
        Act::Put { lever },
        Act::AwaitBell {
            side,
            code: TRAIN_OUT_OF_SECTION,
        },
        Act::Ring {
            side,
            code: TRAIN_OUT_OF_SECTION,
        },
    ];
    put_acts(calls, moment, &sending)
}

// A train is taken in from this side, on the line of that way, past the home signal of a lever.
#[tactic(auto, unfolding(crate::specs::MadeCalls::take_in))]
fn put_taking(
    calls: &mut Vec<Call>,
    moment: u32,
    side: Way,
    home: u32,
    code: CodeNo,
) -> Result<(), AllocError>
    ensures { OnOk result (calls.new.items
        ≡ calls.old.items ++ calls_at moment (take_in side (opposite side) home code)) }
{
    let way = side.opposite();
    let taking = [
        Act::AwaitBell {
            side,
            code: CALL_ATTENTION,
        },
        Act::Ring {
            side,
            code: CALL_ATTENTION,
        },
        Act::AwaitBell { side, code },
        Act::Ring { side, code },
        Act::Turn {
            way,
            position: Position::LineClear,
        },
        Act::AwaitBell {
            side,
            code: TRAIN_ENTERING_SECTION,
        },
        Act::Ring {
            side,
            code: TRAIN_ENTERING_SECTION,
        },
        Act::Turn {
            way,
            position: Position::TrainOnLine,
        },
        Act::AwaitTrain { way },
        Act::Berth { way },
        Act::Pull { lever: home },
        Act::Pass { lever: home },
        Act::Put { lever: home },
        Act::Ring {
            side,
            code: TRAIN_OUT_OF_SECTION,
        },
        Act::Turn {
            way,
            position: Position::Normal,
        },
        Act::AwaitBell {
            side,
            code: TRAIN_OUT_OF_SECTION,
        },
    ];
    put_acts(calls, moment, &taking)
}

// A train leaves the line by the signal of a lever.
#[tactic(auto, unfolding(crate::specs::MadeCalls::off))]
fn put_off(calls: &mut Vec<Call>, moment: u32, lever: u32) -> Result<(), AllocError>
    ensures { OnOk result (calls.new.items ≡ calls.old.items ++ calls_at moment (off lever)) }
{
    let leaving = [Act::Pull { lever }, Act::Pass { lever }, Act::Put { lever }];
    put_acts(calls, moment, &leaving)
}

// What a box does for a train that runs down.
#[tactic(auto, using(crate::proofs::Growing::joining), unfolding(crate::specs::MadeCalls::down_acts))]
fn put_down(calls: &mut Vec<Call>, moment: u32, at: MadeBox, train: u32) -> Result<(), AllocError>
    ensures { OnOk result (calls.new.items ≡ calls.old.items ++ calls_at moment (down_acts at train)) }
{
    let code = class_code(train);
    match at {
        MadeBox::Ash => {
            put_acts(calls, moment, &[Act::Bring { train }])?;
            put_sending(calls, moment, Way::Down, 2, code)
        }
        MadeBox::Beech => {
            put_taking(calls, moment, Way::Up, 1, code)?;
            put_sending(calls, moment, Way::Down, 2, code)
        }
        MadeBox::Cedar => {
            put_taking(calls, moment, Way::Up, 1, code)?;
            put_off(calls, moment, 2)
        }
    }
}

// What a box does for a train that runs up.
#[tactic(auto, using(crate::proofs::Growing::joining), unfolding(crate::specs::MadeCalls::up_acts))]
fn put_up(calls: &mut Vec<Call>, moment: u32, at: MadeBox, train: u32) -> Result<(), AllocError>
    ensures { OnOk result (calls.new.items ≡ calls.old.items ++ calls_at moment (up_acts at train)) }
{
    let code = class_code(train);
    match at {
        MadeBox::Ash => {
            put_taking(calls, moment, Way::Down, 3, code)?;
            put_off(calls, moment, 4)
        }
        MadeBox::Beech => {
            put_taking(calls, moment, Way::Down, 3, code)?;
            put_sending(calls, moment, Way::Up, 4, code)
        }
        MadeBox::Cedar => {
            put_acts(calls, moment, &[Act::Bring { train }])?;
            put_sending(calls, moment, Way::Up, 4, code)
        }
    }
}

/// Puts what a box does for a train behind the calls.
pub fn put_working(calls: &mut Vec<Call>, at: MadeBox, train: u32) -> Result<(), AllocError>
    requires low { 1 ≤ train }
    requires high { train ≤ 200 }
    ensures { OnOk result (calls.new.items ≡ calls.old.items ++ calls_at (train_moment train) (acts_for at train)) }
{
    let moment = train_moment(train);
    if runs_down(train) {
        put_down(calls, moment, at, train)
    } else {
        put_up(calls, moment, at, train)
    }
}
