//! What desks ask for, and what they tell of a word: a starter's instrument on the line of two boxes.

ghost use Rattle.desk_tests.specs.Workings.{IsWorked};

use crate::desk_line::DeskLine;
use crate::facts::holds;
use crate::line::open;
use crate::pull::pull_first;
use crate::tests::plans::ABSOLUTE;
use crate::work::Worked;
use block_words::{Position, Way, WordOp};
use line_law::{Act, Call, Reply};
use line_plan::Plan;
use plan_text::read_plan;
use rail_text::NoMemory;
use std::alloc::Global;
use std::test::Fail;

// Was the call decided on a word, by this operation alone, which met this word, and with this reply?
fn is_decided_by(worked: Worked, first: WordOp, word: u64, reply: Reply) -> bool {
    let Some((ask, met)) = worked.asked else {
        return false;
    };
    (ask.first == first)
        & ask.second.is_none()
        & !ask.awaits
        & (met == word)
        & worked.reply.is_same(&reply)
}

// Was the call decided at the desk alone, with this reply?
fn is_decided_alone(worked: Worked, reply: Reply) -> bool {
    worked.asked.is_none() & worked.reply.is_same(&reply)
}

// Beech gives Line Clear, and would give it again.
fn gives_line_clear(line: &mut DeskLine, plan: &Plan) -> bool
    requires { IsWorked plan.now line.old }
    ensures { IsWorked plan.now line.new }
{
    let way = Way::Down;
    let call = Call {
        moment: 600,
        act: Act::Turn {
            way,
            position: Position::LineClear,
        },
    };
    let Some(first) = line.call(plan, 1, &call) else {
        return false;
    };
    let Some(second) = line.call(plan, 1, &call) else {
        return false;
    };
    is_decided_by(
        first,
        WordOp::Turn { way, new: 9 },
        0,
        Reply::Turned { v: 1 },
    ) & is_decided_alone(second, Reply::AlreadyThere)
}

// The same on the line as it opens.
fn line_clear_is_given(alloc: Global, plan: &Plan) -> Result<bool, NoMemory> {
    let mut line = open(alloc, plan)?;
    let is_given = gives_line_clear(&mut line, plan);
    drop(line);
    Ok(is_given)
}

// Is the starter of the first box, as it opens, pulled under Line Clear?
fn is_pulled(alloc: Global, plan: &Plan) -> Result<bool, NoMemory> {
    let op = WordOp::Pull { way: Way::Down };
    match pull_first(alloc, plan, 8, 1, false)? {
        Some(worked) => Ok(is_decided_by(worked, op, 9, Reply::PulledUnder { v: 1 })),
        None => Ok(false),
    }
}

// Is it held where that Line Clear is spent?
fn is_held(alloc: Global, plan: &Plan) -> Result<bool, NoMemory> {
    let way = Way::Down;
    let reply = Reply::HeldByInstrument {
        way,
        v: 1,
        shown: Position::LineClear,
        spent: true,
    };
    match pull_first(alloc, plan, 8, 1, true)? {
        Some(worked) => Ok(is_decided_by(worked, WordOp::Pull { way }, 13, reply)),
        None => Ok(false),
    }
}

#[test]
fn an_instrument_is_turned_and_pulled_under(rt: HostRuntime) -> Result<(), Fail> {
    let plan = read_plan(rt.alloc(), ABSOLUTE.as_bytes())?;
    let given = line_clear_is_given(rt.alloc(), &plan);
    let pulled = is_pulled(rt.alloc(), &plan);
    let held = is_held(rt.alloc(), &plan);
    drop(plan);
    holds(&rt, "a turn to the word 9, that meets 0", given?);
    holds(&rt, "a pull that meets 9", pulled?);
    holds(&rt, "a pull that meets 13", held?);
    Ok(())
}
