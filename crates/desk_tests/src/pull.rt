//! A starter's pull at one desk, with any word of its instrument.

ghost use Rattle.std.specs.Prelude.{◌≤◌, ◌<◌, ◌^◌, ℕ};
ghost use Rattle.box_desk.specs.Desks.{IsDeskOf};
ghost use Rattle.line_law.specs.Known.{KnowsCall};
ghost use Rattle.line_plan.specs.Plans.{PlanFields};

use crate::work::Worked;
use block_words::{Position, block_word};
use box_desk::{Desk, Step};
use line_law::{Act, Call, knows};
use line_plan::Plan;
use rail_text::NoMemory;
use std::alloc::Global;

// Pulls a lever at a desk. Where the desk asks for a word, the pull meets that of an instrument so turned.
fn pull_under(
    desk: &mut Desk,
    call: &Call,
    turns: u64,
    spent: bool,
    shown: Position,
) -> Option<Worked>
    requires known { (plan : PlanFields) × (b : ℕ) × IsDeskOf plan b desk.old × KnowsCall plan b call.now }
    requires later { desk.old.here.moment ≤ call.now.moment }
    requires few { desk.old.calls < 2 ^ 32 }
    requires turns { turns < 2 ^ 61 }
{
    let Act::Pull { lever: _ } = call.act else {
        return None;
    };
    match desk.prepare(call) {
        Step::Local(_) => None,
        Step::NeedsWord(ask) => {
            let met = block_word(turns, spent, shown);
            Some(Worked {
                reply: desk.finish(ask, met),
                asked: Some((ask, met)),
            })
        }
    }
}

/// Pulls a lever at the desk of the first box of a line that opens, where its instrument, turned so often, shows Line
/// Clear. What came of it, where the desk asked for a word.
pub fn pull_first(
    alloc: Global,
    plan: &Plan,
    lever: u32,
    turns: u64,
    spent: bool,
) -> Result<Option<Worked>, NoMemory>
    requires { turns < 2 ^ 61 }
{
    let call = Call {
        moment: 0,
        act: Act::Pull { lever },
    };
    if !knows(plan, 0, &call) {
        return Ok(None);
    }
    let mut desk = Desk::open(alloc, plan, 0)?;
    let worked = pull_under(&mut desk, &call, turns, spent, Position::LineClear);
    drop(desk);
    Ok(worked)
}
