//! What a stopped man waits for.

ghost use Rattle.std.specs.Prelude.{◌≡◌, ◌<◌, length, slice_index_or};
ghost use Rattle.line_law.specs.Serial.{calls_left};
ghost use Rattle.line_rehearsal.specs.Rehearsals.{IsUnderWay};
ghost use Rattle.line_rehearsal.specs.Stops.{stop_of};
ghost use Rattle.serial_working.specs.Rosters.{calls_of_scripts, left_of};

use line_law::{Call, Plain, Reply};
use line_plan::Plan;
use script_text::Script;
use serial_working::next_call;

/// An await at which a man stands, as the line doesn't satisfy it.
#[derive(Clone, Copy, Debug)]
pub struct Stop {
    /// His await.
    pub call: Call,
    /// Which call of his script it is, from 1.
    pub number: u32,
    /// What he would be answered: that it isn't so yet, and what he sees instead.
    pub reply: Reply,
}

/// What the man of box `box_no` waits for on a line whose scripts are worked and of which so many calls are made, if he
/// has a call left and stands at an await that the line doesn't satisfy.
pub fn stop_of(
    line: &Plain,
    plan: &Plan,
    scripts: &[Script],
    made: &[usize],
    box_no: usize,
) -> Option<Stop>
    requires way { IsUnderWay plan.now scripts.now made.now line.now }
    requires box_no { box_no < length scripts.now }
    ensures { result ≡ stop_of plan.now line.now.line box_no (slice_index_or made.now box_no 0)
        (calls_left (left_of (calls_of_scripts scripts.now) made.now) box_no) }
{
    plan.meets_conditions();
    let Some(call) = next_call(scripts, made, box_no) else {
        return None;
    };
    let reply = line.answer(plan, box_no as u32, call);
    if !reply.is_not_yet() {
        return None;
    }
    Some(Stop {
        call: *call,
        number: made[box_no] as u32 + 1,
        reply,
    })
}
