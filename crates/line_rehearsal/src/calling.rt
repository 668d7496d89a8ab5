//! The next call of a rehearsal.

ghost use Rattle.std.specs.Prelude.{◌≡◌, Some};
ghost use Rattle.line_law.specs.Serial.{first_free};
ghost use Rattle.line_rehearsal.specs.Rehearsals.{IsUnderWay, MakesNext};
ghost use Rattle.serial_working.specs.Rosters.{calls_of_scripts, left_of};

use line_law::{Entry, Plain};
use line_plan::Plan;
use script_text::Script;
use serial_working::take_call;

/// The lowest box that may go on makes its next call.
pub fn call_next(
    line: &mut Plain,
    plan: &Plan,
    scripts: &[Script],
    made: &mut [usize],
    box_no: usize,
) -> Entry
    requires way { IsUnderWay plan.now scripts.now made.old line.old }
    requires free { first_free plan.now line.old.line 0 (left_of (calls_of_scripts scripts.now) made.old)
        ≡ Some box_no }
    ensures way { IsUnderWay plan.now scripts.now made.new line.new }
    ensures made { MakesNext plan.now (calls_of_scripts scripts.now) made.old line.old.line result made.new
        line.new.line }
{
    plan.meets_conditions();
    let next = take_call(scripts, made, box_no);
    let box_no = box_no as u32;
    let reply = line.perform(plan, box_no, &next.call);
    Entry {
        box_no,
        call: next.call,
        reply,
    }
}
