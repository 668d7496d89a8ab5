//! The lowest box that may go on.

ghost use Rattle.std.specs.Prelude.{◌≡◌, ◌≤◌, ◌<◌, drop, length};
ghost use Rattle.line_law.specs.Serial.{calls_left, first_free, may_go};
ghost use Rattle.line_rehearsal.specs.Rehearsals.{IsUnderWay};
ghost use Rattle.serial_working.specs.Rosters.{calls_of_scripts, left_of};

use line_law::Plain;
use line_plan::Plan;
use script_text::Script;
use serial_working::next_call;

// Whether a box has a call left and isn't stopped.
fn may_go(line: &Plain, plan: &Plan, scripts: &[Script], made: &[usize], box_no: usize) -> bool
    requires way { IsUnderWay plan.now scripts.now made.now line.now }
    requires box_no { box_no < length scripts.now }
    ensures { result ≡ may_go plan.now line.now.line box_no
        (calls_left (left_of (calls_of_scripts scripts.now) made.now) box_no) }
{
    plan.meets_conditions();
    match next_call(scripts, made, box_no) {
        None => false,
        Some(call) => !line.answer(plan, box_no as u32, call).is_not_yet(),
    }
}

/// The lowest box, of those from `from` on, that has a call left and isn't stopped.
pub fn first_free(
    line: &Plain,
    plan: &Plan,
    scripts: &[Script],
    made: &[usize],
    from: usize,
) -> Option<usize>
    requires way { IsUnderWay plan.now scripts.now made.now line.now }
    requires from { from ≤ length scripts.now }
    ensures { result ≡ first_free plan.now line.now.line from
        (drop from (left_of (calls_of_scripts scripts.now) made.now)) }
{
    for box_no in from..scripts.len() {
        if may_go(line, plan, scripts, made, box_no) {
            return Some(box_no);
        }
    }
    None
}
