//! The word on which an entry's call may be decided.

ghost use Rattle.std.specs.Prelude.{◌≡◌, ◌<◌, length};
ghost use Rattle.word_laws.specs.Footprint.{way_at};
ghost use Rattle.line_journal.specs.Halves.{pair_for};

use block_words::Way;
use line_law::{Entry, link_of};
use line_plan::Plan;

/// The pair and the way of the word on which an entry's call may be decided.
pub fn word_of(plan: &Plan, entry: &Entry) -> (usize, Way)
    requires { entry.now.box_no < length plan.now.boxes }
    ensures pair { result.0 ≡ pair_for plan.now entry.now }
    ensures way { result.1 ≡ way_at plan.now entry.now.box_no entry.now.call }
{
    let box_no = entry.box_no as usize;
    let line = link_of(&plan.boxes.as_slice()[box_no], entry.call.act);
    (line.pair_no(box_no), line.way())
}
