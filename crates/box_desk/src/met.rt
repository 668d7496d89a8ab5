//! Whether a call that looks has seen what it wants.

ghost use Rattle.std.specs.Prelude.{◌≡◌, ◌<◌, ◌%◌};
ghost use Rattle.box_desk.specs.Boxes.{AreFew, here_of};
ghost use Rattle.word_laws.specs.Operations.{met_by};
ghost use Rattle.box_desk.specs.Looks.{ShowsPosition};

use crate::equipment::Equipment;
use block_words::{bell_code, block_position, lane};
use line_law::{Act, link_of};
use line_plan::BoxPlan;

impl Equipment {
    /// Whether a word satisfies a call that looks, or has the room that a train needs which would leave. Any other call
    /// is satisfied by every word.
    pub(crate) fn met(&self, plan: &BoxPlan, act: Act, word: u64) -> bool
        requires few { AreFew (here_of self.now) }
        requires position { ShowsPosition act word }
        ensures { result ≡ met_by plan.now act (here_of self.now) word }
    {
        match act {
            Act::AwaitBell { side: _, code } => bell_code(word) == code,
            Act::AwaitBlock { way: _, position } => block_position(word) == position,
            Act::AwaitTrain { way } => lane(word, self.next_number(way)) > 0,
            Act::Pass { lever: _ } | Act::Overrun { lever: _ } => {
                let way = link_of(plan, act).way();
                lane(word, self.sent.get(way) + 1) == 0
            }
            _ => true,
        }
    }
}
