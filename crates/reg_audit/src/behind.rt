//! What a box has in hand behind a journal.

ghost use Rattle.std.specs.Prelude.{◌≡◌, ◌<◌, length};
ghost use Rattle.reg_audit.specs.Behind.{asked_after, hand_after, in_hand};

use crate::bell::{BellEntry, bell_on, unprompted};
use crate::deed::{Deed, deed_of};
use crate::marks::{NO_MARKS, SideMarks, mark};
use block_words::Way;
use line_law::{ByWay, Entry};
use line_plan::Plan;

/// What a box has in hand behind a journal, as far as the regulations ask.
#[derive(Clone, Copy)]
pub struct InHand {
    /// The marks of the audit for each side.
    pub marks: ByWay<SideMarks>,
    /// The last bell entry on each side, where it is no answer.
    pub asked: ByWay<Option<BellEntry>>,
}

// The last bell entry on a side, where it is no answer, by the last one before and what was rung or heard there.
fn asked_after(
    last: Option<BellEntry>,
    bell: Option<BellEntry>,
    asked: Option<BellEntry>,
) -> Option<BellEntry>
    ensures { result ≡ asked_after last bell asked }
{
    match bell {
        Some(_) => unprompted(last, bell),
        None => asked,
    }
}

impl InHand {
    // After something was done at the box.
    fn hear(&mut self, plan: &Plan, deed: &Deed)
        ensures { self.new ≡ hand_after plan.now deed.now self.old }
    {
        self.asked = ByWay {
            up: asked_after(
                self.marks.up.last_bell,
                bell_on(Way::Up, deed),
                self.asked.up,
            ),
            down: asked_after(
                self.marks.down.last_bell,
                bell_on(Way::Down, deed),
                self.asked.down,
            ),
        };
        mark(plan, deed, &mut self.marks);
    }
}

/// What a box has in hand behind a journal: the marks of the audit for each side, and the last bell entry there where
/// it is no answer. It goes over the journal once.
pub fn in_hand(plan: &Plan, entries: &[Entry], box_no: u32) -> InHand
    requires at { box_no < length plan.now.boxes }
    ensures { result ≡ in_hand plan.now box_no entries.now }
{
    let mut hand = InHand {
        marks: ByWay {
            up: NO_MARKS,
            down: NO_MARKS,
        },
        asked: ByWay {
            up: None,
            down: None,
        },
    };
    for entry in entries {
        if entry.box_no == box_no {
            hand.hear(plan, &deed_of(plan, entry));
        }
    }
    hand
}
