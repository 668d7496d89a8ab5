//! The man of a box who notices what others do.

ghost use Rattle.std.specs.Prelude.{◌≡◌, ◌==◌, ◌<◌, None, if◌then◌else◌, length};
ghost use Rattle.line_law.specs.Lines.{IsLineOf};
ghost use Rattle.line_plan.specs.Frames.{same_way};
ghost use Rattle.box_view.specs.Listeners.{is_heard, listener_of, rung_after, rung_last};

use crate::notices::{Listener, is_rung};
use bell_codes::CodeNo;
use block_words::Way;
use line_law::{Act, ByWay, Entry, Plain, Reply};
use line_plan::Plan;

// Whether a code was heard.
fn is_heard(reply: &Reply) -> bool
    ensures { result ≡ is_heard reply.now }
{
    matches!(reply, Reply::Heard { code: _, k: _ })
}

// Whether two ways are the same.
fn same_way(way: Way, other: Way) -> bool
    ensures { result ≡ same_way way other }
{
    way == other
}

// The code that he rang last towards a side, behind an act of his.
fn rung_after(side: Way, last: Option<CodeNo>, reply: &Reply, act: Act) -> Option<CodeNo>
    ensures { result ≡ rung_after side last reply.now act }
{
    match act {
        Act::Ring {
            side: towards,
            code,
        } => {
            if is_rung(reply) && same_way(towards, side) {
                Some(code)
            } else {
                last
            }
        }
        Act::Hear { side: from } | Act::AwaitBell { side: from, .. } => {
            if is_heard(reply) && same_way(from, side) {
                None
            } else {
                last
            }
        }
        _ => last,
    }
}

// The code that the man of a box rang last towards a side, behind these entries.
fn rung_last(box_no: u32, side: Way, entries: &[Entry]) -> Option<CodeNo>
    ensures { result ≡ rung_last box_no side None entries.now }
{
    let mut last = None;
    for entry in entries {
        if entry.box_no == box_no {
            last = rung_after(side, last, &entry.reply, entry.call.act);
        }
    }
    last
}

/// The man of a box behind a journal, and the line as the journal leaves it.
pub fn listener_of(plan: &Plan, line: &Plain, box_no: u32, entries: &[Entry]) -> Listener
    requires line { IsLineOf plan.now line.now }
    requires at { box_no < length plan.now.boxes }
    ensures { result ≡ listener_of line.now.line box_no entries.now }
{
    let here = &line.boxes()[box_no as usize];
    Listener {
        box_no,
        taken: ByWay {
            up: here.incoming.up.taken,
            down: here.incoming.down.taken,
        },
        rung: ByWay {
            up: rung_last(box_no, Way::Up, entries),
            down: rung_last(box_no, Way::Down, entries),
        },
    }
}
