//! What was told at a box: an entry's call, and its reply.

ghost use Rattle.std.specs.Prelude.{◌≡◌, ◌↔◌, ◌++◌, IsTrue, OnOk, string_bytes};
ghost use Rattle.script_text.specs.Entries.{IsSpelled, told_text};

use crate::calls::put_call;
use crate::printing_replies::put_reply;
use crate::spelled_replies::is_spelled_reply;
use line_law::{Entry, knows};
use line_plan::Plan;
use std::alloc::AllocError;

/// Whether an entry can be printed on the line of a plan: the line has its box and knows its call, and some text spells
/// its reply at that box. Every entry of a legal history can.
#[tactic(auto, using(line_law::proofs::Sides::known_box))]
pub fn is_spelled(plan: &Plan, entry: &Entry) -> bool
    ensures { IsTrue result ↔ IsSpelled plan.now entry.now }
{
    knows(plan, entry.box_no, &entry.call) && is_spelled_reply(plan, entry.box_no, &entry.reply)
}

/// Puts what an entry tells behind a text: the moment and the call, `->` and the reply, as in
/// `10:00 ring down 4 -> bell_busy 1 1`. The entry is one that the line can spell, as `is_spelled` tells. Where memory
/// runs out a part may stand behind the text.
#[tactic(auto, unfolding(crate::specs::Entries::told_text))]
pub fn put_told(out: &mut String, plan: &Plan, entry: &Entry) -> Result<(), AllocError>
    requires { IsSpelled plan.now entry.now }
    ensures { OnOk result (string_bytes out.new ≡ string_bytes out.old ++ told_text plan.now entry.now) }
{
    put_call(out, plan, entry.box_no, &entry.call)?;
    out.push_str(" -> ")?;
    put_reply(out, plan, entry.box_no, &entry.reply)
}
