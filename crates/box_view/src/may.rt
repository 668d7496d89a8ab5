//! Which levers of a box may be moved.

ghost use Rattle.std.specs.Prelude.{◌≡◌, ◌≤◌, ◌<◌, ◌^◌, ◌++◌, IsTrue, OnOk, codes, decimal, length, string_bytes};
ghost use Rattle.std.specs.Prelude.{false};
ghost use Rattle.line_law.specs.History.{entry_of};
ghost use Rattle.line_law.specs.Known.{knows_lever, moments_of};
ghost use Rattle.line_law.specs.Law.{MayCall};
ghost use Rattle.line_law.specs.Lines.{IsLineOf};
ghost use Rattle.line_law.specs.States.{box_at};
ghost use Rattle.line_plan.specs.Plans.{box_at as box_plan_at};
ghost use Rattle.script_text.specs.Replies.{is_spelled_reply};
ghost use Rattle.box_view.specs.Moves.{TellsLever, TellsMove, TellsMoves, is_moved, move_entry};
ghost use Rattle.box_view.specs.Moves.{is_reversed_already, moved_word};

use line_law::{Act, Call, Entry, Plain, Reply};
use line_plan::Plan;
use reply_sentences::put_sentence;
use script_text::put_number;
use std::alloc::AllocError;

// Whether a pull is refused since the lever is reversed.
fn is_reversed_already(reply: &Reply) -> bool
    ensures { result ≡ is_reversed_already reply.now }
{
    matches!(reply, Reply::AlreadyReversed)
}

/// Whether a lever is moved.
pub fn is_moved(reply: &Reply) -> bool
    ensures { result ≡ is_moved reply.now }
{
    matches!(
        reply,
        Reply::Pulled | Reply::PulledUnder { v: _ } | Reply::Put
    )
}

// A call of a box, with the reply that it would get.
fn answered(line: &Plain, plan: &Plan, box_no: u32, call: Call) -> Entry
    requires line { IsLineOf plan.now line.now }
    requires few { line.now.calls < 2 ^ 32 }
    requires call { MayCall plan.now line.now.line box_no call }
    ensures { result ≡ entry_of plan.now line.now.line box_no call }
{
    let reply = line.answer(plan, box_no, &call);
    Entry {
        box_no,
        call,
        reply,
    }
}

/// The call that moves a lever, with the reply that it would get.
pub fn move_of(line: &Plain, plan: &Plan, box_no: u32, moment: u32, lever: u32) -> Entry
    requires line { IsLineOf plan.now line.now }
    requires few { line.now.calls < 2 ^ 32 }
    requires at { box_no < length plan.now.boxes }
    requires day { moment < moments_of plan.now.version }
    requires later { (box_at line.now.line box_no).moment ≤ moment }
    requires lever { IsTrue (knows_lever plan.now box_no lever) }
    ensures law { result ≡ move_entry plan.now line.now.line box_no moment lever }
    ensures spelled { IsTrue (is_spelled_reply plan.now box_no result.reply) }
{
    plan.meets_conditions();
    let act = Act::Pull { lever };
    let pull = answered(line, plan, box_no, Call { moment, act });
    if is_reversed_already(&pull.reply) {
        let act = Act::Put { lever };
        return answered(line, plan, box_no, Call { moment, act });
    }
    pull
}

// What is done to a lever by a call.
fn moved_word(act: Act) -> &'static str
    ensures { result.now ≡ moved_word act }
{
    match act {
        Act::Put { lever: _ } => "put back",
        _ => "pulled",
    }
}

/// Puts a lever, words and what is done to it by a call behind a text.
pub fn put_words(out: &mut String, lever: u32, words: &str, act: Act) -> Result<(), AllocError>
    ensures { OnOk result (string_bytes out.new
        ≡ string_bytes out.old ++ (codes "lever " ++ decimal lever ++ words.now ++ moved_word act)) }
{
    out.push_str("lever ")?;
    put_number(out, u64::from(lever))?;
    out.push_str(words)?;
    out.push_str(moved_word(act))
}

// Puts the line of a lever that may not be moved by the call of an entry behind a text.
fn put_reason(out: &mut String, plan: &Plan, lever: u32, entry: &Entry) -> Result<(), AllocError>
    requires at { entry.now.box_no < length plan.now.boxes }
    requires spelled { IsTrue (is_spelled_reply plan.now entry.now.box_no entry.now.reply) }
    ensures { OnOk result (TellsLever false lever entry.now.call.act (string_bytes out.old) (string_bytes out.new)) }
{
    put_words(out, lever, " may not be ", entry.call.act)?;
    out.push_str(": ")?;
    put_sentence(out, plan, entry)?;
    out.push('\n')
}

// Puts the line of a lever behind a text, by the call that moves it and the reply that this would get.
fn put_move(out: &mut String, plan: &Plan, lever: u32, entry: &Entry) -> Result<(), AllocError>
    requires at { entry.now.box_no < length plan.now.boxes }
    requires spelled { IsTrue (is_spelled_reply plan.now entry.now.box_no entry.now.reply) }
    ensures { OnOk result (TellsLever (is_moved entry.now.reply) lever entry.now.call.act
        (string_bytes out.old) (string_bytes out.new)) }
{
    if !is_moved(&entry.reply) {
        return put_reason(out, plan, lever, entry);
    }
    put_words(out, lever, " may be ", entry.call.act)?;
    out.push('\n')
}

/// Puts a line for each lever of a box behind a text, in order: it may be pulled, or put back where it is reversed, at
/// this moment; or it may not, with the first reason as a sentence. The moment is one of the day at which the box may
/// call. Where memory runs out a part may stand behind the text.
#[tactic(auto, using(crate::proofs::Levers::lever_there))]
pub fn put_may(
    out: &mut String,
    plan: &Plan,
    line: &Plain,
    box_no: u32,
    moment: u32,
) -> Result<(), AllocError>
    requires line { IsLineOf plan.now line.now }
    requires few { line.now.calls < 2 ^ 32 }
    requires at { box_no < length plan.now.boxes }
    requires day { moment < moments_of plan.now.version }
    requires later { (box_at line.now.line box_no).moment ≤ moment }
    ensures { OnOk result (TellsMoves plan.now line.now.line box_no moment (box_plan_at plan.now.boxes box_no).levers
        (string_bytes out.old) (string_bytes out.new)) }
{
    let here = &plan.boxes.as_slice()[box_no as usize];
    for lever in here.levers.as_slice() {
        let entry = move_of(line, plan, box_no, moment, lever.number);
        put_move(out, plan, lever.number, &entry)?;
    }
    Ok(())
}
