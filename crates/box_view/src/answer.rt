//! What a man is told of the answer to his call.

ghost use Rattle.std.specs.Prelude.{◌≡◌, ◌≤◌, ◌<◌, IsTrue, IfOk, OnOk, length, string_bytes};
ghost use Rattle.line_plan.specs.Plans.{is_train};
ghost use Rattle.reply_sentences.specs.Sentences.{Says};
ghost use Rattle.script_text.specs.Replies.{is_spelled_reply};
ghost use Rattle.box_view.specs.Answers.{TellsAnswer, answer_front, done_front, is_plain};

use crate::meaning::say_meaning;
use crate::ordinals::say_ordinal;
use crate::sides::neighbour_name;
use bell_codes::CodeNo;
use block_words::Way;
use line_law::{Act, Entry, Reply, is_code_no, is_refused, knows_side};
use line_plan::{Plan, way_word};
use reply_sentences::{Sentence, position_name, put_sentence};
use std::alloc::{AllocError, Global};

// The bytes that most answers have room in.
const ROOM: usize = 64;

// The word of what was done.
fn done_front(reply: &Reply) -> &'static str
    ensures { result.now ≡ done_front reply.now }
{
    match *reply {
        Reply::Rung { .. } => "rung: ",
        Reply::Heard { .. } => "heard: ",
        Reply::Turned { .. } => "turned: ",
        Reply::Seen { .. } => "seen: ",
        Reply::Pulled => "pulled",
        Reply::PulledUnder { .. } => "pulled under the Line Clear of ",
        Reply::Put => "put back",
        Reply::Brought => "brought",
        Reply::Passed { .. } => "passed: ",
        Reply::Entered { .. } => "entered: ",
        Reply::Approaching { .. } => "approaching: ",
        Reply::Berthed { .. } => "berthed: ",
        Reply::PartBerthed { .. } => "berthed in part: ",
        Reply::Cleared { .. } => "cleared: ",
        Reply::Winding { .. } => "winding: ",
        Reply::Released => "released",
        _ => "",
    }
}

// The word with which the line of an answer begins.
fn answer_front(reply: &Reply) -> &'static str
    ensures { result.now ≡ answer_front reply.now }
{
    if is_refused(reply) {
        "refused: "
    } else {
        done_front(reply)
    }
}

// Whether the word tells all.
fn is_plain(reply: &Reply) -> bool
    ensures { result ≡ is_plain reply.now }
{
    matches!(
        reply,
        Reply::Pulled | Reply::Put | Reply::Brought | Reply::Released
    )
}

// Says these words and a neighbour's name, where there is one.
fn say_neighbour(
    sentence: &mut Sentence,
    plan: &Plan,
    box_no: u32,
    words: &str,
    side: Way,
) -> Result<(), AllocError>
    ensures { OnOk result (length sentence.old ≤ length sentence.new) }
{
    if knows_side(plan, box_no, side) {
        sentence.say(words)?;
        sentence.say(neighbour_name(plan, box_no, side))?;
    }
    Ok(())
}

// Says a code with its meaning, where it is one of the plan's.
fn say_code(sentence: &mut Sentence, plan: &Plan, code: CodeNo) -> Result<(), AllocError>
    ensures { OnOk result (length sentence.old ≤ length sentence.new) }
{
    if is_code_no(plan, code) {
        sentence.say_code(plan, "", code)?;
        sentence.say(", ")?;
        say_meaning(sentence, plan, code)?;
    }
    Ok(())
}

// A code was rung: `3-1, ordinary passenger, to Elm (the second code on that bell)`.
fn say_rung(
    sentence: &mut Sentence,
    plan: &Plan,
    box_no: u32,
    act: Act,
    k: u64,
) -> Result<(), AllocError>
    ensures { OnOk result (length sentence.old < length sentence.new) }
{
    if let Act::Ring { side, code } = act {
        say_code(sentence, plan, code)?;
        say_neighbour(sentence, plan, box_no, ", to ", side)?;
        sentence.say(" ")?;
    }
    say_ordinal(sentence, "(the ", k)?;
    sentence.say(" code on that bell)")
}

// The side from which a call hears a bell.
fn heard_from(act: Act) -> Option<Way> {
    match act {
        Act::Hear { side } | Act::AwaitBell { side, .. } => Some(side),
        _ => None,
    }
}

// A code was heard: `3-1, ordinary passenger, from Elm (the second code on that bell)`.
fn say_heard(
    sentence: &mut Sentence,
    plan: &Plan,
    box_no: u32,
    act: Act,
    code: CodeNo,
    k: u64,
) -> Result<(), AllocError>
    ensures { OnOk result (length sentence.old < length sentence.new) }
{
    say_code(sentence, plan, code)?;
    if let Some(side) = heard_from(act) {
        say_neighbour(sentence, plan, box_no, ", from ", side)?;
    }
    say_ordinal(sentence, " (the ", k)?;
    sentence.say(" code on that bell)")
}

// What an instrument shows: `the instrument of the down line shows Line Clear (its third turn)`.
fn say_shows(sentence: &mut Sentence, act: Act, v: u64) -> Result<(), AllocError>
    ensures { OnOk result (length sentence.old < length sentence.new) }
{
    let (words, way, position) = match act {
        Act::Turn { way, position } => ("the instrument of the ", way, position),
        Act::AwaitBlock { way, position } => ("the repeater of the ", way, position),
        _ => return say_ordinal(sentence, "turn ", v),
    };
    sentence.say(words)?;
    sentence.say(way_word(way))?;
    sentence.say(" line shows ")?;
    sentence.say(position_name(position))?;
    say_ordinal(sentence, " (its ", v)?;
    sentence.say(" turn)")
}

// The incoming line of a call.
fn line_of(act: Act) -> Option<Way> {
    match act {
        Act::AwaitTrain { way }
        | Act::Berth { way }
        | Act::BerthPart { way }
        | Act::ClearPortion { way } => Some(way),
        _ => None,
    }
}

// A train by its name and its number in the section: `train 1A01, the first on the down line`.
fn say_numbered(
    sentence: &mut Sentence,
    plan: &Plan,
    act: Act,
    train: u32,
    number: u64,
) -> Result<(), AllocError>
    requires { IsTrue (is_train plan.now.trains train) }
    ensures { OnOk result (length sentence.old < length sentence.new) }
{
    sentence.say_train(plan, "train ", train)?;
    say_ordinal(sentence, ", the ", number)?;
    match line_of(act) {
        Some(way) => {
            sentence.say(" on the ")?;
            sentence.say(way_word(way))?;
            sentence.say(" line")
        }
        None => sentence.say(" into the section"),
    }
}

// Says what was done.
#[tactic(auto, using(script_text::proofs::MomentTexts::ready_is_short), unfolding(script_text::specs::Replies::is_spelled_reply))]
fn say_done(
    sentence: &mut Sentence,
    alloc: Global,
    plan: &Plan,
    entry: &Entry,
) -> Result<(), AllocError>
    requires spelled { IsTrue (is_spelled_reply plan.now entry.now.box_no entry.now.reply) }
    ensures { OnOk result (length sentence.old < length sentence.new) }
{
    let act = entry.call.act;
    match entry.reply {
        Reply::Rung { k } => say_rung(sentence, plan, entry.box_no, act, k),
        Reply::Heard { code, k } => say_heard(sentence, plan, entry.box_no, act, code, k),
        Reply::Turned { v } | Reply::Seen { v } => say_shows(sentence, act, v),
        Reply::PulledUnder { v } => {
            say_ordinal(sentence, "the instrument's ", v)?;
            sentence.say(" turn, which is spent now")
        }
        Reply::Passed { train } => {
            sentence.say_train(plan, "train ", train)?;
            sentence.say(", and the arm is at danger")
        }
        Reply::Entered { train, k } => say_numbered(sentence, plan, act, train, k),
        Reply::Approaching { train, j }
        | Reply::Berthed { train, j }
        | Reply::PartBerthed { train, j } => say_numbered(sentence, plan, act, train, j),
        Reply::Cleared { train, j } => {
            sentence.say("the portion of ")?;
            say_numbered(sentence, plan, act, train, j)
        }
        Reply::Winding { ready_at } => {
            sentence.say_moment(alloc, plan.version, "the release may come at ", ready_at)
        }
        _ => sentence.say("what was asked for is done"),
    }
}

// What was done, as a sentence.
fn done_of(alloc: Global, plan: &Plan, entry: &Entry) -> Result<Sentence, AllocError>
    requires spelled { IsTrue (is_spelled_reply plan.now entry.now.box_no entry.now.reply) }
    ensures { IfOk result (λ sentence. 0 < length sentence) }
{
    let mut sentence = Sentence::with_capacity(alloc, ROOM)?;
    say_done(&mut sentence, alloc, plan, entry)?;
    Ok(sentence)
}

// Puts what was done behind a text.
fn put_done(out: &mut String, plan: &Plan, entry: &Entry) -> Result<(), AllocError>
    requires spelled { IsTrue (is_spelled_reply plan.now entry.now.box_no entry.now.reply) }
    ensures { OnOk result (Says (string_bytes out.old) (string_bytes out.new)) }
{
    let sentence = done_of(*out.allocator(), plan, entry)?;
    out.push_str(sentence.as_str())
}

// Puts what an answer tells behind its word.
fn put_told(out: &mut String, plan: &Plan, entry: &Entry) -> Result<(), AllocError>
    requires at { entry.now.box_no < length plan.now.boxes }
    requires spelled { IsTrue (is_spelled_reply plan.now entry.now.box_no entry.now.reply) }
    ensures { OnOk result (Says (string_bytes out.old) (string_bytes out.new)) }
{
    if is_refused(&entry.reply) {
        put_sentence(out, plan, entry)
    } else {
        put_done(out, plan, entry)
    }
}

/// Puts the line of what a call was answered behind a text: `refused: ` and the sentence, or a word for what was done
/// and what it tells, as in `berthed: train 1A01, the first on the down line`. The entry is one that the line can
/// spell. Where memory runs out a part may stand behind the text.
pub fn put_answer(out: &mut String, plan: &Plan, entry: &Entry) -> Result<(), AllocError>
    requires at { entry.now.box_no < length plan.now.boxes }
    requires spelled { IsTrue (is_spelled_reply plan.now entry.now.box_no entry.now.reply) }
    ensures { OnOk result (TellsAnswer entry.now.reply (string_bytes out.old) (string_bytes out.new)) }
{
    out.push_str(answer_front(&entry.reply))?;
    if !is_plain(&entry.reply) {
        put_told(out, plan, entry)?;
    }
    out.push('\n')
}
