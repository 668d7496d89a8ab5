//! What nobody was made to wait for, as a sentence.

ghost use Rattle.std.specs.Prelude.{◌<◌, IfOk, IsTrue, OnOk, length, string_bytes};
ghost use Rattle.line_law.specs.Known.{is_code_no};
ghost use Rattle.line_plan.specs.Plans.{is_train};
ghost use Rattle.script_text.specs.Entries.{IsSpelled};
ghost use Rattle.rehearsal_report.specs.Reports.{IsSentence};

use bell_codes::CodeNo;
use line_law::{Act, Entry, Reply};
use line_plan::Plan;
use reply_sentences::{Sentence, position_name};
use std::alloc::{AllocError, Global};

// Says a code and what became of it.
fn say_code_and(
    sentence: &mut Sentence,
    plan: &Plan,
    code: CodeNo,
    words: &str,
) -> Result<(), AllocError>
    requires code { IsTrue (is_code_no plan.now code) }
    requires words { 0 < length words.now }
    ensures { OnOk result (length sentence.old < length sentence.new) }
{
    sentence.say_code(plan, "", code)?;
    sentence.say(words)
}

// Says a train and what became of it.
fn say_train_and(
    sentence: &mut Sentence,
    plan: &Plan,
    train: u32,
    words: &str,
) -> Result<(), AllocError>
    requires { IsTrue (is_train plan.now.trains train) }
    ensures { OnOk result (length sentence.old < length sentence.new) }
{
    sentence.say_train(plan, "train ", train)?;
    sentence.say(words)
}

// Says what a man has done, by his box.
fn say_man_and(
    sentence: &mut Sentence,
    plan: &Plan,
    box_no: u32,
    words: &str,
) -> Result<(), AllocError>
    requires at { box_no < length plan.now.boxes }
    requires words { 0 < length words.now }
    ensures { OnOk result (length sentence.old < length sentence.new) }
{
    sentence.say(plan.box_name(box_no))?;
    sentence.say(words)
}

// Says what a man has done at a bell, an instrument or a lever.
#[tactic(auto, unfolding(line_law::specs::Known::knows_call))]
fn say_deed(sentence: &mut Sentence, plan: &Plan, entry: &Entry) -> Result<(), AllocError>
    requires { IsSpelled plan.now entry.now }
    ensures { OnOk result (length sentence.old < length sentence.new) }
{
    let box_no = entry.box_no;
    match entry.call.act {
        Act::Ring { code, .. } => say_code_and(sentence, plan, code, " was rung"),
        Act::Hear { .. } | Act::AwaitBell { .. } => {
            say_man_and(sentence, plan, box_no, " had listened to the bell")
        }
        Act::Turn { position, .. } => {
            say_man_and(sentence, plan, box_no, " had turned the instrument to ")?;
            sentence.say(position_name(position))
        }
        Act::AwaitBlock { .. } => {
            say_man_and(sentence, plan, box_no, " had looked at the instrument")
        }
        Act::Pull { lever } => {
            say_man_and(sentence, plan, box_no, " had pulled lever ")?;
            sentence.say_number(u64::from(lever))
        }
        Act::Pass { .. } | Act::Overrun { .. } => {
            say_man_and(sentence, plan, box_no, " had tried to send a train")
        }
        Act::AwaitTrain { .. }
        | Act::Berth { .. }
        | Act::BerthPart { .. }
        | Act::ClearPortion { .. } => {
            say_man_and(sentence, plan, box_no, " had looked for a train")
        }
        Act::Put { .. } | Act::Bring { .. } | Act::Wind { .. } | Act::Release { .. } => {
            say_man_and(sentence, plan, box_no, " had made that call")
        }
    }
}

// Says what the first entry of a race did or found.
#[tactic(auto, unfolding(script_text::specs::Replies::is_spelled_reply))]
fn say_what_was_done(sentence: &mut Sentence, plan: &Plan, first: &Entry) -> Result<(), AllocError>
    requires { IsSpelled plan.now first.now }
    ensures { OnOk result (length sentence.old < length sentence.new) }
{
    match first.reply {
        Reply::Heard { code, .. } => say_code_and(sentence, plan, code, " was heard"),
        Reply::BellBusy { .. } => {
            say_man_and(sentence, plan, first.box_no, " had tried to ring")
        }
        Reply::HeldByInstrument { .. } => {
            say_man_and(
                sentence,
                plan,
                first.box_no,
                " had tried to pull the starter",
            )
        }
        Reply::Entered { train, .. } => {
            say_train_and(sentence, plan, train, " had entered the section")
        }
        Reply::Berthed { train, .. } | Reply::Cleared { train, .. } => {
            say_train_and(sentence, plan, train, " had left the plain line")
        }
        _ => say_deed(sentence, plan, first),
    }
}

/// Why the second entry of a race may come before the first: what nothing makes its man wait for.
pub fn race_sentence(
    alloc: Global,
    plan: &Plan,
    first: &Entry,
    second: &Entry,
) -> Result<Sentence, AllocError>
    requires first { IsSpelled plan.now first.now }
    requires second { IsSpelled plan.now second.now }
    ensures { IfOk result (λ sentence. IsSentence sentence) }
{
    let mut sentence = Sentence::new(alloc);
    sentence.say("nothing makes ")?;
    sentence.say(plan.box_name(second.box_no))?;
    sentence.say(" wait until ")?;
    say_what_was_done(&mut sentence, plan, first)?;
    // Of its bytes the caller learns here that they print.
    let _said = sentence.as_str();
    Ok(sentence)
}
