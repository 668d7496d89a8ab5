//! The sentence of a refused call.

ghost use Rattle.std.specs.Prelude.{◌<◌, IfOk, IsTrue, OnOk, length, string_bytes};
ghost use Rattle.reply_sentences.specs.Sentences.{Says};
ghost use Rattle.script_text.specs.Replies.{is_spelled_reply};

use crate::sentence::Sentence;
use line_law::{Act, Entry, Reply};
use line_plan::Plan;
use std::alloc::{AllocError, Global};

// The bytes that most sentences have room in.
const ROOM: usize = 96;

// The lever that a call moves, or 0.
fn lever_of(act: Act) -> u32 {
    match act {
        Act::Pull { lever } | Act::Put { lever } => lever,
        _ => 0,
    }
}

// What is said of a reply that tells nothing more.
fn words_of(reply: &Reply) -> &'static str
    ensures { 0 < length result.now }
{
    match *reply {
        Reply::AlreadyThere => "the commutator shows that position already",
        Reply::NotFromNormal =>
            "Line Clear is turned to from Normal alone: Normal has to come first",
        Reply::AlreadyReversed => "the lever is reversed already",
        Reply::Spare => "the lever is a spare one, which is never pulled",
        Reply::AlreadyNormal => "the lever is normal already",
        Reply::AlreadyBrought => "the train was brought before",
        Reply::NoTrain => "no train stands at the signal",
        Reply::AtDanger =>
            "the arm is at danger: its lever has to be pulled first (put back and pulled again, if a train has passed)",
        Reply::ArmOff =>
            "the arm is off: a train that goes passes the signal, and overruns nothing",
        Reply::NoPortion => "no portion is left on the plain line",
        Reply::AlreadyWinding => "the winding has begun already",
        Reply::NotAtNormal => "the commutator does not show Normal, where alone a winding begins",
        Reply::NotWinding => "no winding has begun, and the release has to be wound first",
        _ => "what was asked for is done",
    }
}

// Says what the reply of an entry tells.
#[tactic(auto, using(script_text::proofs::MomentTexts::ready_is_short), unfolding(script_text::specs::Replies::is_spelled_reply))]
fn say_reply(
    sentence: &mut Sentence,
    alloc: Global,
    plan: &Plan,
    entry: &Entry,
) -> Result<(), AllocError>
    requires at { entry.now.box_no < length plan.now.boxes }
    requires spelled { IsTrue (is_spelled_reply plan.now entry.now.box_no entry.now.reply) }
    ensures { OnOk result (length sentence.old < length sentence.new) }
{
    let box_no = entry.box_no;
    let act = entry.call.act;
    match entry.reply {
        Reply::BellBusy { code, .. } => sentence.say_bell_busy(plan, box_no, act, code),
        Reply::Silent { .. } => sentence.say_silent(plan, box_no, act),
        Reply::BellNotYet { shown, .. } => sentence.say_bell_not_yet(plan, box_no, act, shown),
        Reply::HomeReversed { lever } => sentence.say_home_reversed(lever),
        Reply::TrackOccupied { place, train } => {
            sentence.say_track_occupied(plan, box_no, place, train)
        }
        Reply::WelwynHolds { state } => sentence.say_welwyn_holds(state),
        Reply::CountFull { out } => sentence.say_count_full(out),
        Reply::BlockNotYet { shown, v } => sentence.say_block_not_yet(shown, v),
        Reply::HeldByLever { lever, row } => {
            sentence.say_held_by_lever(alloc, plan, box_no, lever_of(act), lever, row)
        }
        Reply::HeldByTrack { place, train } => {
            sentence.say_held_by_track(plan, box_no, lever_of(act), place, train)
        }
        Reply::HeldByInstrument {
            way,
            shown,
            spent,
            v,
        } => sentence.say_held_by_instrument(lever_of(act), way, shown, spent, v),
        Reply::Occupied { place, train } => sentence.say_occupied(plan, box_no, place, train),
        Reply::SectionFull { k } => sentence.say_section_full(k),
        Reply::TrainNotYet { j } | Reply::NoTrainAt { j } => sentence.say_no_train_at(j),
        Reply::BerthOccupied { train } => sentence.say_berth_occupied(plan, train),
        Reply::PortionAhead { train } => sentence.say_portion_ahead(plan, train),
        Reply::TooSoon { ready_at } => {
            sentence.say_moment(alloc, plan.version, "the winding lasts until ", ready_at)
        }
        _ => sentence.say(words_of(&entry.reply)),
    }
}

/// The sentence of a refused call: what its reply tells, in one line of plain English. The entry is one that the line
/// can spell.
pub fn sentence_of(alloc: Global, plan: &Plan, entry: &Entry) -> Result<Sentence, AllocError>
    requires at { entry.now.box_no < length plan.now.boxes }
    requires spelled { IsTrue (is_spelled_reply plan.now entry.now.box_no entry.now.reply) }
    ensures { IfOk result (λ sentence. 0 < length sentence) }
{
    let mut sentence = Sentence::with_capacity(alloc, ROOM)?;
    say_reply(&mut sentence, alloc, plan, entry)?;
    Ok(sentence)
}

/// Puts that sentence behind a text. Where memory runs out the text stays.
pub fn put_sentence(out: &mut String, plan: &Plan, entry: &Entry) -> Result<(), AllocError>
    requires at { entry.now.box_no < length plan.now.boxes }
    requires spelled { IsTrue (is_spelled_reply plan.now entry.now.box_no entry.now.reply) }
    ensures { OnOk result (Says (string_bytes out.old) (string_bytes out.new)) }
{
    let sentence = sentence_of(*out.allocator(), plan, entry)?;
    out.push_str(sentence.as_str())
}
