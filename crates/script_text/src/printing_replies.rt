//! Replies as they are printed.

ghost use Rattle.std.specs.Prelude.{ℕ, ◌≡◌, ◌<◌, ◌++◌, ◌∷◌, OnOk, IfOk, IsTrue, length, string_bytes, decimal, codes};
ghost use Rattle.line_law.specs.Known.{is_code_no};
ghost use Rattle.rail_text.specs.Words.{keyword};
ghost use Rattle.line_plan.specs.Plans.{PlanFields, is_train};
ghost use Rattle.line_plan.specs.Ways.{way_word};
ghost use Rattle.script_text.specs.Moments.{moment_text, hundred_hours};
ghost use Rattle.script_text.specs.Names.{position_text, code_no_text, place_text, train_text};
ghost use Rattle.script_text.specs.Replies.{reply_text, reply_words, is_spelled_reply, shown_text, state_text};
ghost use Rattle.script_text.specs.Replies.{spent_text, shows_code, is_stand, is_place, is_ready_moment};

use crate::moments::put_moment;
use crate::names::{
    place_word, position_word, put_code, put_small, put_train, put_way, train_word,
};
use crate::numbers::put_number;
use bell_codes::CodeNo;
use block_words::{Position, Way, WelwynState};
use line_law::Reply;
use line_plan::Plan;
use rail_text::NoMemory;
use std::alloc::{AllocError, Global};

// A Welwyn state's word.
fn state_word(state: WelwynState) -> &'static str
    ensures { result.now ≡ state_text state }
{
    match state {
        WelwynState::Ready => "ready",
        WelwynState::Given => "given",
        WelwynState::Berthed => "berthed",
    }
}

/// Whether an instrument is spent, as a word.
pub fn spent_word(spent: bool) -> &'static str
    ensures { result.now ≡ spent_text spent }
{
    if spent { "spent" } else { "unspent" }
}

// A word and a number.
fn put_count(out: &mut String, word: &str, number: u64) -> Result<(), AllocError>
    ensures { OnOk result (string_bytes out.new ≡ string_bytes out.old ++ (word.now ++ 32 ∷ decimal number)) }
{
    out.push_str(word)?;
    out.push(' ')?;
    put_number(out, number)
}

// A word, a number and a train.
fn put_counted_train(
    out: &mut String,
    plan: &Plan,
    word: &str,
    number: u64,
    train: u32,
) -> Result<(), AllocError>
    requires { IsTrue (is_train plan.now.trains train) }
    ensures { OnOk result (string_bytes out.new
        ≡ string_bytes out.old ++ (word.now ++ 32 ∷ decimal number ++ 32 ∷ train_text plan.now train)) }
{
    put_count(out, word, number)?;
    out.push(' ')?;
    out.push_str(train_word(plan, train))
}

// A word and a Welwyn state.
fn put_state(out: &mut String, word: &str, state: WelwynState) -> Result<(), AllocError>
    ensures { OnOk result (string_bytes out.new ≡ string_bytes out.old ++ (word.now ++ 32 ∷ state_text state)) }
{
    out.push_str(word)?;
    out.push(' ')?;
    out.push_str(state_word(state))
}

// A word, a number and a code.
fn put_code_told(
    out: &mut String,
    plan: &Plan,
    word: &str,
    k: u64,
    code: CodeNo,
) -> Result<(), AllocError>
    requires { IsTrue (is_code_no plan.now code) }
    ensures { OnOk result (string_bytes out.new
        ≡ string_bytes out.old ++ (word.now ++ 32 ∷ decimal k ++ 32 ∷ code_no_text plan.now.codes code)) }
{
    put_count(out, word, k)?;
    out.push(' ')?;
    put_code(out, plan, code)
}

// The position that an instrument shows after so many turns.
fn put_position(out: &mut String, v: u64, shown: Position) -> Result<(), AllocError>
    ensures { OnOk result (string_bytes out.new
        ≡ string_bytes out.old ++ (codes "not_yet" ++ 32 ∷ decimal v ++ 32 ∷ position_text shown)) }
{
    put_count(out, "not_yet", v)?;
    out.push(' ')?;
    out.push_str(position_word(shown))
}

// A number, and what a bell then shows: a code, or `none`.
fn put_shown(out: &mut String, plan: &Plan, k: u64, shown: Option<CodeNo>) -> Result<(), AllocError>
    requires { IsTrue (shows_code plan.now shown) }
    ensures { OnOk result (string_bytes out.new
        ≡ string_bytes out.old ++ (codes "not_yet" ++ 32 ∷ decimal k ++ 32 ∷ shown_text plan.now shown)) }
{
    match shown {
        Some(code) => put_code_told(out, plan, "not_yet", k, code),
        None => {
            put_count(out, "not_yet", k)?;
            out.push_str(" none")
        }
    }
}

// A word, a place of the box and a train.
fn put_stand(
    out: &mut String,
    plan: &Plan,
    box_no: u32,
    word: &str,
    place: u32,
    train: u32,
) -> Result<(), AllocError>
    requires at { box_no < length plan.now.boxes }
    requires stand { IsTrue (is_stand plan.now box_no place train) }
    ensures { OnOk result (string_bytes out.new
        ≡ string_bytes out.old ++ (word.now ++ 32 ∷ place_text plan.now box_no place
        ++ 32 ∷ train_text plan.now train)) }
{
    out.push_str(word)?;
    out.push(' ')?;
    put_train(out, plan, place_word(plan, box_no, place), train)
}

// A word, and the lever and the row by which a lever is held.
fn put_row(out: &mut String, word: &str, lever: u32, row: u32) -> Result<(), AllocError>
    ensures { OnOk result (string_bytes out.new
        ≡ string_bytes out.old ++ (word.now ++ 32 ∷ (decimal lever ++ 32 ∷ (codes "row" ++ 32 ∷ decimal row)))) }
{
    put_small(out, word, lever)?;
    put_small(out, " row", row)
}

// A position and whether the instrument is spent.
fn put_sight(out: &mut String, shown: Position, spent: bool) -> Result<(), AllocError>
    ensures { OnOk result (string_bytes out.new
        ≡ string_bytes out.old ++ (position_text shown ++ 32 ∷ spent_text spent)) }
{
    out.push_str(position_word(shown))?;
    out.push(' ')?;
    out.push_str(spent_word(spent))
}

// A word, and the instrument by which a starter is held.
fn put_instrument(
    out: &mut String,
    word: &str,
    way: Way,
    v: u64,
    shown: Position,
    spent: bool,
) -> Result<(), AllocError>
    ensures { OnOk result (string_bytes out.new
        ≡ string_bytes out.old ++ (word.now
        ++ 32 ∷ (way_word way ++ 32 ∷ (decimal v ++ 32 ∷ (position_text shown ++ 32 ∷ spent_text spent))))) }
{
    put_way(out, word, way)?;
    out.push(' ')?;
    put_number(out, v)?;
    out.push(' ')?;
    put_sight(out, shown, spent)
}

// A word and a moment at which a release may come.
fn put_ready(out: &mut String, version: u8, word: &str, ready_at: u32) -> Result<(), AllocError>
    requires { ready_at < hundred_hours version }
    ensures { OnOk result (string_bytes out.new
        ≡ string_bytes out.old ++ (word.now ++ 32 ∷ moment_text version ready_at)) }
{
    out.push_str(word)?;
    out.push(' ')?;
    put_moment(out, version, ready_at)
}

// The word with which a reply begins.
fn first_word(reply: &Reply) -> &'static str
    ensures { (plan : PlanFields) (b : ℕ) → keyword (reply_words plan b reply.now) ≡ result.now }
{
    match *reply {
        Reply::Rung { .. } => "rung",
        Reply::BellBusy { .. } => "bell_busy",
        Reply::Heard { .. } => "heard",
        Reply::Silent { .. } => "silent",
        Reply::BellNotYet { .. } => "not_yet",
        Reply::Turned { .. } => "turned",
        Reply::AlreadyThere => "already_there",
        Reply::NotFromNormal => "not_from_normal",
        Reply::HomeReversed { .. } => "home_reversed",
        Reply::TrackOccupied { .. } => "track_occupied",
        Reply::WelwynHolds { .. } => "welwyn_holds",
        Reply::CountFull { .. } => "count_full",
        Reply::Seen { .. } => "seen",
        Reply::BlockNotYet { .. } => "not_yet",
        Reply::Pulled => "pulled",
        Reply::PulledUnder { .. } => "pulled_under",
        Reply::AlreadyReversed => "already_reversed",
        Reply::Spare => "spare",
        Reply::HeldByLever { .. } => "held_by_lever",
        Reply::HeldByTrack { .. } => "held_by_track",
        Reply::HeldByInstrument { .. } => "held_by_instrument",
        Reply::Put => "put",
        Reply::AlreadyNormal => "already_normal",
        Reply::Brought => "brought",
        Reply::AlreadyBrought => "already_brought",
        Reply::Occupied { .. } => "occupied",
        Reply::Passed { .. } => "passed",
        Reply::Entered { .. } => "entered",
        Reply::NoTrain => "no_train",
        Reply::AtDanger => "at_danger",
        Reply::ArmOff => "arm_off",
        Reply::SectionFull { .. } => "section_full",
        Reply::Approaching { .. } => "approaching",
        Reply::TrainNotYet { .. } => "not_yet",
        Reply::Berthed { .. } => "berthed",
        Reply::PartBerthed { .. } => "part_berthed",
        Reply::NoTrainAt { .. } => "no_train",
        Reply::BerthOccupied { .. } => "occupied",
        Reply::PortionAhead { .. } => "portion_ahead",
        Reply::Cleared { .. } => "cleared",
        Reply::NoPortion => "no_portion",
        Reply::Winding { .. } => "winding",
        Reply::AlreadyWinding => "already_winding",
        Reply::NotAtNormal => "not_at_normal",
        Reply::Released => "released",
        Reply::NotWinding => "not_winding",
        Reply::TooSoon { .. } => "too_soon",
    }
}

/// Puts a reply of a box behind a text.
#[tactic(auto, using(crate::proofs::MomentTexts::ready_is_short), unfolding(crate::specs::Replies::reply_text, crate::specs::Replies::is_spelled_reply))]
pub fn put_reply(
    out: &mut String,
    plan: &Plan,
    box_no: u32,
    reply: &Reply,
) -> Result<(), AllocError>
    requires at { box_no < length plan.now.boxes }
    requires spelled { IsTrue (is_spelled_reply plan.now box_no reply.now) }
    ensures { OnOk result (string_bytes out.new ≡ string_bytes out.old ++ reply_text plan.now box_no reply.now) }
{
    let word = first_word(reply);
    match *reply {
        Reply::Rung { k: n }
        | Reply::Silent { k: n }
        | Reply::SectionFull { k: n }
        | Reply::Turned { v: n }
        | Reply::Seen { v: n }
        | Reply::PulledUnder { v: n }
        | Reply::TrainNotYet { j: n }
        | Reply::NoTrainAt { j: n } => put_count(out, word, n),
        Reply::BellBusy { k, code } | Reply::Heard { k, code } => {
            put_code_told(out, plan, word, k, code)
        }
        Reply::BellNotYet { k, shown } => put_shown(out, plan, k, shown),
        Reply::BlockNotYet { v, shown } => put_position(out, v, shown),
        Reply::HomeReversed { lever: n } | Reply::CountFull { out: n } => put_small(out, word, n),
        Reply::HeldByLever { lever, row } => put_row(out, word, lever, row),
        Reply::TrackOccupied { place, train }
        | Reply::HeldByTrack { place, train }
        | Reply::Occupied { place, train } => put_stand(out, plan, box_no, word, place, train),
        Reply::WelwynHolds { state } => put_state(out, word, state),
        Reply::HeldByInstrument {
            way,
            v,
            shown,
            spent,
        } => put_instrument(out, word, way, v, shown, spent),
        Reply::Passed { train } | Reply::BerthOccupied { train } | Reply::PortionAhead { train } =>
            { put_train(out, plan, word, train) }
        Reply::Entered { k: n, train }
        | Reply::Approaching { j: n, train }
        | Reply::Berthed { j: n, train }
        | Reply::PartBerthed { j: n, train }
        | Reply::Cleared { j: n, train } => put_counted_train(out, plan, word, n, train),
        Reply::Winding { ready_at } | Reply::TooSoon { ready_at } => {
            put_ready(out, plan.version, word, ready_at)
        }
        Reply::AlreadyThere
        | Reply::NotFromNormal
        | Reply::Pulled
        | Reply::AlreadyReversed
        | Reply::Spare
        | Reply::Put
        | Reply::AlreadyNormal => out.push_str(word),
        Reply::Brought
        | Reply::AlreadyBrought
        | Reply::NoTrain
        | Reply::AtDanger
        | Reply::ArmOff
        | Reply::NoPortion => out.push_str(word),
        Reply::AlreadyWinding | Reply::NotAtNormal | Reply::Released | Reply::NotWinding => {
            out.push_str(word)
        }
    }
}

/// The reply of a box as it is printed: the text from which `read_reply` gives it.
pub fn print_reply(
    alloc: Global,
    plan: &Plan,
    box_no: u32,
    reply: &Reply,
) -> Result<Vec<u8>, NoMemory>
    requires at { box_no < length plan.now.boxes }
    requires spelled { IsTrue (is_spelled_reply plan.now box_no reply.now) }
    ensures { IfOk result (λ text. text.items ≡ reply_text plan.now box_no reply.now) }
{
    let mut out = String::new(alloc);
    put_reply(&mut out, plan, box_no, reply)?;
    Ok(out.into_bytes())
}
