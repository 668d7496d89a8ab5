//! The reply that a text spells for a call.

ghost use Rattle.std.specs.Prelude.{◌≡◌, ◌↔◌, ◌<◌, IfOk, IsErr, IfErr, length, map};
ghost use Rattle.std.specs.Option.{option_map};
ghost use Rattle.line_law.specs.declared.call.Reply.{Reply};
ghost use Rattle.line_law.specs.declared.call.Reply.TheVariants as replies;
ghost use Rattle.line_plan.specs.Plans.{IsPlan};
ghost use Rattle.script_text.specs.Answers.{small_number, state_named, spent_named, lone_reply, count_reply};
ghost use Rattle.script_text.specs.Answers.{pair_reply, code_reply, stand_reply, train_reply, tells_a_train};
ghost use Rattle.script_text.specs.Answers.{bell_shown, shown_reply, triple_reply, lever_reply, instrument_reply};
ghost use Rattle.script_text.specs.Answers.{shaped_reply, reply_in, reply_of};
ghost use Rattle.script_text.specs.Names.{row_named, position_named};
ghost use Rattle.script_text.specs.Pairs.{lever_pair, moment_pair};
ghost use Rattle.script_text.specs.Spelled.{SpellsReply};

use crate::moments::read_ready;
use crate::names::{code_named, place_named, position_named, train_named, way_named};
use crate::possible_replies::may_answer;
use crate::spelled_replies::is_spelled_reply;
use bell_codes::CodeNo;
use block_words::{Position, WelwynState};
use line_law::{Act, Call, Reply};
use line_plan::Plan;
use rail_text::{Cause, KeptEnds, LineWords, read_number};

// A number of 32 bits.
fn small_number(word: &[u8]) -> Option<u32>
    ensures { result ≡ small_number word.now }
{
    let number = read_number(word)?;
    if number <= u64::from(u32::MAX) {
        Some(number as u32)
    } else {
        None
    }
}

// `given` or `berthed`.
fn state_named(word: &[u8]) -> Option<WelwynState>
    ensures { result ≡ state_named word.now }
{
    if word == b"given".as_slice() {
        Some(WelwynState::Given)
    } else if word == b"berthed".as_slice() {
        Some(WelwynState::Berthed)
    } else {
        None
    }
}

// `spent` or `unspent`.
fn spent_named(word: &[u8]) -> Option<bool>
    ensures { result ≡ spent_named word.now }
{
    if word == b"spent".as_slice() {
        Some(true)
    } else if word == b"unspent".as_slice() {
        Some(false)
    } else {
        None
    }
}

// The reply of the first of these rows with this word.
fn row_named(rows: &[(&'static str, Reply)], word: &[u8]) -> Option<Reply>
    ensures { result ≡ row_named (map (λ row. (row.0.now, row.1)) rows.now) word.now }
{
    for row in rows {
        if word == row.0.as_bytes() {
            return Some(row.1);
        }
    }
    None
}

// The replies of one word.
#[tactic(auto, unfolding(crate::specs::Answers::lone_reply))]
fn lone_reply(word: &[u8]) -> Option<Reply>
    ensures { result ≡ lone_reply word.now }
{
    let rows = [
        ("already_there", Reply::AlreadyThere),
        ("not_from_normal", Reply::NotFromNormal),
        ("pulled", Reply::Pulled),
        ("already_reversed", Reply::AlreadyReversed),
        ("spare", Reply::Spare),
        ("put", Reply::Put),
        ("already_normal", Reply::AlreadyNormal),
        ("brought", Reply::Brought),
        ("already_brought", Reply::AlreadyBrought),
        ("no_train", Reply::NoTrain),
        ("at_danger", Reply::AtDanger),
        ("arm_off", Reply::ArmOff),
        ("no_portion", Reply::NoPortion),
        ("already_winding", Reply::AlreadyWinding),
        ("not_at_normal", Reply::NotAtNormal),
        ("released", Reply::Released),
        ("not_winding", Reply::NotWinding),
    ];
    row_named(&rows, word)
}

// The replies of a word and a number.
#[tactic(auto, unfolding(crate::specs::Answers::count_reply))]
fn count_reply(word: &[u8], number: u64) -> Option<Reply>
    ensures { result ≡ count_reply word.now number }
{
    let rows = [
        ("rung", Reply::Rung { k: number }),
        ("silent", Reply::Silent { k: number }),
        ("turned", Reply::Turned { v: number }),
        ("seen", Reply::Seen { v: number }),
        ("pulled_under", Reply::PulledUnder { v: number }),
        ("section_full", Reply::SectionFull { k: number }),
        ("not_yet", Reply::TrainNotYet { j: number }),
        ("no_train", Reply::NoTrainAt { j: number }),
    ];
    row_named(&rows, word)
}

// The replies of a word and a moment, and then those of a word and a number.
#[tactic(auto, unfolding(crate::specs::Pairs::moment_pair))]
fn moment_pair(plan: &Plan, word: &[u8], other: &[u8]) -> Option<Reply>
    ensures { result ≡ moment_pair plan.now word.now other.now }
{
    if word == b"winding".as_slice() {
        let ready_at = read_ready(plan.version, other)?;
        Some(Reply::Winding { ready_at })
    } else if word == b"too_soon".as_slice() {
        let ready_at = read_ready(plan.version, other)?;
        Some(Reply::TooSoon { ready_at })
    } else {
        count_reply(word, read_number(other)?)
    }
}

// The replies of a word and a lever, a number of 32 bits or a state, and then those of a moment.
#[tactic(auto, unfolding(crate::specs::Pairs::lever_pair))]
fn lever_pair(plan: &Plan, word: &[u8], other: &[u8]) -> Option<Reply>
    ensures { result ≡ lever_pair plan.now word.now other.now }
{
    if word == b"home_reversed".as_slice() {
        let lever = small_number(other)?;
        Some(Reply::HomeReversed { lever })
    } else if word == b"count_full".as_slice() {
        let out = small_number(other)?;
        Some(Reply::CountFull { out })
    } else if word == b"welwyn_holds".as_slice() {
        let state = state_named(other)?;
        Some(Reply::WelwynHolds { state })
    } else {
        moment_pair(plan, word, other)
    }
}

// The replies of two words: of a word and a train, and then the others.
#[tactic(auto, unfolding(crate::specs::Answers::pair_reply, crate::specs::Pairs::lever_pair, crate::specs::Pairs::moment_pair))]
fn pair_reply(plan: &Plan, word: &[u8], other: &[u8]) -> Option<Reply>
    ensures { result ≡ pair_reply plan.now word.now other.now }
{
    if word == b"passed".as_slice() {
        let train = train_named(plan, other)?;
        Some(Reply::Passed { train })
    } else if word == b"occupied".as_slice() {
        let train = train_named(plan, other)?;
        Some(Reply::BerthOccupied { train })
    } else if word == b"portion_ahead".as_slice() {
        let train = train_named(plan, other)?;
        Some(Reply::PortionAhead { train })
    } else {
        lever_pair(plan, word, other)
    }
}

// The replies of a word, a number and a code.
fn code_reply(word: &[u8], k: u64, code: CodeNo) -> Option<Reply>
    ensures { result ≡ code_reply word.now k code }
{
    let rows = [
        ("bell_busy", Reply::BellBusy { k, code }),
        ("heard", Reply::Heard { k, code }),
    ];
    row_named(&rows, word)
}

// The replies of a word, a place and a train.
fn stand_reply(word: &[u8], place: u32, train: u32) -> Option<Reply>
    ensures { result ≡ stand_reply word.now place train }
{
    let rows = [
        ("track_occupied", Reply::TrackOccupied { place, train }),
        ("held_by_track", Reply::HeldByTrack { place, train }),
        ("occupied", Reply::Occupied { place, train }),
    ];
    row_named(&rows, word)
}

// The replies of a word, a number and a train.
fn train_reply(word: &[u8], number: u64, train: u32) -> Option<Reply>
    ensures { result ≡ train_reply word.now number train }
{
    let rows = [
        ("entered", Reply::Entered { k: number, train }),
        ("approaching", Reply::Approaching { j: number, train }),
        ("berthed", Reply::Berthed { j: number, train }),
        ("part_berthed", Reply::PartBerthed { j: number, train }),
        ("cleared", Reply::Cleared { j: number, train }),
    ];
    row_named(&rows, word)
}

// Whether a word and a number go before a train.
fn tells_a_train(word: &[u8]) -> bool
    ensures { result ≡ tells_a_train word.now }
{
    word == b"entered".as_slice()
        || word == b"approaching".as_slice()
        || word == b"berthed".as_slice()
        || word == b"part_berthed".as_slice()
        || word == b"cleared".as_slice()
}

// What a bell shows: a code, or `none`.
fn bell_shown(plan: &Plan, word: &[u8]) -> Option<Option<CodeNo>>
    ensures { result ≡ bell_shown plan.now word.now }
{
    if word == b"none".as_slice() {
        return Some(None);
    }
    let code = code_named(plan, word)?;
    Some(Some(code))
}

// What a bell shows after so many codes, if the word names it.
fn bell_reply(number: u64, shown: Option<Option<CodeNo>>) -> Option<Reply>
    ensures { result ≡ option_map (λ code. replies.BellNotYet code number) shown }
{
    match shown {
        Some(shown) => Some(Reply::BellNotYet { k: number, shown }),
        None => None,
    }
}

// What an instrument or a bell shows after so many turns or codes: the position that the word names, or else a code.
fn shown_reply(plan: &Plan, number: u64, word: &[u8], position: Option<Position>) -> Option<Reply>
    ensures { result ≡ shown_reply plan.now number word.now position }
{
    match position {
        Some(shown) => Some(Reply::BlockNotYet { v: number, shown }),
        None => bell_reply(number, bell_shown(plan, word)),
    }
}

// The replies of three words.
#[tactic(auto, unfolding(crate::specs::Answers::triple_reply))]
fn triple_reply(plan: &Plan, box_no: u32, word: &[u8], other: &[u8], last: &[u8]) -> Option<Reply>
    requires { box_no < length plan.now.boxes }
    ensures { result ≡ triple_reply plan.now box_no word.now other.now last.now }
{
    if word == b"not_yet".as_slice() {
        let number = read_number(other)?;
        shown_reply(plan, number, last, position_named(last))
    } else if word == b"bell_busy".as_slice() || word == b"heard".as_slice() {
        let k = read_number(other)?;
        code_reply(word, k, code_named(plan, last)?)
    } else if tells_a_train(word) {
        let number = read_number(other)?;
        train_reply(word, number, train_named(plan, last)?)
    } else {
        let place = place_named(plan, box_no, other)?;
        stand_reply(word, place, train_named(plan, last)?)
    }
}

// `held_by_lever L row R`
#[tactic(auto, unfolding(crate::specs::Answers::lever_reply))]
fn lever_reply(word: &[u8], lever: &[u8], row: &[u8], number: &[u8]) -> Option<Reply>
    ensures { result ≡ lever_reply word.now lever.now row.now number.now }
{
    if word == b"held_by_lever".as_slice() && row == b"row".as_slice() {
        let lever = small_number(lever)?;
        let row = small_number(number)?;
        Some(Reply::HeldByLever { lever, row })
    } else {
        None
    }
}

// `held_by_instrument WAY v POSITION spent`
#[tactic(auto, unfolding(crate::specs::Answers::instrument_reply))]
fn instrument_reply(
    word: &[u8],
    way: &[u8],
    turns: &[u8],
    position: &[u8],
    spent: &[u8],
) -> Option<Reply>
    ensures { result ≡ instrument_reply word.now way.now turns.now position.now spent.now }
{
    if word == b"held_by_instrument".as_slice() {
        let way = way_named(way)?;
        let v = read_number(turns)?;
        let shown = position_named(position)?;
        let spent = spent_named(spent)?;
        Some(Reply::HeldByInstrument {
            way,
            v,
            shown,
            spent,
        })
    } else {
        None
    }
}

// The reply that the words of a line have the shape of.
#[tactic(auto, unfolding(crate::specs::Answers::shaped_reply))]
fn shaped_reply(plan: &Plan, box_no: u32, words: &LineWords<'_>) -> Option<Reply>
    requires { box_no < length plan.now.boxes }
    ensures { result ≡ shaped_reply plan.now box_no words.now }
{
    let word = words.word(0)?;
    let Some(second) = words.word(1) else {
        return lone_reply(word);
    };
    let Some(third) = words.word(2) else {
        return pair_reply(plan, word, second);
    };
    let Some(fourth) = words.word(3) else {
        return triple_reply(plan, box_no, word, second, third);
    };
    let Some(fifth) = words.word(4) else {
        return lever_reply(word, second, third, fourth);
    };
    match words.word(5) {
        None => instrument_reply(word, second, third, fourth, fifth),
        Some(_) => None,
    }
}

/// The reply that words spell for such a call of a box, as [`read_reply`] reads it of a text.
#[tactic(auto, unfolding(crate::specs::Answers::reply_in))]
pub fn reply_in(plan: &Plan, box_no: u32, act: Act, words: &LineWords<'_>) -> Result<Reply, Cause>
    requires { box_no < length plan.now.boxes }
    ensures exact { result ≡ reply_in plan.now box_no act words.now }
    ensures cause { IfErr result (λ cause. cause ≡ Cause.BadReply) }
{
    match shaped_reply(plan, box_no, words) {
        Some(reply) if may_answer(act, &reply) && is_spelled_reply(plan, box_no, &reply) => {
            Ok(reply)
        }
        _ => Err(Cause::BadReply),
    }
}

// The reply that a text spells for such a call of a box. The plan's version is read for what a plan's type keeps.
#[tactic(auto, unfolding(crate::specs::Answers::reply_of))]
fn reply_of(plan: &Plan, box_no: u32, act: Act, text: &[u8]) -> Result<Reply, Cause>
    requires { box_no < length plan.now.boxes }
    ensures exact { result ≡ reply_of plan.now box_no act text.now }
    ensures cause { IfErr result (λ cause. cause ≡ Cause.BadReply) }
    ensures plan { IsPlan plan.now }
{
    let _version = plan.version;
    let mut ends = KeptEnds::none();
    reply_in(plan, box_no, act, &LineWords::new(text, &mut ends))
}

/// The reply that a text spells for a call of a box. Each reply has one spelling; any other text is `BadReply`, and so
/// is the text of a reply that such a call never has, or that names a place, train, lever, row or code that isn't
/// there.
#[tactic(auto, using(crate::proofs::ReplyTexts::reading_rules))]
pub fn read_reply(plan: &Plan, box_no: u32, call: &Call, text: &[u8]) -> Result<Reply, Cause>
    requires { box_no < length plan.now.boxes }
    ensures exact { result ≡ reply_of plan.now box_no call.now.act text.now }
    ensures spelled { IfOk result (λ reply. SpellsReply plan.now box_no call.now.act text.now reply) }
    ensures refused { IsErr result ↔ ((reply : Reply) → ¬ SpellsReply plan.now box_no call.now.act text.now reply) }
    ensures cause { IfErr result (λ cause. cause ≡ Cause.BadReply) }
{
    reply_of(plan, box_no, call.act, text)
}
