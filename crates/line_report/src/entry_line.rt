//! The words of an entry's line: its number, its box, its call, `->` and its reply.

ghost use Rattle.std.specs.Prelude.{◌≡◌, ◌↔◌, ◌<◌, ◌≤◌, IfOk, IsTrue, Some, bytes_eq, codes, drop, length, position};
ghost use Rattle.line_plan.specs.Plans.{names_of};
ghost use Rattle.line_report.specs.Arrows.{before_arrow, behind_arrow};
ghost use Rattle.line_report.specs.Reading.{box_in, entry_number, later_call_in, told_reply_in};

use line_law::{Call, Reply};
use line_plan::Plan;
use rail_text::{Cause, LineWords, read_number};
use script_text::{moment_in, read_act, reply_in};

/// The number of an entry, which begins its line: it is the next one.
#[tactic(auto, unfolding(crate::specs::Reading::entry_number))]
pub fn entry_number(next: u64, words: &LineWords<'_>) -> Result<u64, Cause>
    ensures { result ≡ entry_number next words.now }
{
    match read_number(words.keyword()) {
        None => Err(Cause::BadNumber),
        Some(number) if number == next => Ok(number),
        Some(_) => Err(Cause::WrongCount),
    }
}

// Whether a word has these bytes. Names are short, so a loop is faster than a comparison of groups of bytes.
fn is_spelled_by(name: &[u8], word: &[u8]) -> bool
    ensures { IsTrue result ↔ (name.now ≡ word.now) }
{
    if name.len() != word.len() {
        return false;
    }
    for (at, byte) in name.iter().enumerate() {
        if word[at] != *byte {
            return false;
        }
    }
    true
}

// Whether a word names the box with this number.
fn names_box(plan: &Plan, box_no: u32, word: &[u8]) -> bool
    ensures { IsTrue result → position (bytes_eq word.now) (names_of plan.now.boxes) ≡ Some box_no }
{
    let names = &plan.box_names;
    (box_no as usize) < names.len() && is_spelled_by(names.name_of(box_no).as_bytes(), word)
}

/// The box that the second word names. The box of the entry before is asked first, for entries of one box often follow
/// one another.
#[tactic(auto, using(crate::proofs::Boxes::named_below), unfolding(crate::specs::Reading::box_in))]
pub fn box_in(plan: &Plan, last: u32, words: &LineWords<'_>) -> Result<u32, Cause>
    ensures exact { result ≡ box_in plan.now words.now }
    ensures below { IfOk result (λ box_no. box_no < length plan.now.boxes) }
{
    let Some(word) = words.word(1) else {
        return Err(Cause::UnknownName);
    };
    if names_box(plan, last, word) {
        return Ok(last);
    }
    match plan.box_names.number_of_word(word) {
        None => Err(Cause::UnknownName),
        Some(box_no) => Ok(box_no),
    }
}

// Whether a word is `->`, by its length first.
fn is_arrow(word: &[u8]) -> bool
    ensures { result ≡ bytes_eq (codes "->") word.now }
{
    word.len() == 2 && word[0] == b'-' && word[1] == b'>'
}

// How many words from one with a number on stand before the first word `->`; `None` exactly where none stands there.
fn arrow_behind(words: &LineWords<'_>, from: usize) -> Option<usize>
    requires { from ≤ length words.now }
    ensures { result ≡ position (bytes_eq (codes "->")) (drop from words.now) }
{
    for i in from..words.word_count() {
        if let Some(word) = words.word(i) {
            if is_arrow(word) {
                return Some(i - from);
            }
        }
    }
    None
}

/// The words of the entry's call, between the box and the first word `->`, and those of its reply behind it, if it
/// stands.
#[tactic(auto, using(crate::proofs::Arrows::cut_rules))]
pub fn told_words<'a>(words: &LineWords<'a>) -> (LineWords<'a>, Option<LineWords<'a>>)
    ensures call { result.0 ≡ before_arrow (drop 2 words.now) }
    ensures reply { result.1 ≡ behind_arrow (drop 2 words.now) }
{
    let count = words.word_count();
    let from = count.min(2);
    match arrow_behind(words, from) {
        None => (words.between(from, count), None),
        Some(many) => {
            let at = from + many;
            let behind = words.between(at + 1, count);
            (words.between(from, at), Some(behind))
        }
    }
}

/// The call of a box by its words, whose moment isn't below the last one of the box.
#[tactic(auto, unfolding(crate::specs::Reading::later_call_in, script_text::specs::Calls::call_in))]
pub fn later_call_in(
    plan: &Plan,
    box_no: u32,
    last: u32,
    words: &LineWords<'_>,
) -> Result<Call, Cause>
    requires { box_no < length plan.now.boxes }
    ensures { result ≡ later_call_in plan.now box_no last words.now }
{
    let moment = moment_in(plan.version, words)?;
    if moment < last {
        return Err(Cause::MomentFalls);
    }
    let act = read_act(plan, box_no, words)?;
    Ok(Call { moment, act })
}

/// The reply for a call of a box by its words, where a word `->` stands before them.
#[tactic(auto, unfolding(crate::specs::Reading::told_reply_in))]
pub fn told_reply_in(
    plan: &Plan,
    box_no: u32,
    call: &Call,
    words: &Option<LineWords<'_>>,
) -> Result<Reply, Cause>
    requires { box_no < length plan.now.boxes }
    ensures { result ≡ told_reply_in plan.now box_no call.now.act words.now }
{
    match words {
        None => Err(Cause::WordCount),
        Some(words) => reply_in(plan, box_no, call.act, words),
    }
}
