//! What is said of a refused journal.

use crate::call_forms::replies_to;
use crate::call_sentences::{RefusedCall, put_call_sentence};
use crate::known_words::put_known;
use crate::numbered_line::{NumberedLine, Refused, word_in, word_of};
use crate::plan_words::{box_named, box_names};
use crate::sentence::Piece::{Name, Number, Text, Word};
use crate::sentence::{Done, Sentence};
use crate::wrong_words::put_bad_number;
use line_plan::Plan;
use rail_text::{Cause, first_word, read_number};

const ENTRY: &str =
    "An entry is its number, its box, the moment, the call, `->` and the reply, as in \
`1 Elm 09:00 ring down 1 -> rung 1`.";

// What stands behind the first two words of an entry.
fn behind_box(line: &[u8]) -> &[u8] {
    match first_word(line) {
        (_, Some(behind)) => match first_word(behind) {
            (_, Some(words)) => words,
            (_, None) => b"",
        },
        (_, None) => b"",
    }
}

// The words of an entry's call: what stands behind the box, up to the first word `->`.
fn call_words(line: &[u8]) -> &[u8] {
    let words = behind_box(line);
    for (at, byte) in words.iter().enumerate() {
        if *byte == b' ' && words[at..].starts_with(b" ->") {
            return &words[..at];
        }
    }
    words
}

// The last of these lines that is an entry of the box with this name.
fn last_of_box<'a>(lines: &[NumberedLine<'a>], name: &[u8]) -> Option<NumberedLine<'a>> {
    let mut last = None;
    for line in lines {
        if line.word(1) == name {
            last = Some(*line);
        }
    }
    last
}

// The first line of a journal.
fn put_heading_sentence(
    sentence: &mut Sentence,
    plan: &Plan,
    refused: &Refused<'_>,
    cause: Cause,
) -> Done {
    let version = u64::from(plan.version);
    match cause {
        Cause::OutOfRange => sentence.say(&[
            Text("The journal has version "),
            Name(refused.word(1)),
            Text(", and the plan has version "),
            Number(version),
            Text(": is it the journal of this plan?"),
        ]),
        Cause::BadNumber => put_bad_number(sentence, refused.word(1)),
        _ => sentence.say(&[
            Text("The first line of a journal of this plan is `journal "),
            Number(version),
            Text("`."),
        ]),
    }
}

// A name that no box has.
fn put_unknown_box(sentence: &mut Sentence, plan: &Plan, name: &[u8]) -> Done {
    sentence.say(&[Text("The plan has no box "), Word(name), Text(".")])?;
    let boxes = box_names(sentence.alloc(), plan)?;
    let done = put_known(sentence, name, " The boxes are ", &boxes);
    drop(boxes);
    done
}

// A reply that the call of an entry can't have.
fn put_bad_reply(sentence: &mut Sentence, call: &[u8]) -> Done {
    let word = word_of(call, 1);
    sentence.say(&[
        Text("The reply to "),
        Word(word),
        Text(" is "),
        Text(replies_to(word).unwrap_or("another one")),
        Text(", with places, trains, levers and codes that the plan has."),
    ])
}

// An entry of a box with this number.
fn put_call_of_entry<'a>(
    sentence: &mut Sentence,
    plan: &'a Plan,
    box_no: u32,
    refused: &Refused<'a>,
    cause: Cause,
) -> Done {
    let above = last_of_box(refused.above, refused.word(1));
    let call = RefusedCall {
        plan,
        box_no,
        words: call_words(refused.line.text),
        above,
        moment: word_in(above, 2),
    };
    match cause {
        Cause::BadReply => put_bad_reply(sentence, call.words),
        Cause::WordCount if call.words.len() == behind_box(refused.line.text).len() =>
            sentence.text(ENTRY),
        _ => put_call_sentence(sentence, &call, cause),
    }
}

// An entry, or the line `end`.
fn put_entry_sentence<'a>(
    sentence: &mut Sentence,
    plan: &'a Plan,
    refused: &Refused<'a>,
    cause: Cause,
) -> Done {
    let number = refused.word(0);
    if number == b"end".as_slice() {
        return sentence.text("The line `end` has no further words.");
    }
    if read_number(number).is_none() {
        return sentence.text(ENTRY);
    }
    if matches!(cause, Cause::WrongCount) {
        return sentence.say(&[
            Text("The entries of a journal are numbered from 1, and the number of this one is "),
            Number(u64::from(refused.line.number).saturating_sub(1)),
            Text("."),
        ]);
    }
    match box_named(plan, refused.word(1)) {
        Some(box_no) => put_call_of_entry(sentence, plan, box_no, refused, cause),
        None => put_unknown_box(sentence, plan, refused.word(1)),
    }
}

/// What is said of the refused line of a journal.
pub fn put_journal_sentence<'a>(
    sentence: &mut Sentence,
    plan: &'a Plan,
    refused: &Refused<'a>,
    cause: Cause,
) -> Done {
    if refused.line.number == 1 {
        return put_heading_sentence(sentence, plan, refused, cause);
    }
    put_entry_sentence(sentence, plan, refused, cause)
}
