//! Rows of a locking table.

use crate::box_lines::{put_unknown_lever, put_wrong_kind};
use crate::numbered_line::{Refused, naming, word_of};
use crate::sentence::Piece::{Name, Text, Word};
use crate::sentence::{Done, Sentence};
use locking_table::{RowFault, read_spelled};
use rail_text::read_number;

/// The forms of a row.
const FORMS: &str =
    " A row is `A locks B normal`, `A locks B both ways` or `A released by B`, alone or followed by \
`when C normal` or `when C reversed and D normal`.";

const LEVER: &str = "a lever's number from 1 to 120";

// What may stand behind a word of a row, where that doesn't depend on the words before it.
const BEHIND: [(&str, &str); 6] = [
    ("row", LEVER),
    ("locks", LEVER),
    ("by", LEVER),
    ("when", LEVER),
    ("and", LEVER),
    ("released", "`by`"),
];

// What may stand behind a lever, by the word before it.
const BEHIND_LEVER: [(&str, &str); 5] = [
    ("row", "`locks` or `released by`"),
    ("locks", "`normal` or `both ways`"),
    ("by", "`when` or the end of the line"),
    ("when", "`normal` or `reversed`"),
    ("and", "`normal` or `reversed`"),
];

// What stands beside a word in these rows.
fn beside(rows: &[(&'static str, &'static str)], word: &[u8]) -> Option<&'static str> {
    for (first, second) in rows {
        if word == first.as_bytes() {
            return Some(*second);
        }
    }
    None
}

// The number of the word of a `row` line at which it goes off the form of rows, or of the one behind its last.
fn off_at(line: &[u8]) -> usize {
    match read_spelled(line.get(4..).unwrap_or(b"")) {
        Err(RowFault::BadRow { word }) => word as usize,
        Err(RowFault::SameLever) | Ok(_) => 1,
    }
}

// Whether a word stands among those of a line before the one with this number.
fn stands_before(line: &[u8], at: usize, word: &[u8]) -> bool {
    for number in 0..at {
        if word_of(line, number) == word {
            return true;
        }
    }
    false
}

// What may stand in a `row` line as the word with this number, where the words before it are right.
fn wanted(line: &[u8], at: usize) -> &'static str {
    let (last, before) = (
        word_of(line, at.saturating_sub(1)),
        word_of(line, at.saturating_sub(2)),
    );
    if let Some(text) = beside(&BEHIND, last) {
        return text;
    }
    if last == b"both".as_slice() {
        return "`ways`";
    }
    if read_number(last).is_some() {
        return beside(&BEHIND_LEVER, before).unwrap_or("`normal` or `reversed`");
    }
    if stands_before(line, at, b"and") {
        return "the end of the line, for a row has at most two conditions";
    }
    if stands_before(line, at, b"when") {
        return "`and` or the end of the line";
    }
    "`when` or the end of the line"
}

// A row that is off its form.
fn put_off_form(sentence: &mut Sentence, line: &[u8]) -> Done {
    let at = off_at(line);
    let (wanted, word) = (wanted(line, at), word_of(line, at));
    if word.is_empty() {
        sentence.say(&[
            Text("The row ends too early: next may stand "),
            Text(wanted),
            Text("."),
        ])?;
    } else {
        sentence.say(&[
            Text("In place of "),
            Word(word),
            Text(" may stand "),
            Text(wanted),
            Text("."),
        ])?;
    }
    sentence.text(FORMS)
}

/// A row that is off its form, one with `or` among these.
pub fn put_bad_row(sentence: &mut Sentence, refused: &Refused<'_>) -> Done {
    let line = refused.line.text;
    if word_of(line, off_at(line)) == b"or".as_slice() {
        return sentence.text(
            "Two conditions are joined by `and`, and there is no `or`. Write two rows, one with each condition.",
        );
    }
    put_off_form(sentence, line)
}

/// A row with a lever that stands twice.
pub fn put_same_lever(sentence: &mut Sentence, refused: &Refused<'_>) -> Done {
    for at in 1..12 {
        let word = refused.word(at);
        if read_number(word).is_some() && stands_before(refused.line.text, at, word) {
            return sentence.say(&[
                Text("Lever "),
                Name(word),
                Text(" stands twice in the row. All its levers have to differ."),
            ]);
        }
    }
    sentence.text("All levers of a row have to differ.")
}

/// A row with a lever that the box doesn't have, the first such lever.
pub fn put_unknown_in_row(sentence: &mut Sentence, refused: &Refused<'_>) -> Done {
    for at in 1..12 {
        let word = refused.word(at);
        if read_number(word).is_some() && naming(refused.here(), b"lever", 1, word).is_none() {
            return put_unknown_lever(sentence, refused, word);
        }
    }
    sentence.text("The box has not all levers of the row.")
}

/// A row with a spare lever, the first such lever.
pub fn put_spare_in_row(sentence: &mut Sentence, refused: &Refused<'_>) -> Done {
    for at in 1..12 {
        let word = refused.word(at);
        if let Some(lever) = naming(refused.here(), b"lever", 1, word) {
            if lever.word(2) == b"spare".as_slice() {
                return put_wrong_kind(sentence, refused, word);
            }
        }
    }
    sentence.text("A spare lever stands in no row.")
}
