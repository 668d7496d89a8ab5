//! What is said of a refused script of a single line with tokens.

use crate::known_words::put_known;
use crate::numbered_line::{Refused, first_with};
use crate::sentence::Piece::{Text, Word};
use crate::sentence::{Done, Sentence};
use crate::wrong_words::put_bad_number;
use rail_text::{Cause, read_number};

const CALL: &str =
    "A call is the box, 0 or 1, and `give`, `withdraw`, `draw T`, `depart`, `arrive`, `replace` or `look`, \
as in `0 draw 7`.";

// The first two lines, as they are wanted.
fn put_head(sentence: &mut Sentence, refused: &Refused<'_>) -> Done {
    if refused.above.is_empty() {
        return sentence.text("The first line of a script with tokens is `token 1`.");
    }
    sentence.text(
        "Behind the line `token 1` stands `tokens A B`, the tokens at both boxes, as in `tokens 1 0`.",
    )
}

// A call's word that is none.
fn put_unknown_call(sentence: &mut Sentence, word: &[u8]) -> Done {
    if word.is_empty() {
        return sentence.text(CALL);
    }
    let calls = [
        b"give".as_slice(),
        b"withdraw".as_slice(),
        b"draw".as_slice(),
        b"depart".as_slice(),
        b"arrive".as_slice(),
        b"replace".as_slice(),
        b"look".as_slice(),
    ];
    sentence.say(&[Text("No call is "), Word(word), Text(".")])?;
    put_known(sentence, word, " The calls are ", &calls)
}

// The first word of a line that is no number, from the one in this place on.
fn not_number<'a>(refused: &Refused<'a>, from: usize) -> &'a [u8] {
    for at in from..3 {
        if read_number(refused.word(at)).is_none() {
            return refused.word(at);
        }
    }
    refused.word(from)
}

// A word that is no number. In a call the first word is one.
fn put_no_number(sentence: &mut Sentence, refused: &Refused<'_>) -> Done {
    let is_head = refused.line.has_keyword(b"token") || refused.line.has_keyword(b"tokens");
    if is_head || read_number(refused.word(0)).is_some() {
        let from = if is_head { 1 } else { 2 };
        return put_bad_number(sentence, not_number(refused, from));
    }
    sentence.text(CALL)
}

// A number that is out of its range.
fn put_out_of_range(sentence: &mut Sentence, refused: &Refused<'_>) -> Done {
    if refused.line.has_keyword(b"token") {
        return sentence.text("A script with tokens has the version 1.");
    }
    if refused.line.has_keyword(b"tokens") {
        return sentence.text("At each box stand 0 to 50 tokens at the opening.");
    }
    if refused.word(0) == b"0".as_slice() || refused.word(0) == b"1".as_slice() {
        return sentence.text("The trains have numbers from 1 to 65535.");
    }
    sentence.text("The two boxes have the numbers 0 and 1.")
}

/// What is said of the refused line of a script with tokens.
pub fn put_token_sentence(sentence: &mut Sentence, refused: &Refused<'_>, cause: Cause) -> Done {
    match cause {
        Cause::BadNumber => put_no_number(sentence, refused),
        Cause::OutOfRange => put_out_of_range(sentence, refused),
        Cause::UnknownWord => put_unknown_call(sentence, refused.word(1)),
        Cause::TooMany => sentence.text("A script with tokens has at most 10000 calls."),
        _ if first_with(refused.above, b"tokens").is_some() => sentence.text(CALL),
        _ => put_head(sentence, refused),
    }
}
