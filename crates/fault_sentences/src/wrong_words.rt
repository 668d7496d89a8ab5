//! Words that are off their form: numbers, names and bell codes.

use crate::sentence::Piece::{Number, Text, Word};
use crate::sentence::{Done, Sentence};
use rail_text::is_name;

/// The most letters of a name.
const LONGEST_NAME: usize = 16;

// Whether each byte of a word is a digit.
fn is_digits(word: &[u8]) -> bool {
    word.iter().all(|byte| byte.is_ascii_digit())
}

// The digits of a word from the first one up to the next byte that is none.
fn first_digits(word: &[u8]) -> &[u8] {
    for (from, byte) in word.iter().enumerate() {
        if byte.is_ascii_digit() {
            return leading_digits(&word[from..]);
        }
    }
    &[]
}

// The digits with which a word begins.
fn leading_digits(word: &[u8]) -> &[u8] {
    for (to, byte) in word.iter().enumerate() {
        if !byte.is_ascii_digit() {
            return &word[..to];
        }
    }
    word
}

// A word without the zeros with which it begins.
fn without_zeros(word: &[u8]) -> &[u8] {
    for (from, byte) in word.iter().enumerate() {
        if *byte != b'0' {
            return &word[from..];
        }
    }
    b"0"
}

/// What is wrong with a word that is no number.
pub fn put_bad_number(sentence: &mut Sentence, word: &[u8]) -> Done {
    if is_digits(word) && word.len() > 10 {
        return sentence.say(&[
            Word(word),
            Text(" has more than 10 digits, and no number here is that great."),
        ]);
    }
    if is_digits(word) {
        return sentence.say(&[
            Text("A number is written without zeros in front: "),
            Word(without_zeros(word)),
            Text("."),
        ]);
    }
    let digits = without_zeros(first_digits(word));
    if word.first() == Some(&b'-') || first_digits(word).is_empty() {
        return sentence.say(&[
            Word(word),
            Text(" is no number: a number is written by the digits 0 to 9 alone, without a sign."),
        ]);
    }
    sentence.say(&[
        Word(word),
        Text(" is no number. Write its digits alone: "),
        Word(digits),
        Text("."),
    ])
}

// The first byte of a word that may not stand in a name behind its first letter.
fn bad_byte(word: &[u8]) -> Option<&[u8]> {
    for (at, byte) in word.iter().enumerate() {
        if !is_name(&[b'a', *byte]) {
            return Some(&word[at..at + 1]);
        }
    }
    None
}

/// What is wrong with a word that is no name.
pub fn put_bad_name(sentence: &mut Sentence, word: &[u8]) -> Done {
    if word == b"away".as_slice() {
        return sentence.text(
            "`away` says that a signal leads off the line, so no place may be called so.",
        );
    }
    if let Some(byte) = bad_byte(word) {
        return sentence.say(&[
            Text("A name has letters, digits, `_` and `-`, and "),
            Word(byte),
            Text(" is none of these."),
        ]);
    }
    if word.len() > LONGEST_NAME {
        return sentence.say(&[
            Word(word),
            Text(" has "),
            Number(word.len() as u64),
            Text(" letters, and a name has at most 16."),
        ]);
    }
    sentence.say(&[
        Text("A name begins with a letter, and "),
        Word(word),
        Text(" doesn't."),
    ])
}

/// What is wrong with a word that is no bell code.
pub fn put_bad_code(sentence: &mut Sentence, word: &[u8]) -> Done {
    sentence.say(&[
        Word(word),
        Text(" is no bell code. A code is 1 to 5 groups of 1 to 16 beats, with `-` between them: "),
        Text("`3-1` is three beats, a pause, one beat."),
    ])
}
