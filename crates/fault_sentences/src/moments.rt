//! Words that are no moments.

use crate::call_forms::call_form;
use crate::sentence::Piece::{Text, Word};
use crate::sentence::{Done, Sentence};

// The last three numbers of a word, between other signs, and how many it has.
#[derive(Clone, Copy)]
struct Numbers {
    count: u32,
    last: [u32; 3],
}

// A digit more of the last number, or the first of another one.
fn with_digit(numbers: Numbers, digit: u8, goes_on: bool) -> Numbers {
    let [first, second, third] = numbers.last;
    let digit = u32::from(digit);
    if goes_on {
        return Numbers {
            count: numbers.count,
            last: [
                first,
                second,
                third.saturating_mul(10).saturating_add(digit),
            ],
        };
    }
    Numbers {
        count: numbers.count.saturating_add(1),
        last: [second, third, digit],
    }
}

// The numbers of a word.
fn numbers_in(word: &[u8]) -> Numbers {
    let mut numbers = Numbers {
        count: 0,
        last: [0, 0, 0],
    };
    let mut goes_on = false;
    for byte in word {
        if byte.is_ascii_digit() {
            numbers = with_digit(numbers, *byte - b'0', goes_on);
        }
        goes_on = byte.is_ascii_digit();
    }
    numbers
}

// The hours, minutes and seconds that a word may mean.
fn parts_of(word: &[u8], version: u8) -> Option<[u32; 3]> {
    let numbers = numbers_in(word);
    let [first, second, third] = numbers.last;
    match numbers.count {
        1 if version == 1 && word.len() >= 3 => Some([third / 100, third % 100, 0]),
        1 if word.len() >= 5 => Some([third / 10_000, third / 100 % 100, third % 100]),
        1 if word.len() >= 3 => Some([third / 100, third % 100, 0]),
        2 => Some([second, third, 0]),
        3 => Some([first, second, third]),
        _ => None,
    }
}

// The two digits of a number below 100.
fn two_digits(number: u32) -> [u8; 2] {
    [b'0' + (number / 10 % 10) as u8, b'0' + (number % 10) as u8]
}

// The moment of these hours, minutes and seconds as it is written.
fn put_moment(sentence: &mut Sentence, version: u8, parts: [u32; 3]) -> Done {
    let [hours, minutes, seconds] = parts;
    let ([a, b], [c, d], [e, f]) = (two_digits(hours), two_digits(minutes), two_digits(seconds));
    if version == 1 {
        sentence.say(&[Word(&[a, b, b':', c, d])])
    } else {
        sentence.say(&[Word(&[a, b, b':', c, d, b':', e, f])])
    }
}

// The form of moments under this version.
fn form_under(version: u8) -> &'static str {
    if version == 1 {
        "Under `plan 1` a moment is written `HH:MM`, from `00:00` to `23:59`"
    } else {
        "Under `plan 2` a moment is written `HH:MM:SS`, from `00:00:00` to `23:59:59`"
    }
}

// Whether the hours, minutes and seconds are those of a moment of the day.
fn is_of_day(parts: [u32; 3]) -> bool {
    let [hours, minutes, seconds] = parts;
    hours < 24 && minutes < 60 && seconds < 60
}

// The moment of the day that a word may mean.
fn moment_meant(word: &[u8], version: u8) -> Option<[u32; 3]> {
    let parts = parts_of(word, version)?;
    if is_of_day(parts) { Some(parts) } else { None }
}

/// A word that is no moment in the form of the plan's version.
pub fn put_bad_moment(sentence: &mut Sentence, version: u8, word: &[u8]) -> Done {
    if call_form(word).is_some() {
        return sentence.say(&[
            Text("In front of "),
            Word(word),
            Text(" stands the moment of the call. "),
            Text(form_under(version)),
            Text("."),
        ]);
    }
    sentence.text(form_under(version))?;
    match moment_meant(word, version) {
        Some(parts) => {
            sentence.text(". Is ")?;
            put_moment(sentence, version, parts)?;
            sentence.text(" meant?")
        }
        None => sentence.say(&[Text(", and "), Word(word), Text(" is no such moment.")]),
    }
}
