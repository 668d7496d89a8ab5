//! Numbers as a man says them: the first, the second.

ghost use Rattle.std.specs.Prelude.{◌+◌, ◌≤◌, OnOk, length};

use reply_sentences::Sentence;
use std::alloc::AllocError;

// The words of the first ten.
fn ordinal_word(number: u64) -> Option<&'static str> {
    match number {
        1 => Some("first"),
        2 => Some("second"),
        3 => Some("third"),
        4 => Some("fourth"),
        5 => Some("fifth"),
        6 => Some("sixth"),
        7 => Some("seventh"),
        8 => Some("eighth"),
        9 => Some("ninth"),
        10 => Some("tenth"),
        _ => None,
    }
}

// What stands behind the digits of a further one.
fn ordinal_ending(number: u64) -> &'static str {
    if number / 10 % 10 == 1 {
        return "th";
    }
    match number % 10 {
        1 => "st",
        2 => "nd",
        3 => "rd",
        _ => "th",
    }
}

/// Says these words and which one in a row: `first`, `11th`.
pub fn say_ordinal(sentence: &mut Sentence, words: &str, number: u64) -> Result<(), AllocError>
    ensures { OnOk result (length sentence.old + length words.now ≤ length sentence.new) }
{
    sentence.say(words)?;
    match ordinal_word(number) {
        Some(word) => sentence.say(word),
        None => {
            sentence.say_number(number)?;
            sentence.say(ordinal_ending(number))
        }
    }
}
