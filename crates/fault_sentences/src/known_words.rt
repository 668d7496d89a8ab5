//! The words that are known, told beside one that isn't.

use crate::near_words::{is_alike, meant};
use crate::sentence::Piece::{Name, Number, Text, Word};
use crate::sentence::{Done, Sentence};

/// The most words that are listed.
const MOST_LISTED: usize = 20;

// What stands before the word with this number in a list, which is the last of them or isn't.
fn before_item(at: usize, is_last: bool) -> &'static str {
    if at == 0 {
        ""
    } else if is_last {
        " and "
    } else {
        ", "
    }
}

/// Goes on with a list of these words, of the first twenty where there are more.
pub fn put_list(sentence: &mut Sentence, words: &[&[u8]]) -> Done {
    let count = words.len();
    if count > MOST_LISTED {
        for word in &words[..MOST_LISTED] {
            sentence.say(&[Name(*word), Text(", ")])?;
        }
        let more = (count - MOST_LISTED) as u64;
        return sentence.say(&[Text("and "), Number(more), Text(" more")]);
    }
    for (at, word) in words.iter().enumerate() {
        sentence.say(&[Text(before_item(at, at + 1 == count)), Name(*word)])?;
    }
    Ok(())
}

/// Goes on with words of its own, the list, and a full stop; with nothing where the list is empty.
pub fn put_listed(sentence: &mut Sentence, before: &str, words: &[&[u8]]) -> Done {
    if words.is_empty() {
        return Ok(());
    }
    sentence.text(before)?;
    put_list(sentence, words)?;
    sentence.text(".")
}

/// Goes on with the word that seems to be meant; where none does, with words of its own and all that are known.
pub fn put_known(sentence: &mut Sentence, word: &[u8], before: &str, known: &[&[u8]]) -> Done {
    match meant(word, known) {
        Some(near) if is_alike(word, near) => sentence.say(&[
            Text(" It is written "),
            Word(near),
            Text(": small and capital letters are never the same."),
        ]),
        Some(near) => sentence.say(&[Text(" Is "), Word(near), Text(" meant?")]),
        None => put_listed(sentence, before, known),
    }
}
