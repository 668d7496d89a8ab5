//! The words of a line, as its text tells them and as they are once they are cut.

use crate::putting::{Done, number_of, put_found, two_parts};
use crate::texts::{put_cause, put_fault};
use rail_text::{
    KeptEnds, LineFault, LineWords, TextLine, first_word, has_keyword, no_word, one_word,
};

fn line_of(text: &str) -> TextLine<'_> {
    TextLine {
        number: 1,
        text: text.as_bytes(),
        ended: true,
    }
}

// Puts what both have found.
fn put_both(out: &mut String, found: Option<&[u8]>, other: Option<&[u8]>) -> Done {
    if found == other {
        put_found(out, found)
    } else {
        Ok(out.push_str("two answers")?)
    }
}

/// `word N LINE`: the word with this number, from 0.
pub fn put_word(out: &mut String, argument: &str) -> Done {
    let (number, text) = two_parts(argument, " ")?;
    let number = number_of(number)? as usize;
    let mut ends = KeptEnds::none();
    let words = LineWords::new(text.as_bytes(), &mut ends);
    put_both(out, words.word(number), line_of(text).word(number))
}

/// `behind N LINE`: what stands behind the word with this number.
pub fn put_behind(out: &mut String, argument: &str) -> Done {
    let (number, text) = two_parts(argument, " ")?;
    let number = number_of(number)? as usize;
    let mut ends = KeptEnds::none();
    let words = LineWords::new(text.as_bytes(), &mut ends);
    put_both(out, words.behind(number), line_of(text).behind(number))
}

/// `words LINE`: how many words the line has.
pub fn put_words(out: &mut String, text: &str) -> Done {
    let mut ends = KeptEnds::none();
    let count = LineWords::new(text.as_bytes(), &mut ends).word_count();
    if count == line_of(text).word_count() {
        Ok(write!(out, "{count}")?)
    } else {
        Ok(out.push_str("two answers")?)
    }
}

/// `word_number WORD LINE`: the number of the first word that is this one, from 0.
pub fn put_word_number(out: &mut String, argument: &str) -> Done {
    let (word, text) = two_parts(argument, " ")?;
    let mut ends = KeptEnds::none();
    match LineWords::new(text.as_bytes(), &mut ends).number_of(word.as_bytes()) {
        Some(number) => Ok(write!(out, "{number}")?),
        None => Ok(out.push_str("none")?),
    }
}

/// `first_word LINE`: the first word, and what stands behind it.
pub fn put_first_word(out: &mut String, text: &str) -> Done {
    let (word, behind) = first_word(text.as_bytes());
    put_found(out, Some(word))?;
    out.push(' ')?;
    put_found(out, behind)
}

/// `keyword LINE`: the first word.
pub fn put_keyword(out: &mut String, text: &str) -> Done {
    let mut ends = KeptEnds::none();
    let keyword = LineWords::new(text.as_bytes(), &mut ends).keyword();
    if has_keyword(&line_of(text), keyword) {
        put_found(out, Some(keyword))
    } else {
        Ok(out.push_str("two answers")?)
    }
}

/// `one_word LINE`: the one word behind the first.
pub fn put_one_word(out: &mut String, text: &str) -> Done {
    let mut ends = KeptEnds::none();
    let words = LineWords::new(text.as_bytes(), &mut ends);
    match (words.one_word(), one_word(&line_of(text))) {
        (Ok(word), Ok(other)) => put_both(out, Some(word), Some(other)),
        (Err(cause), Err(fault)) if fault == LineFault::Cause(cause) => put_fault(out, fault),
        _ => Ok(out.push_str("two answers")?),
    }
}

/// `no_word LINE`: that no word stands behind the first.
pub fn put_no_word(out: &mut String, text: &str) -> Done {
    let mut ends = KeptEnds::none();
    let words = LineWords::new(text.as_bytes(), &mut ends);
    match (words.no_word(), no_word(&line_of(text))) {
        (Ok(()), Ok(())) => Ok(out.push_str("none")?),
        (Err(cause), Err(fault)) if fault == LineFault::Cause(cause) => put_cause(out, cause),
        _ => Ok(out.push_str("two answers")?),
    }
}
