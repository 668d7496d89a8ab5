//! Numbers, names and lines of texts.

use crate::case_fault::CaseFault;
use crate::putting::{Done, put_found, put_whether};
use rail_text::{
    Cause, KeptEnds, LineFault, LineForm, Lines, TextLine, cause_text, is_name, name_in, number_in,
    read_number,
};

/// `number WORD`: the number that the word spells.
pub fn put_number(out: &mut String, word: &str) -> Done {
    match read_number(word.as_bytes()) {
        Some(number) => write!(out, "{number}")?,
        None => out.push_str("none")?,
    }
    Ok(())
}

/// Puts a cause as it is printed.
pub fn put_cause(out: &mut String, cause: Cause) -> Done {
    Ok(out.push_str(cause_text(cause))?)
}

/// Puts why a line isn't taken.
pub fn put_fault(out: &mut String, fault: LineFault) -> Done {
    match fault {
        LineFault::Cause(cause) => put_cause(out, cause),
        LineFault::NoMemory => Err(CaseFault::NoMemory),
    }
}

/// `number_from_2_to_32 WORD`: the number of this range that the word spells.
pub fn put_number_in(out: &mut String, word: &str) -> Done {
    match number_in(word.as_bytes(), 2, 32) {
        Ok(number) => Ok(write!(out, "{number}")?),
        Err(fault) => put_fault(out, fault),
    }
}

/// `name WORD`: whether the word is a name, and the name that is read of it.
pub fn put_name(out: &mut String, word: &str) -> Done {
    put_whether(out, is_name(word.as_bytes()), "name ", "no name ")?;
    match name_in(word.as_bytes()) {
        Ok(name) => put_found(out, Some(name.as_bytes())),
        Err(fault) => put_fault(out, fault),
    }
}

// Puts a line with its number, and whether it is cut.
fn put_line(out: &mut String, line: &TextLine<'_>) -> Done {
    let number = line.number;
    write!(out, "{number} ")?;
    put_found(out, Some(line.text))?;
    put_whether(out, line.ended, ", ", " cut, ")
}

/// `lines TEXT`: the lines of the text, then none.
pub fn put_lines(out: &mut String, text: &str) -> Done {
    if text.len() > 1_000_000 {
        return Err(CaseFault::Argument);
    }
    let mut lines = Lines::new(text.as_bytes());
    for _ in 0..=text.len() {
        let Some(line) = lines.next() else {
            return Ok(out.push_str("none")?);
        };
        put_line(out, &line)?;
    }
    Ok(())
}

// The number of the words of a line, if it isn't skipped.
fn count_words(line: &TextLine<'_>, skips: bool) -> Result<Option<usize>, Cause> {
    let mut ends = KeptEnds::none();
    match line.formed(skips, &mut ends) {
        Ok(Some(words)) => Ok(Some(words.word_count())),
        Ok(None) => Ok(None),
        Err(cause) => Err(cause),
    }
}

// Puts the form of a line as it was told, and how many words were read.
fn put_told_form(
    out: &mut String,
    form: Result<LineForm, Cause>,
    words: Result<Option<usize>, Cause>,
) -> Done {
    match (form, words) {
        (Ok(LineForm::Words), Ok(Some(count))) => Ok(write!(out, "{count} words")?),
        (Ok(LineForm::Skipped), Ok(None)) => Ok(out.push_str("skipped")?),
        (Err(cause), Err(other)) if cause == other => put_cause(out, cause),
        _ => Ok(out.push_str("two answers")?),
    }
}

/// `form LINE` where lines may be skipped, and `form_unskipped LINE` where none may: the form of the line and the
/// number of its words. The line is cut where it has no end.
pub fn put_form(out: &mut String, skips: bool, line: &str) -> Done {
    let ended = line.ends_with('\n');
    let text = line.strip_suffix('\n').unwrap_or(line);
    let line = TextLine {
        number: 1,
        text: text.as_bytes(),
        ended,
    };
    put_told_form(out, line.form(skips), count_words(&line, skips))
}
