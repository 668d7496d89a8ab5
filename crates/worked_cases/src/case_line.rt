//! The lines of a file of short cases.

use crate::case_fault::CaseFault;
use rail_text::read_number;

/// A line of a file of short cases.
#[derive(Clone, Copy)]
pub enum CaseLine<'a> {
    /// An empty line.
    Empty,
    /// A line that begins with `#`.
    Comment,
    /// `words WORD WORD ..`: a group begins, with these words, if there are any.
    Words(Option<&'a str>),
    /// `text NAME`: the text of that name begins.
    Text(&'a str),
    /// `each NAME`: from here on each case spells the text of that name.
    Each(&'a str),
    /// `| LINE`: a line of a text.
    Spelled(&'a str),
    /// `|*N LINE`: so many lines of a text, with their numbers.
    Repeated { times: u64, line: &'a str },
    /// `> LINE`: a line of the output that is wanted.
    Wanted(&'a str),
}

// What stands behind the bar of a line of a text.
fn read_spelled(behind_bar: &str) -> Result<CaseLine<'_>, CaseFault> {
    let Some(repeated) = behind_bar.strip_prefix('*') else {
        return match behind_bar.strip_prefix(' ') {
            Some(line) => Ok(CaseLine::Spelled(line)),
            None if behind_bar.is_empty() => Ok(CaseLine::Spelled("")),
            None => Err(CaseFault::Form),
        };
    };
    let (number, line) = repeated.split_once(' ').unwrap_or((repeated, ""));
    match read_number(number.as_bytes()) {
        Some(times) => Ok(CaseLine::Repeated { times, line }),
        None => Err(CaseFault::Form),
    }
}

// A line that has a keyword.
fn read_keyword_line(line: &str) -> Result<CaseLine<'_>, CaseFault> {
    match line.split_once(' ') {
        None if line == "words" => Ok(CaseLine::Words(None)),
        None if line == ">" => Ok(CaseLine::Wanted("")),
        Some(("words", words)) => Ok(CaseLine::Words(Some(words))),
        Some(("text", name)) => Ok(CaseLine::Text(name)),
        Some(("each", name)) => Ok(CaseLine::Each(name)),
        Some((">", wanted)) => Ok(CaseLine::Wanted(wanted)),
        _ => Err(CaseFault::Form),
    }
}

/// Reads a line, without its end.
pub fn read_case_line(line: &str) -> Result<CaseLine<'_>, CaseFault> {
    if line.is_empty() {
        return Ok(CaseLine::Empty);
    }
    if line.starts_with('#') {
        return Ok(CaseLine::Comment);
    }
    match line.strip_prefix('|') {
        Some(behind_bar) => read_spelled(behind_bar),
        None => read_keyword_line(line),
    }
}
