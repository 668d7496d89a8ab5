//! The lines of a text that say something, each with its number.

ghost use Rattle.std.specs.Prelude.{◌<◌, ◌^◌, length};

use rail_text::{Lines, NoMemory, first_word};
use std::alloc::Global;

/// A line of a text without its end, and its number.
#[derive(Clone, Copy)]
pub struct NumberedLine<'a> {
    pub number: u32,
    pub text: &'a [u8],
}

/// The word of a line with this number, from 0; nothing where the line has no such word.
pub fn word_of(line: &[u8], number: usize) -> &[u8] {
    let mut rest = line;
    for _ in 0..number {
        let (_, behind) = first_word(rest);
        match behind {
            Some(behind) => rest = behind,
            None => return &[],
        }
    }
    let (word, _) = first_word(rest);
    word
}

impl<'a> NumberedLine<'a> {
    /// The word with this number, from 0; nothing where the line has no such word.
    pub fn word(&self, number: usize) -> &'a [u8] {
        word_of(self.text, number)
    }

    /// Whether its first word is this one.
    pub fn has_keyword(&self, keyword: &[u8]) -> bool {
        self.word(0) == keyword
    }

    // Whether a reader of plans and scripts passes over it.
    fn is_skipped(&self) -> bool {
        self.text.is_empty() || self.text[0] == b'#'
    }
}

// Adds the lines of a text above the one with this number to others, but for those that are skipped.
fn push_lines<'a>(
    kept: &mut Vec<NumberedLine<'a>>,
    bytes: &'a [u8],
    number: u32,
) -> Result<(), NoMemory>
    requires { length bytes.now < 2 ^ 32 }
{
    let mut lines = Lines::new(bytes);
    while let Some(line) = lines.next() {
        if line.number >= number {
            return Ok(());
        }
        let line = NumberedLine {
            number: line.number,
            text: line.text,
        };
        if !line.is_skipped() {
            kept.push(line)?;
        }
    }
    Ok(())
}

/// The lines of a text above the one with this number, but for those that are skipped.
pub fn lines_above(
    alloc: Global,
    bytes: &[u8],
    number: u32,
) -> Result<Vec<NumberedLine<'_>>, NoMemory> {
    let mut kept = Vec::new(alloc);
    if bytes.len() > u32::MAX as usize {
        return Ok(kept);
    }
    match push_lines(&mut kept, bytes, number) {
        Ok(()) => Ok(kept),
        Err(error) => {
            drop(kept);
            Err(error)
        }
    }
}

/// The first of these lines with this keyword.
pub fn first_with<'a>(lines: &[NumberedLine<'a>], keyword: &[u8]) -> Option<NumberedLine<'a>> {
    for line in lines {
        if line.has_keyword(keyword) {
            return Some(*line);
        }
    }
    None
}

/// The first of these lines with this keyword that has a word in this place.
pub fn naming<'a>(
    lines: &[NumberedLine<'a>],
    keyword: &[u8],
    at: usize,
    word: &[u8],
) -> Option<NumberedLine<'a>> {
    for line in lines {
        if line.has_keyword(keyword) && line.word(at) == word {
            return Some(*line);
        }
    }
    None
}

// Adds the words that stand in this place of the lines with this keyword.
fn push_words<'a>(
    words: &mut Vec<&'a [u8]>,
    lines: &[NumberedLine<'a>],
    keyword: &[u8],
    at: usize,
) -> Result<(), NoMemory> {
    for line in lines {
        if line.has_keyword(keyword) {
            words.push(line.word(at))?;
        }
    }
    Ok(())
}

/// The words that stand in this place of the lines with this keyword.
pub fn words_with<'a>(
    alloc: Global,
    lines: &[NumberedLine<'a>],
    keyword: &[u8],
    at: usize,
) -> Result<Vec<&'a [u8]>, NoMemory> {
    let mut words = Vec::new(alloc);
    match push_words(&mut words, lines, keyword, at) {
        Ok(()) => Ok(words),
        Err(error) => {
            drop(words);
            Err(error)
        }
    }
}

// Where the last of these lines with this keyword stands among them.
fn last_at(lines: &[NumberedLine<'_>], keyword: &[u8]) -> Option<usize> {
    let mut last = None;
    for (at, line) in lines.iter().enumerate() {
        if line.has_keyword(keyword) {
            last = Some(at);
        }
    }
    last
}

/// These lines from the last one with this keyword on; all where none has it.
pub fn from_last<'a, 'b>(lines: &'b [NumberedLine<'a>], keyword: &[u8]) -> &'b [NumberedLine<'a>] {
    match last_at(lines, keyword) {
        Some(at) => lines.get(at..).unwrap_or(lines),
        None => lines,
    }
}

/// These lines up to the next one with this keyword behind the first.
pub fn to_next<'a, 'b>(lines: &'b [NumberedLine<'a>], keyword: &[u8]) -> &'b [NumberedLine<'a>] {
    for (at, line) in lines.iter().enumerate() {
        if at > 0 && line.has_keyword(keyword) {
            return &lines[..at];
        }
    }
    lines
}

/// A line that is refused, and those above it.
#[derive(Clone, Copy)]
pub struct Refused<'a> {
    pub line: NumberedLine<'a>,
    pub above: &'a [NumberedLine<'a>],
}

impl<'a> Refused<'a> {
    /// The word of the refused line with this number, from 0; nothing where it has no such word.
    pub fn word(&self, number: usize) -> &'a [u8] {
        self.line.word(number)
    }

    /// The lines of the box to which the refused line belongs, its line `box` first.
    pub fn here(&self) -> &'a [NumberedLine<'a>] {
        from_last(self.above, b"box")
    }

    /// The name of the box to which the refused line belongs; that of a frame alone, where no line `box` stands above.
    pub fn box_name(&self) -> &'a [u8] {
        match self.here().first() {
            Some(line) if line.has_keyword(b"box") => line.word(1),
            _ => b"The frame",
        }
    }

    /// The lines of the box with this name, its line `box` first.
    pub fn lines_of_box(&self, name: &[u8]) -> &'a [NumberedLine<'a>] {
        for (at, line) in self.above.iter().enumerate() {
            if line.has_keyword(b"box") && line.word(1) == name {
                return to_next(&self.above[at..], b"box");
            }
        }
        &[]
    }
}

/// The word of a line that was found, with this number; nothing where none was.
pub fn word_in<'a>(line: Option<NumberedLine<'a>>, number: usize) -> &'a [u8] {
    match line {
        Some(line) => line.word(number),
        None => &[],
    }
}

/// The number of a line that was found; 0 where none was.
pub fn number_of(line: Option<NumberedLine<'_>>) -> u64 {
    match line {
        Some(line) => u64::from(line.number),
        None => 0,
    }
}
