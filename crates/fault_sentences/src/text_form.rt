//! What is wrong with a text before its words are read: its length, its bytes, its blanks and its ends.

use crate::numbered_line::{NumberedLine, Refused, first_with, number_of};
use crate::sentence::Piece::{Number, Text};
use crate::sentence::{Done, Sentence};

// Some bytes that may not stand in a text, and what they are.
const ODD_BYTES: [(&[u8], &str); 9] = [
    (
        b"\xEF\xBB\xBF",
        "a byte order mark, which some editors put in front of a text",
    ),
    (b"\xC2\xA0", "a blank that is no plain one"),
    (b"\xE2\x80\x93", "a dash that is no plain `-`"),
    (b"\xE2\x80\x94", "a dash that is no plain `-`"),
    (b"\xE2\x88\x92", "a minus sign that is no plain `-`"),
    (b"\xE2\x86\x92", "an arrow that is no plain `->`"),
    (b"\xE2\x80\x98", "a curved quotation mark"),
    (b"\xE2\x80\x99", "a curved quotation mark"),
    (b"\xE2\x80\x9C", "a curved quotation mark"),
];

/// The file's name, as a shell takes it.
fn put_name(sentence: &mut Sentence, name: &str) -> Done {
    if name.as_bytes().contains(&b' ') {
        return sentence.say(&[Text("'"), Text(name), Text("'")]);
    }
    sentence.text(name)
}

/// How the text is mended.
fn put_tidy(sentence: &mut Sentence, name: &str) -> Done {
    sentence.text(" `signalbox tidy ")?;
    put_name(sentence, name)?;
    sentence.text("` mends that.")
}

/// A text that is longer than its limit.
pub fn put_too_long(sentence: &mut Sentence, what: &str, length: usize, most: u64) -> Done {
    sentence.say(&[
        Text("The text has "),
        Number(length as u64),
        Text(" bytes, and "),
        Text(what),
        Text(" has at most "),
        Number(most),
        Text("."),
    ])
}

/// A last line without its end.
pub fn put_cut(sentence: &mut Sentence, name: &str) -> Done {
    sentence.text("The last line has no line end: each line is ended by one, the last one too.")?;
    put_tidy(sentence, name)
}

// What a byte is that may not stand in a line, with those behind it.
fn odd_bytes(bytes: &[u8]) -> Option<&'static str> {
    for (odd, text) in &ODD_BYTES {
        if bytes.starts_with(*odd) {
            return Some(*text);
        }
    }
    None
}

// Where the first byte of a line stands that may not stand in one.
fn odd_at(line: &[u8]) -> Option<usize> {
    for (at, byte) in line.iter().enumerate() {
        if *byte < b' ' || *byte > b'~' {
            return Some(at);
        }
    }
    None
}

// A byte that may not stand in a line, and that `tidy` takes away.
fn put_mended_byte(sentence: &mut Sentence, name: &str, text: &str) -> Done {
    sentence.text(text)?;
    put_tidy(sentence, name)
}

// The first of some bytes; 0 where there is none.
fn first_byte(bytes: &[u8]) -> u8 {
    match bytes.first() {
        Some(byte) => *byte,
        None => 0,
    }
}

// A byte that may not stand in a line, by what it is, behind so many others.
fn put_odd_byte(sentence: &mut Sentence, odd: &[u8], before: usize) -> Done {
    let byte = first_byte(odd);
    sentence.say(&[
        Text("Byte "),
        Number((before as u64).saturating_add(1)),
        Text(" of the line "),
    ])?;
    match odd_bytes(odd) {
        Some(text) => sentence.say(&[Text("begins "), Text(text)])?,
        None if byte < b' ' || byte == 127 => sentence.text(
            "is a control byte, which has no sign",
        )?,
        None => sentence.text("begins a letter or sign that isn't plain ASCII")?,
    }
    sentence.text(". Letters without accents, digits and plain signs alone may stand in a text.")
}

/// A line with a byte that may not stand in one.
pub fn put_bad_byte(sentence: &mut Sentence, name: &str, line: NumberedLine<'_>) -> Done {
    let at = odd_at(line.text).unwrap_or(0);
    let odd = line.text.get(at..).unwrap_or(b"");
    match odd.first() {
        Some(b'\t') => put_mended_byte(
            sentence,
            name,
            "A tab stands in the line: words are separated by one blank.",
        ),
        Some(b'\r') if odd.len() == 1 => put_mended_byte(
            sentence,
            name,
            "The line is ended by the two bytes CR LF, as on Windows: LF alone ends a line.",
        ),
        Some(0xEF) if line.number == 1 && at == 0 && odd.starts_with(b"\xEF\xBB\xBF") =>
            put_mended_byte(
                sentence,
                name,
                "A byte order mark stands in front of the text: it begins with its first word.",
            ),
        _ => put_odd_byte(sentence, odd, at),
    }
}

/// A line that is too long.
pub fn put_long_line(sentence: &mut Sentence, line: NumberedLine<'_>) -> Done {
    sentence.say(&[
        Text("The line has "),
        Number(line.text.len() as u64),
        Text(" bytes, and a line has at most 200."),
    ])?;
    if line.text.first() == Some(&b'#') {
        return sentence.text(" A comment may go on in a next line that begins with `#` too.");
    }
    Ok(())
}

// What blanks of a line are too many.
fn spacing_text(line: &[u8]) -> &'static str {
    if line.is_empty() {
        "The line is empty: a journal has no empty lines."
    } else if line[0] == b' ' {
        "The line begins with a blank, and a line begins with its first word."
    } else if line[line.len() - 1] == b' ' {
        "The line ends with a blank, and a line ends with its last word."
    } else {
        "Two blanks stand together: words are separated by one blank."
    }
}

/// A line with a blank too many.
pub fn put_spacing(sentence: &mut Sentence, name: &str, line: NumberedLine<'_>) -> Done {
    sentence.text(spacing_text(line.text))?;
    if line.text.is_empty() {
        return Ok(());
    }
    put_tidy(sentence, name)
}

/// A line behind the line `end`.
pub fn put_after_end(sentence: &mut Sentence, refused: &Refused<'_>) -> Done {
    sentence.say(&[
        Text("The text ends with the line `end`, which is line "),
        Number(number_of(first_with(refused.above, b"end"))),
        Text(". Put this line above it, or begin it with `#` as a comment."),
    ])
}

/// A text without the line `end`, of which this is the first line.
pub fn put_no_end(sentence: &mut Sentence, refused: &Refused<'_>, first: &str) -> Done {
    if refused.above.is_empty() {
        return sentence.say(&[
            Text("The text has no lines. Its first line is "),
            Text(first),
            Text("."),
        ]);
    }
    sentence.text("The text is over, and its last line has to be `end`.")
}
