//! What is said of a line that isn't understood.

ghost use Rattle.std.specs.Prelude.{OnOk, string_bytes};
ghost use mathlib.Core.List.{IsPrefix};

use rail_text::{Cause, cause_text};
use std::alloc::{AllocError, Global};
use typed_words::NotUnderstood;

// How many columns a line of words may have.
const COLUMNS: usize = 78;

// Puts a word behind a list of words, on a new line where it has no room. How many columns its line has then.
fn put_word(list: &mut String, column: usize, word: &str) -> Result<usize, AllocError> {
    let wide = word.len().saturating_add(2);
    if column.saturating_add(wide) <= COLUMNS {
        list.push_str(if column > 0 { ", " } else { "  " })?;
        list.push_str(word)?;
        return Ok(column.saturating_add(wide));
    }
    list.push_str(",\n  ")?;
    list.push_str(word)?;
    Ok(wide)
}

// Words, with commas between them, in lines.
fn listed(alloc: Global, words: &[&'static str]) -> Result<String, AllocError> {
    let mut list = String::new(alloc);
    let mut column = 0;
    for word in words {
        column = put_word(&mut list, column, word)?;
    }
    Ok(list)
}

// Puts a word that isn't understood behind a text, by its number in the line.
fn put_place(out: &mut String, at: usize) -> Result<(), AllocError>
    ensures { OnOk result (IsPrefix (string_bytes out.old) (string_bytes out.new)) }
{
    out.push_str("not understood: ")?;
    match at {
        0 => out.push_str("the first word"),
        1 => out.push_str("the second word"),
        2 => out.push_str("the third word"),
        _ => out.push_str("a later word"),
    }
}

// What is wrong with a line, in words.
fn cause_words(cause: Cause) -> &'static str {
    match cause {
        Cause::WordCount => "there are too many words, or too few",
        Cause::BadNumber => "a number is wanted there",
        Cause::BadMoment => "that is no moment of the day",
        Cause::MomentFalls => "the moment is before your last one",
        Cause::NoLine => "there is no line on that side, or it doesn't run that way",
        Cause::NoBerth => "that line has no berth at your box",
        Cause::UnknownLever => "your frame has no lever of that number",
        Cause::NoArm => "that lever works no signal",
        Cause::UnknownCode => "the code table has no such code",
        Cause::BadCode => "that is no bell code, as 3-1 is one",
        Cause::UnknownName => "no train has that name",
        Cause::OtherBox => "that train comes from another box",
        other => cause_text(other),
    }
}

/// Puts behind a text what isn't understood in a line, and what would be.
pub(crate) fn put_misread(out: &mut String, what: &NotUnderstood) -> Result<(), AllocError>
    ensures { OnOk result (IsPrefix (string_bytes out.old) (string_bytes out.new)) }
{
    match what {
        NotUnderstood::UnknownWord { at, may_stand } => {
            put_place(out, *at)?;
            out.push_str(". There may stand\n")?;
            let list = listed(*out.allocator(), may_stand)?;
            out.push_str(list.as_str())?;
        }
        NotUnderstood::SeveralWords { at, fitting } => {
            put_place(out, *at)?;
            out.push_str(" begins several words\n")?;
            let list = listed(*out.allocator(), fitting)?;
            out.push_str(list.as_str())?;
        }
        NotUnderstood::Refused(cause) => {
            out.push_str("not understood: ")?;
            out.push_str(cause_words(*cause))?;
        }
    }
    out.push('\n')
}
