//! What all answers are made of.

use crate::case_fault::CaseFault;
use rail_text::read_number;
use std::str;

/// Whether a call did what its row asks. What it answers is put behind a text.
pub type Done = Result<(), CaseFault>;

/// Puts what was printed.
pub fn put_bytes(out: &mut String, bytes: &[u8]) -> Done {
    out.push_str(str::from_utf8(bytes).unwrap_or("(no text)"))?;
    Ok(())
}

/// Puts a text in brackets, or that there is none.
pub fn put_found(out: &mut String, found: Option<&[u8]>) -> Done {
    let Some(found) = found else {
        out.push_str("none")?;
        return Ok(());
    };
    out.push('[')?;
    put_bytes(out, found)?;
    out.push(']')?;
    Ok(())
}

/// Puts one of two words.
pub fn put_whether(out: &mut String, is_so: bool, so: &str, otherwise: &str) -> Done {
    out.push_str(if is_so { so } else { otherwise })?;
    Ok(())
}

/// Puts numbers, each behind a space.
pub fn put_numbers(out: &mut String, numbers: &[u32]) -> Done {
    for number in numbers {
        write!(out, " {number}")?;
    }
    Ok(())
}

/// The number that a word spells.
pub fn number_of(word: &str) -> Result<u32, CaseFault> {
    match read_number(word.as_bytes()) {
        Some(number) => u32::try_from(number).or(Err(CaseFault::Argument)),
        None => Err(CaseFault::Argument),
    }
}

/// The two parts of an argument around the first bar, or other text.
pub fn two_parts<'a>(argument: &'a str, between: &str) -> Result<(&'a str, &'a str), CaseFault> {
    argument.split_once(between).ok_or(CaseFault::Argument)
}
