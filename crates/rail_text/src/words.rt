//! The words of a line.

ghost use Rattle.std.specs.Prelude.{◌≡◌, bytes_eq};
ghost use Rattle.std.specs.List.{list_all};
ghost use Rattle.rail_text.specs.Lines.{words_of};
ghost use Rattle.rail_text.specs.Gives.{GivesLine, TakesNoMemory};
ghost use Rattle.rail_text.specs.Words.{keyword, one_word, no_word, number_in, name_in, is_name, is_letter};
ghost use Rattle.rail_text.specs.Words.{is_name_byte, starts_with_letter};

use crate::{Cause, LineFault, TextLine, read_number};

/// Whether the first word of the line is this one.
pub fn has_keyword(line: &TextLine<'_>, word: &[u8]) -> bool
    ensures { result ≡ bytes_eq (keyword (words_of line.now.text.now)) word.now }
{
    match line.word(0) {
        Some(first) => first == word,
        None => word.is_empty(),
    }
}

/// The one word behind the keyword.
pub fn one_word<'a>(line: &TextLine<'a>) -> Result<&'a [u8], LineFault>
    ensures gives { GivesLine (λ s. s.now) result (one_word (words_of line.now.text.now)) }
    ensures memory { TakesNoMemory result }
{
    match (line.word(1), line.word(2)) {
        (Some(word), None) => Ok(word),
        _ => Err(LineFault::Cause(Cause::WordCount)),
    }
}

/// The keyword stands alone.
pub fn no_word(line: &TextLine<'_>) -> Result<(), LineFault>
    ensures gives { GivesLine (λ _. tt) result (no_word (words_of line.now.text.now)) }
    ensures memory { TakesNoMemory result }
{
    match line.word(1) {
        None => Ok(()),
        Some(_) => Err(LineFault::Cause(Cause::WordCount)),
    }
}

/// A number from `low` to `high`.
pub fn number_in(word: &[u8], low: u32, high: u32) -> Result<u32, LineFault>
    ensures gives { GivesLine (λ n. n) result (number_in low high word.now) }
    ensures memory { TakesNoMemory result }
{
    match read_number(word) {
        None => Err(LineFault::Cause(Cause::BadNumber)),
        Some(n) => {
            if u64::from(low) <= n && n <= u64::from(high) {
                Ok(n as u32)
            } else {
                Err(LineFault::Cause(Cause::OutOfRange))
            }
        }
    }
}

fn is_letter(c: u8) -> bool
    ensures { result ≡ is_letter c }
{
    c.is_ascii_alphabetic()
}

fn is_name_byte(c: u8) -> bool
    ensures { result ≡ is_name_byte c }
{
    is_letter(c) || c.is_ascii_digit() || c == b'_' || c == b'-'
}

fn starts_with_letter(word: &[u8]) -> bool
    ensures { result ≡ starts_with_letter word.now }
{
    match word {
        [first, ..] => is_letter(*first),
        [] => false,
    }
}

fn has_name_bytes(word: &[u8]) -> bool
    ensures { result ≡ list_all is_name_byte word.now }
{
    word.iter().all(|c| is_name_byte(*c))
}

/// One to sixteen bytes: a letter, then letters, digits, `_` and `-`.
pub fn is_name(word: &[u8]) -> bool
    ensures { result ≡ is_name word.now }
{
    word.len() <= 16 && starts_with_letter(word) && has_name_bytes(word)
}

/// A name.
#[tactic(auto, using(crate::proofs::NameText::name_rules))]
pub fn name_in(word: &[u8]) -> Result<&str, LineFault>
    ensures gives { GivesLine (λ s. s.now) result (name_in word.now) }
    ensures memory { TakesNoMemory result }
{
    if !is_name(word) {
        return Err(LineFault::Cause(Cause::BadName));
    }
    match std::str::from_utf8(word) {
        Ok(name) => Ok(name),
        Err(_) => Err(LineFault::Cause(Cause::BadName)),
    }
}
