//! The words of a typed line.

ghost use Rattle.std.specs.Prelude.{◌≡◌, ◌∷◌, ◌++◌, IfOk, OnOk, map, string_bytes};
ghost use Rattle.std.specs.List.{flat_map, join_with_byte};
ghost use Rattle.rail_text.specs.Lines.{is_empty_word, words_of};
ghost use Rattle.typed_words.specs.Lines.{is_timed, spaced_word, typed_words};

use std::alloc::{AllocError, Global};

// What stands between single spaces.
fn words_of(alloc: Global, line: &str) -> Result<Vec<&str>, AllocError>
    ensures { IfOk result (λ words. map (λ word. word.now) words.items ≡ words_of line.now) }
{
    line.split(' ').collect(alloc)
}

#[tactic(auto, using(crate::proofs::Spaces::empty_is))]
fn is_empty_word(word: &str) -> bool
    ensures { result ≡ is_empty_word word.now }
{
    word.is_empty()
}

/// The words of a typed line: what stands between spaces, however many they are. What isn't understood in a line is
/// told by the number of its word among these, from 0.
pub fn typed_words(alloc: Global, line: &str) -> Result<Vec<&str>, AllocError>
    ensures { IfOk result (λ words. map (λ word. word.now) words.items ≡ typed_words line.now) }
{
    let pieces = words_of(alloc, line)?;
    let mut words = Vec::new(alloc);
    for piece in &pieces {
        if !is_empty_word(piece) {
            words.push(*piece)?;
        }
    }
    Ok(words)
}

/// Whether a word stands for a moment: it begins with a digit.
pub(crate) fn is_timed(word: &str) -> bool
    ensures { result ≡ is_timed word.now }
{
    match word.as_bytes() {
        [first, ..] => first.is_ascii_digit(),
        [] => false,
    }
}

// Puts words behind a text, each with a space in front.
fn put_words(out: &mut String, words: &[&str]) -> Result<(), AllocError>
    ensures { OnOk result (string_bytes out.new
        ≡ string_bytes out.old ++ flat_map spaced_word (map (λ word. word.now) words.now)) }
{
    for word in words {
        out.push(' ')?;
        out.push_str(word)?;
    }
    Ok(())
}

/// The line of a moment and the words behind it.
#[tactic(auto, using(crate::proofs::Spaces::joined_is))]
pub(crate) fn joined(alloc: Global, moment: &str, words: &[&str]) -> Result<String, AllocError>
    ensures { IfOk result (λ line. string_bytes line
        ≡ join_with_byte 32 (moment.now ∷ map (λ word. word.now) words.now)) }
{
    let mut line = String::from_str(alloc, moment)?;
    put_words(&mut line, words)?;
    Ok(line)
}
