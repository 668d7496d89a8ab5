//! The lines of a text, and the words of a line.

ghost use Rattle.std.specs.Prelude.{◌≡◌, ℕ, List, ◌+◌, ◌^◌, ◌<◌, [], ◌∷◌, length, drop, option_map, IfNone, IfSome};
ghost use Rattle.std.specs.Prelude.{slice_get, map, true};
ghost use Rattle.std.specs.List.{list_all, flat_map};
ghost use Rattle.rail_text.specs.Lines.{Line, AreLinesOf, AreWordsOf, lacks, ended_line, printed_line, cut_of};
ghost use Rattle.rail_text.specs.Lines.{lines_of, words_of, words_after};

use memchr::memchr;
use std::marker::Model;

// What stands before the first space, and what after it, if there is one. Words are short, so a loop
// is faster than a search by vectors.
fn cut_at_space(bytes: &[u8]) -> (&[u8], Option<&[u8]>)
    ensures front { result.0.now ≡ (cut_of 32 bytes.now).0 }
    ensures rest { option_map (λ s. s.now) result.1 ≡ (cut_of 32 bytes.now).1 }
{
    for (i, b) in bytes.iter().enumerate() {
        if *b == b' ' {
            return (&bytes[..i], Some(&bytes[i + 1..]));
        }
    }
    (bytes, None)
}

// What stands before the first line end, and what after it, if there is one.
#[tactic(auto, using(crate::proofs::FirstByte::first_rules))]
fn cut_at_line_end(bytes: &[u8]) -> (&[u8], Option<&[u8]>)
    ensures front { result.0.now ≡ (cut_of 10 bytes.now).0 }
    ensures rest { option_map (λ s. s.now) result.1 ≡ (cut_of 10 bytes.now).1 }
{
    match memchr(b'\n', bytes) {
        Some(i) => (&bytes[..i], Some(&bytes[i + 1..])),
        None => (bytes, None),
    }
}

// The first line, whether it has an end, and what is after it.
#[tactic(auto, using(crate::proofs::LineRules::line_rules))]
fn first_line(bytes: &[u8]) -> (&[u8], bool, &[u8])
    requires { 0 < length bytes.now }
    ensures line { lines_of bytes.now ≡
        record { text = result.0.now; ended = result.1 } ∷ lines_of result.2.now }
    ensures fewer { length result.2.now < length bytes.now }
{
    let (text, rest) = cut_at_line_end(bytes);
    match rest {
        Some(rest) => (text, true, rest),
        None => (text, false, &[]),
    }
}

/// The first word of a text, and what is after the space behind it; `None` where the word is the
/// last.
#[tactic(auto, using(crate::proofs::LineRules::word_rules))]
pub fn first_word(bytes: &[u8]) -> (&[u8], Option<&[u8]>)
    ensures { words_of bytes.now ≡ result.0.now ∷ words_after (option_map (λ s. s.now) result.1) }
{
    cut_at_space(bytes)
}

// The word with this number, from 0.
pub(crate) fn word_at(bytes: &[u8], i: usize) -> Option<&[u8]>
    ensures { option_map (λ s. s.now) result ≡ slice_get (words_of bytes.now) i }
{
    let mut rest = bytes;
    for _ in 0..i {
        let (_, after) = first_word(rest);
        rest = after?;
    }
    let (word, _) = first_word(rest);
    Some(word)
}

/// The lines of a text from the front on, each with its number from 1. Contracts see the bytes that
/// are left, and the number of the line before them.
#[derive(Drop)]
pub struct Lines<'a> {
    rest: &'a [u8],
    number: u32,
}

impl<'a> Model for Lines<'a> {
    ghost use Rattle.std.specs.Prelude.{◌+◌, ◌^◌, ◌<◌, length};
    ghost use Rattle.rail_text.specs.Lines.{Left};

    ghost Value = { Left };

    ghost view = { λ s. record { number = s.number; rest = s.rest.now } };

    ghost invariant = { λ s. s.number + length s.rest.now < 2 ^ 32 };
}

/// A line without its end, the byte 10; `ended` is false only for a last line that has none.
#[derive(Clone, Copy)]
pub struct TextLine<'a> {
    pub number: u32,
    pub text: &'a [u8],
    pub ended: bool,
}

// The bytes behind the word with this number and its space, where there is a space.
pub(crate) fn behind(bytes: &[u8], i: usize) -> Option<&[u8]>
    ensures { words_after (option_map (λ s. s.now) result) ≡ drop (i + 1) (words_of bytes.now) }
{
    let mut rest = bytes;
    for _ in 0..i {
        let (_, after) = first_word(rest);
        rest = after?;
    }
    let (_, after) = first_word(rest);
    after
}

// One more than the spaces.
#[tactic(auto, using(crate::proofs::LineRules::count_rules))]
pub(crate) fn count_words(bytes: &[u8]) -> usize
    ensures { result ≡ length (words_of bytes.now) }
{
    bytes.iter().filter(|b| **b == b' ').count() + 1
}

impl<'a> TextLine<'a> {
    /// The word with this number, from 0; `None` exactly where the line has no such word. Words are
    /// what stands between single spaces, so a line has at least one, and one may be empty.
    pub fn word(&self, i: usize) -> Option<&'a [u8]>
        ensures { option_map (λ s. s.now) result ≡ slice_get (words_of self.now.text.now) i }
    {
        word_at(self.text, i)
    }

    /// What stands behind the word with this number and the space after it; `None` exactly where
    /// that word is the last or there is none.
    pub fn behind(&self, i: usize) -> Option<&'a [u8]>
        ensures { words_after (option_map (λ s. s.now) result) ≡
            drop (i + 1) (words_of self.now.text.now) }
    {
        behind(self.text, i)
    }

    /// How many words the line has.
    pub fn word_count(&self) -> usize
        ensures { result ≡ length (words_of self.now.text.now) }
    {
        count_words(self.text)
    }
}

impl<'a> Lines<'a> {
    /// The lines of these bytes, fewer than 2^32.
    pub fn new(bytes: &'a [u8]) -> Lines<'a>
        requires { length bytes.now < 2 ^ 32 }
        ensures rest { result.rest ≡ bytes.now }
        ensures number { result.number ≡ 0 }
    {
        Lines {
            rest: bytes,
            number: 0,
        }
    }

    /// The next line; `None` exactly where no byte is left.
    pub fn next(&mut self) -> Option<TextLine<'a>>
        ensures end { IfNone result ((self.old.rest ≡ []) × (self.new ≡ self.old)) }
        ensures line { IfSome result (λ t. lines_of self.old.rest ≡
            record { text = t.text.now; ended = t.ended } ∷ lines_of self.new.rest) }
        ensures number { IfSome result (λ t. t.number ≡ self.old.number + 1) }
        ensures counted { IfSome result (λ t. self.new.number ≡ t.number) }
        ensures fewer { IfSome result (λ t. length self.new.rest < length self.old.rest) }
    {
        if self.rest.is_empty() {
            return None;
        }
        let (text, ended, rest) = first_line(self.rest);
        self.number += 1;
        self.rest = rest;
        Some(TextLine {
            number: self.number,
            text,
            ended,
        })
    }
}

/// A law: the lines of a text are those that in a row make up its bytes, have no line end inside,
/// and have each their end but for a last one.
#[tactic(auto, using(crate::proofs::PrintedLines::line_laws))]
pub fn lines_are_lines()
    ensures are { (bytes : List ℕ) → AreLinesOf bytes (lines_of bytes) }
    ensures only { (bytes : List ℕ) → (lines : List Line) →
        AreLinesOf bytes lines → lines ≡ lines_of bytes }
{}

/// A law: texts that are printed line by line are read as these lines.
#[tactic(auto, using(crate::proofs::PrintedLines::line_laws))]
pub fn printed_lines_are_read()
    ensures { (texts : List (List ℕ)) → list_all (lacks 10) texts ≡ true →
        lines_of (flat_map printed_line texts) ≡ map ended_line texts }
{}

/// A law: the words of a line are those that make up its text with single spaces between them, and
/// have no space inside.
#[tactic(auto, using(crate::proofs::PrintedLines::word_laws))]
pub fn words_are_words()
    ensures are { (text : List ℕ) → AreWordsOf text (words_of text) }
    ensures only { (text : List ℕ) → (words : List (List ℕ)) →
        AreWordsOf text words → words ≡ words_of text }
{}
