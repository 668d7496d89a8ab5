//! The words of a row's text, taken from the front on.

ghost use Rattle.std.specs.Prelude.{◌≡◌, ◌+◌, ◌-◌, ◌<◌, ◌≤◌, ◌^◌, ◌∷◌, [], Some, IfNone, IfSome, length, option_map};
ghost use Rattle.locking_table.specs.Words.{cut_of, words_of, words_after};
ghost use Rattle.locking_table.specs.Reading.{GivesPart, bound_from, bound_of, end_from, end_of_text, end_of_word};
ghost use Rattle.locking_table.specs.Reading.{has_no_word, lever_from, lever_of, lever_on, only_from, verb_from};
ghost use Rattle.locking_table.specs.Reading.{verb_of, with_digit};
ghost use Rattle.locking_table.specs.Places.{most_levers};

use crate::fault::RowFault;
use crate::places::{End, MOST_LEVERS};
use std::marker::Model;

/// The word behind a row's subject.
#[derive(Clone, Copy)]
pub enum Verb {
    Locks,
    Released,
}

/// The word behind the object of a row that locks.
#[derive(Clone, Copy)]
pub enum Bound {
    Normal,
    Both,
}

/// The words that are left of a text, and the number of the first of them, from 1.
#[derive(Drop)]
pub struct Words<'a> {
    rest: Option<&'a [u8]>,
    number: u32,
}

impl<'a> Model for Words<'a> {
    ghost use Rattle.std.specs.Prelude.{option_map};
    ghost use Rattle.locking_table.specs.Words.{Left, words_after};

    ghost Value = { Left };

    ghost view = { λ w. record { number = w.number; words = words_after (option_map (λ s. s.now) w.rest) } };
}

// What stands before the first space, and what behind it, if there is one.
fn cut(bytes: &[u8]) -> (&[u8], Option<&[u8]>)
    ensures front { result.0.now ≡ (cut_of bytes.now).0 }
    ensures rest { option_map (λ s. s.now) result.1 ≡ (cut_of bytes.now).1 }
{
    for (i, byte) in bytes.iter().enumerate() {
        if *byte == b' ' {
            return (&bytes[..i], Some(&bytes[i + 1..]));
        }
    }
    (bytes, None)
}

// The first word, and what is behind the space after it, if there is one.
#[tactic(auto, using(crate::proofs::WordLemmas::word_rules))]
fn first_word(bytes: &[u8]) -> (&[u8], Option<&[u8]>)
    ensures { words_of bytes.now ≡ result.0.now ∷ words_after (option_map (λ s. s.now) result.1) }
{
    cut(bytes)
}

// A number up to that of the last lever, with one digit more.
fn with_digit(number: u32, byte: u8) -> Option<u32>
    requires { number ≤ most_levers }
    ensures value { result ≡ with_digit number byte }
    ensures few { IfSome result (λ n. n ≤ most_levers) }
{
    if !byte.is_ascii_digit() {
        return None;
    }
    let longer = 10 * number + u32::from(byte - b'0');
    if 1 <= longer && longer <= MOST_LEVERS {
        Some(longer)
    } else {
        None
    }
}

// The lever that a word names: its number without leading zeros.
fn lever_of(word: &[u8]) -> Option<u32>
    ensures { result ≡ lever_of word.now }
{
    let mut number = 0;
    for byte in word {
        number = with_digit(number, *byte)?;
    }
    if number == 0 { None } else { Some(number) }
}

fn end_of_word(word: &[u8]) -> Option<End>
    ensures { result ≡ end_of_word word.now }
{
    if word == b"normal".as_slice() {
        Some(End::Normal)
    } else if word == b"reversed".as_slice() {
        Some(End::Reversed)
    } else {
        None
    }
}

fn verb_of(word: &[u8]) -> Option<Verb>
    ensures { result ≡ verb_of word.now }
{
    if word == b"locks".as_slice() {
        Some(Verb::Locks)
    } else if word == b"released".as_slice() {
        Some(Verb::Released)
    } else {
        None
    }
}

fn bound_of(word: &[u8]) -> Option<Bound>
    ensures { result ≡ bound_of word.now }
{
    if word == b"normal".as_slice() {
        Some(Bound::Normal)
    } else if word == b"both".as_slice() {
        Some(Bound::Both)
    } else {
        None
    }
}

impl<'a> Words<'a> {
    /// All words of a text.
    pub fn new(text: &'a [u8]) -> Self
        ensures { result ≡ record { number = 1; words = words_of text.now } }
    {
        Words {
            rest: Some(text),
            number: 1,
        }
    }

    /// Whether no word is left.
    pub fn is_empty(&self) -> bool
        ensures { result ≡ has_no_word self.now.words }
    {
        self.rest.is_none()
    }

    // That no row's text goes on with the first word that is left, or that none is left.
    fn bad(&self) -> RowFault
        ensures { result ≡ RowFault.BadRow self.now.number }
    {
        RowFault::BadRow { word: self.number }
    }

    fn next(&mut self) -> Option<&'a [u8]>
        requires { self.old.number < 2 ^ 16 }
        ensures none { IfNone result ((self.old.words ≡ []) × (self.new ≡ self.old)) }
        ensures some { IfSome result (λ w. self.old.words ≡ w.now ∷ self.new.words) }
        ensures number { IfSome result (λ _. self.new.number ≡ self.old.number + 1) }
    {
        let (word, rest) = first_word(self.rest?);
        self.rest = rest;
        self.number += 1;
        Some(word)
    }

    /// The lever that the next word names.
    #[tactic(auto, unfolding(crate::specs::Reading::lever_from))]
    pub fn lever(&mut self) -> Result<u32, RowFault>
        requires { self.old.number < 2 ^ 16 }
        ensures read { GivesPart result self.new (lever_from self.old) }
        ensures few { self.new.number ≤ self.old.number + 1 }
    {
        let bad = self.bad();
        match self.next() {
            Some(word) => lever_of(word).ok_or(bad),
            None => Err(bad),
        }
    }

    /// The end that the next word names.
    #[tactic(auto, unfolding(crate::specs::Reading::end_from))]
    pub fn end(&mut self) -> Result<End, RowFault>
        requires { self.old.number < 2 ^ 16 }
        ensures read { GivesPart result self.new (end_from self.old) }
        ensures few { self.new.number ≤ self.old.number + 1 }
    {
        let bad = self.bad();
        match self.next() {
            Some(word) => end_of_word(word).ok_or(bad),
            None => Err(bad),
        }
    }

    /// The next word, as the word behind a subject.
    #[tactic(auto, unfolding(crate::specs::Reading::verb_from))]
    pub fn verb(&mut self) -> Result<Verb, RowFault>
        requires { self.old.number < 2 ^ 16 }
        ensures read { GivesPart result self.new (verb_from self.old) }
        ensures few { self.new.number ≤ self.old.number + 1 }
    {
        let bad = self.bad();
        match self.next() {
            Some(word) => verb_of(word).ok_or(bad),
            None => Err(bad),
        }
    }

    /// The next word, as the word behind an object that is locked.
    #[tactic(auto, unfolding(crate::specs::Reading::bound_from))]
    pub fn bound(&mut self) -> Result<Bound, RowFault>
        requires { self.old.number < 2 ^ 16 }
        ensures read { GivesPart result self.new (bound_from self.old) }
        ensures few { self.new.number ≤ self.old.number + 1 }
    {
        let bad = self.bad();
        match self.next() {
            Some(word) => bound_of(word).ok_or(bad),
            None => Err(bad),
        }
    }

    /// Takes the next word, which is this one.
    #[tactic(auto, unfolding(crate::specs::Reading::only_from))]
    pub fn only(&mut self, wanted: &[u8]) -> Result<(), RowFault>
        requires { self.old.number < 2 ^ 16 }
        ensures read { GivesPart result self.new (only_from wanted.now self.old) }
        ensures few { self.new.number ≤ self.old.number + 1 }
    {
        let bad = self.bad();
        match self.next() {
            Some(word) if word == wanted => Ok(()),
            _ => Err(bad),
        }
    }

    /// That no word is left.
    #[tactic(auto, unfolding(crate::specs::Reading::end_of_text))]
    pub fn finish(&self) -> Result<(), RowFault>
        ensures { GivesPart result self.now (end_of_text self.now) }
    {
        if self.is_empty() {
            Ok(())
        } else {
            Err(self.bad())
        }
    }
}
