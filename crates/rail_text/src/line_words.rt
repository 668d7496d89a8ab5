//! The words of a line, cut once.

ghost use Rattle.std.specs.Prelude.{◌≡◌, ◌+◌, ◌-◌, ◌≤◌, drop, length, take, slice_get, option_map, position, bytes_eq};
ghost use Rattle.std.specs.List.{list_all, list_any};
ghost use Rattle.rail_text.specs.Forms.{is_printable, is_empty_word};
ghost use Rattle.rail_text.specs.Gives.{GivesCause};
ghost use Rattle.rail_text.specs.Lines.{words_of, words_after};
ghost use Rattle.rail_text.specs.Words.{keyword, no_word, one_word};

use crate::Cause;
use crate::chunks::{CHUNK, odd_in};
use crate::word_ends::{KeptEnds, cut};
use std::marker::Model;

/// The words of a line, or some of them in a row, which are cut once. Contracts see the list of these
/// words.
#[derive(Drop)]
pub struct LineWords<'a> {
    text: &'a [u8],
    ends: &'a KeptEnds,
    from: usize,
    count: usize,
}

impl<'a> Model for LineWords<'a> {
    ghost use Rattle.std.specs.Prelude.{List, ℕ, drop, take};
    ghost use Rattle.rail_text.specs.Lines.{words_of};
    ghost use Rattle.rail_text.specs.LineWords.{AreCut};

    ghost Value = { List (List ℕ) };

    ghost view = { λ w. take w.count (drop w.from (words_of w.text.now)) };

    ghost invariant = { λ w. AreCut w.text.now w.ends.now.at w.ends.now.kept w.from w.count };
}

/// What is seen of the bytes of a line: whether each may stand in a line, and whether some word is
/// empty.
#[derive(Clone, Copy)]
pub(crate) struct Seen {
    pub printable: bool,
    pub gap: bool,
}

fn is_printable(byte: u8) -> bool
    ensures { result ≡ is_printable byte }
{
    (b' '..=b'~').contains(&byte)
}

fn is_each_printable(text: &[u8]) -> bool
    ensures { result ≡ list_all is_printable text.now }
{
    text.iter().all(|byte| is_printable(*byte))
}

// Whether each byte may stand in a line.
fn are_printable(text: &[u8]) -> bool
    ensures { result ≡ list_all is_printable text.now }
{
    if text.len() < CHUNK {
        return is_each_printable(text);
    }
    let mut at = 0;
    while text.len() - at > CHUNK {
        if odd_in(text, at) != 0 {
            return false;
        }
        at += CHUNK;
    }
    odd_in(text, text.len() - CHUNK) == 0
}

/// The words of a text, which are cut into this room, and what is seen of it.
#[inline(always)]
#[tactic(auto, using(crate::proofs::WordEnds::all_rules))]
pub(crate) fn seen_words<'a>(text: &'a [u8], ends: &'a mut KeptEnds) -> (LineWords<'a>, Seen)
    ensures words { result.0 ≡ words_of text.now }
    ensures printable { result.1.printable ≡ list_all is_printable text.now }
    ensures gap { result.1.gap ≡ list_any is_empty_word (words_of text.now) }
{
    let cut = cut(text, ends);
    let seen = Seen {
        printable: are_printable(text),
        gap: cut.gap,
    };
    let words = LineWords {
        text,
        ends,
        from: 0,
        count: cut.words,
    };
    (words, seen)
}

/// What is seen of a line.
pub(crate) fn seen_of(text: &[u8]) -> Seen
    ensures printable { result.printable ≡ list_all is_printable text.now }
    ensures gap { result.gap ≡ list_any is_empty_word (words_of text.now) }
{
    let mut ends = KeptEnds::none();
    let (_, seen) = seen_words(text, &mut ends);
    seen
}

impl<'a> LineWords<'a> {
    /// The words of this text, which are cut into this room: what stands between single spaces, so there is one at
    /// least, and one may be empty.
    pub fn new(text: &'a [u8], ends: &'a mut KeptEnds) -> LineWords<'a>
        ensures { result ≡ words_of text.now }
    {
        let (words, _) = seen_words(text, ends);
        words
    }

    /// The word with this number, from 0; `None` exactly where there is no such word.
    #[tactic(auto, using(crate::proofs::WordEnds::word_rules))]
    pub fn word(&self, i: usize) -> Option<&'a [u8]>
        ensures { option_map (λ s. s.now) result ≡ slice_get self.now i }
    {
        if i < self.count {
            Some(self.ends.span(self.text, self.from + i, self.from + i))
        } else {
            None
        }
    }

    /// The first word, or nothing where there is no word.
    pub fn keyword(&self) -> &'a [u8]
        ensures { result.now ≡ keyword self.now }
    {
        match self.word(0) {
            Some(word) => word,
            None => &[],
        }
    }

    /// How many words there are.
    #[tactic(auto, using(crate::proofs::WordEnds::count_rules))]
    pub fn word_count(&self) -> usize
        ensures { result ≡ length self.now }
    {
        self.count
    }

    /// What stands behind the word with this number and the space after it; `None` exactly where
    /// that word is the last or there is none.
    #[tactic(auto, using(crate::proofs::WordEnds::behind_rules))]
    pub fn behind(&self, i: usize) -> Option<&'a [u8]>
        ensures { words_after (option_map (λ s. s.now) result) ≡ drop (i + 1) self.now }
    {
        if i < self.count && i + 1 < self.count {
            let last = self.from + self.count - 1;
            Some(self.ends.span(self.text, self.from + i + 1, last))
        } else {
            None
        }
    }

    /// The number of the first word that is this one, from 0; `None` exactly where none is.
    pub fn number_of(&self, word: &[u8]) -> Option<usize>
        ensures { result ≡ position (bytes_eq word.now) self.now }
    {
        for i in 0..self.count {
            if let Some(found) = self.word(i) {
                if word == found {
                    return Some(i);
                }
            }
        }
        None
    }

    /// The words from one number up to another, which isn't among them.
    #[tactic(auto, using(crate::proofs::WordEnds::between_rules))]
    pub fn between(&self, from: usize, to: usize) -> LineWords<'a>
        requires order { from ≤ to }
        requires there { to ≤ length self.now }
        ensures { result ≡ take (to - from) (drop from self.now) }
    {
        LineWords {
            text: self.text,
            ends: self.ends,
            from: self.from + from,
            count: to - from,
        }
    }

    /// The one word behind the keyword.
    pub fn one_word(&self) -> Result<&'a [u8], Cause>
        ensures { GivesCause (λ s. s.now) result (one_word self.now) }
    {
        match (self.word(1), self.word(2)) {
            (Some(word), None) => Ok(word),
            _ => Err(Cause::WordCount),
        }
    }

    /// The keyword stands alone.
    pub fn no_word(&self) -> Result<(), Cause>
        ensures { result ≡ no_word self.now }
    {
        match self.word(1) {
            None => Ok(()),
            Some(_) => Err(Cause::WordCount),
        }
    }
}
