//! Where the words of a text end.

ghost use Rattle.std.specs.Prelude.{◌≡◌, ◌+◌, ◌-◌, ◌^◌, ◌<◌, ◌≤◌, [], Bool, List, ℕ, drop, false, get_or, length, min};
ghost use Rattle.std.specs.Prelude.{take};
ghost use Rattle.std.specs.List.{list_any};
ghost use Rattle.rail_text.specs.Cutting.{IsCutUpTo};
ghost use Rattle.rail_text.specs.Forms.{is_empty_word};
ghost use Rattle.rail_text.specs.LineWords.{AreEnds, word_end, word_start};
ghost use Rattle.rail_text.specs.Lines.{words_of};

use crate::chunks::{CHUNK, lowest, spaces_in, without};

/// How many ends are kept; that of a word behind these is sought when it is asked for.
const KEPT: usize = 16;

/// Room in which is kept where the first words of a text end. It is lent to the words of a text, which are cut into it.
#[derive(Clone, Copy, Debug)]
pub struct KeptEnds {
    at: [u8; KEPT],
    kept: usize,
}

// Where a word of a text ends, sought from the start.
#[tactic(auto, using(crate::proofs::WordEnds::cut_rules))]
fn sought_end(text: &[u8], word: usize) -> usize
    ensures { result ≡ word_end text.now word }
{
    let mut spaces = 0;
    for (at, b) in text.iter().enumerate() {
        if *b == b' ' {
            if spaces == word {
                return at;
            }
            spaces += 1;
        }
    }
    text.len()
}

// Where a word of a text begins, sought from the start.
#[tactic(auto, using(crate::proofs::WordEnds::span_rules))]
fn sought_start(text: &[u8], word: usize) -> usize
    requires { word < length (words_of text.now) }
    ensures { result ≡ word_start text.now word }
{
    match word {
        0 => 0,
        _ => sought_end(text, word - 1) + 1,
    }
}

impl KeptEnds {
    /// No end is kept.
    pub fn none() -> KeptEnds {
        KeptEnds {
            at: [0; KEPT],
            kept: 0,
        }
    }

    // Once the text is gone over, its last word ends where it does. Where the text is short enough, its first ends are
    // kept.
    fn keep(&mut self, spaces: usize, len: usize)
        requires { spaces + 1 < 2 ^ 64 }
        ensures ends { (text : List ℕ) (start : ℕ) (gap : Bool) → length text ≡ len
            → IsCutUpTo text self.old.at len spaces start gap → AreEnds text self.new.at self.new.kept }
        ensures all { len < 256 → self.new.kept ≡ min (spaces + 1) 16 }
    {
        if spaces < KEPT {
            self.at[spaces] = (len % 256) as u8;
        }
        self.kept = if len < 256 { (spaces + 1).min(KEPT) } else { 0 };
    }

    // Where a word of the text ends whose end is kept.
    fn end(&self, text: &[u8], word: usize) -> usize
        requires ends { AreEnds text.now self.now.at self.now.kept }
        requires kept { word < self.now.kept }
        ensures { result ≡ word_end text.now word }
    {
        usize::from(self.at[word])
    }

    // Where a word of the text begins whose end, and so those of all words before it, is kept.
    #[tactic(auto, using(crate::proofs::WordEnds::span_rules))]
    fn start(&self, text: &[u8], word: usize) -> usize
        requires ends { AreEnds text.now self.now.at self.now.kept }
        requires kept { word < self.now.kept }
        ensures { result ≡ word_start text.now word }
    {
        match word {
            0 => 0,
            _ => self.end(text, word - 1) + 1,
        }
    }

    /// What stands from the start of one word of the text to the end of another.
    #[tactic(auto, using(crate::proofs::WordEnds::span_rules))]
    pub fn span<'a>(&self, text: &'a [u8], first: usize, last: usize) -> &'a [u8]
        requires ends { AreEnds text.now self.now.at self.now.kept }
        requires order { first ≤ last }
        requires there { last < length (words_of text.now) }
        ensures { words_of result.now ≡ take (last + 1 - first) (drop first (words_of text.now)) }
    {
        if last < self.kept {
            &text[self.start(text, first)..self.end(text, last)]
        } else {
            &text[sought_start(text, first)..sought_end(text, last)]
        }
    }
}

/// What is seen of a text while its words are cut: how many there are, and whether one of them is empty.
#[derive(Clone, Copy)]
pub(crate) struct CutText {
    pub words: usize,
    pub gap: bool,
}

// What is seen of a text up to a place: how many spaces, where the word at that place begins, and whether a word before
// it is empty.
#[derive(Clone, Copy)]
struct Cutting {
    spaces: usize,
    start: usize,
    gap: bool,
}

impl Cutting {
    // Nothing is seen.
    fn none() -> Cutting
        ensures spaces { result.spaces ≡ 0 }
        ensures start { result.start ≡ 0 }
        ensures gap { result.gap ≡ false }
    {
        Cutting {
            spaces: 0,
            start: 0,
            gap: false,
        }
    }

    // Goes on to behind a space. Its place is kept, if there is room.
    fn space(&mut self, ends: &mut [u8; KEPT], at: usize)
        requires spaces { self.old.spaces + 1 < 2 ^ 64 }
        requires bound { at + 1 < 2 ^ 64 }
        ensures { (text : List ℕ) → at < length text → get_or text at 0 ≡ 32
            → IsCutUpTo text ends.old at self.old.spaces self.old.start self.old.gap
            → IsCutUpTo text ends.new (at + 1) self.new.spaces self.new.start self.new.gap }
    {
        if self.spaces < KEPT {
            ends[self.spaces] = (at % 256) as u8;
        }
        self.spaces += 1;
        self.gap |= at == self.start;
        self.start = at + 1;
    }
}

// Goes on to behind a chunk of the text, or to its end. Only the spaces are looked at.
fn cut_chunk(text: &[u8], from: usize, cutting: &mut Cutting, ends: &mut [u8; KEPT])
    requires long { 16 ≤ length text.now }
    requires within { from ≤ length text.now }
    requires cut { IsCutUpTo text.now ends.old from cutting.old.spaces cutting.old.start cutting.old.gap }
    ensures { IsCutUpTo text.now ends.new (min (from + 16) (length text.now)) cutting.new.spaces
        cutting.new.start cutting.new.gap }
{
    let mut left = spaces_in(text, from);
    while left != 0 {
        let place = lowest(left);
        cutting.space(ends, from + place);
        left = without(left, place);
    }
}

// Goes over a text of a chunk at least, from its start to its end.
fn cut_chunks(text: &[u8], cutting: &mut Cutting, ends: &mut [u8; KEPT])
    requires long { 16 ≤ length text.now }
    requires cut { IsCutUpTo text.now ends.old 0 cutting.old.spaces cutting.old.start cutting.old.gap }
    ensures { IsCutUpTo text.now ends.new (length text.now) cutting.new.spaces cutting.new.start cutting.new.gap }
{
    let mut at = 0;
    while text.len() - at > CHUNK {
        cut_chunk(text, at, cutting, ends);
        at += CHUNK;
    }
    cut_chunk(text, at, cutting, ends);
}

// Goes over a text byte by byte.
fn cut_bytes(text: &[u8], cutting: &mut Cutting, ends: &mut [u8; KEPT])
    requires { IsCutUpTo text.now ends.old 0 cutting.old.spaces cutting.old.start cutting.old.gap }
    ensures { IsCutUpTo text.now ends.new (length text.now) cutting.new.spaces cutting.new.start cutting.new.gap }
{
    for at in 0..text.len() {
        if text[at] == b' ' {
            cutting.space(ends, at);
        }
    }
}

/// Cuts a text into its words, and keeps where the first of them end.
#[tactic(auto, using(crate::proofs::WordEnds::cut_rules))]
pub(crate) fn cut(text: &[u8], ends: &mut KeptEnds) -> CutText
    ensures ends { AreEnds text.now ends.new.at ends.new.kept }
    ensures words { result.words ≡ length (words_of text.now) }
    ensures gap { result.gap ≡ list_any is_empty_word (words_of text.now) }
{
    let mut cutting = Cutting::none();
    if text.len() >= CHUNK {
        cut_chunks(text, &mut cutting, &mut ends.at);
    } else {
        cut_bytes(text, &mut cutting, &mut ends.at);
    }
    ends.keep(cutting.spaces, text.len());
    CutText {
        words: cutting.spaces + 1,
        gap: cutting.gap | (text.len() == cutting.start),
    }
}
