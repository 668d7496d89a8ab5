//! What a line is before its words are read: the tests that come first in every reader.

ghost use Rattle.std.specs.Prelude.{◌≡◌, ℕ, ◌≤◌, Bool, true, false, List, ◌∷◌, length, Ok};
ghost use Rattle.std.specs.List.{list_all, list_any, join_with_byte};
ghost use Rattle.rail_text.specs.Gives.{GivesCause};
ghost use Rattle.rail_text.specs.Lines.{words_of, ended_line};
ghost use Rattle.rail_text.specs.Forms.{is_printable, is_skipped, is_empty_word, is_word, form_of, formed_words};

use crate::line_words::{Seen, seen_of, seen_words};
use crate::word_ends::KeptEnds;
use crate::{Cause, LineWords, TextLine};

/// The most bytes of a line, its end not counted.
const LONGEST_LINE: usize = 200;

/// A line that a reader passes over, or one whose words it reads.
#[derive(Clone, Copy, Debug, PartialEq, Eq)]
pub enum LineForm {
    /// An empty line or one that begins with `#`, in a text that has skipped lines.
    Skipped,
    /// A line of words, none of them empty.
    Words,
}

fn is_skipped(text: &[u8]) -> bool
    ensures { result ≡ is_skipped text.now }
{
    match text {
        [] => true,
        [first, ..] => *first == b'#',
    }
}

// What the line is, by what is seen of its text.
#[tactic(auto, unfolding(crate::specs::Forms::form_of))]
fn form_seen(line: &TextLine<'_>, skips: bool, seen: Seen) -> Result<LineForm, Cause>
    requires printable { seen.printable ≡ list_all is_printable line.now.text.now }
    requires gap { seen.gap ≡ list_any is_empty_word (words_of line.now.text.now) }
    ensures { result ≡ form_of skips (record {
      text = line.now.text.now;
      ended = line.now.ended;
    }) }
{
    if !line.ended {
        return Err(Cause::Cut);
    }
    if !seen.printable {
        return Err(Cause::BadByte);
    }
    if line.text.len() > LONGEST_LINE {
        return Err(Cause::LongLine);
    }
    if skips && is_skipped(line.text) {
        return Ok(LineForm::Skipped);
    }
    if seen.gap {
        return Err(Cause::Spacing);
    }
    Ok(LineForm::Words)
}

impl<'a> TextLine<'a> {
    /// What the line is before its words are read. The first of these that is so decides: it has no
    /// end (`Cut`), a byte off 32 to 126 (`BadByte`), more than 200 bytes (`LongLine`); where the
    /// text has skipped lines, it is empty or begins with `#` (`Skipped`); some word of it is empty
    /// (`Spacing`).
    pub fn form(&self, skips: bool) -> Result<LineForm, Cause>
        ensures { result ≡ form_of skips (record {
          text = self.now.text.now;
          ended = self.now.ended;
        }) }
    {
        form_seen(self, skips, seen_of(self.text))
    }

    /// The words of the line, once its form is tested as `form` tells; `None` exactly where it is
    /// skipped.
    #[inline(always)]
    #[tactic(auto, unfolding(crate::specs::Forms::formed_words))]
    pub fn formed<'b>(
        &self,
        skips: bool,
        ends: &'b mut KeptEnds,
    ) -> Result<Option<LineWords<'b>>, Cause>
    where
        'a: 'b,
        ensures { GivesCause (λ words. words) result (formed_words skips (record {
          text = self.now.text.now;
          ended = self.now.ended;
        })) }
    {
        let (words, seen) = seen_words(self.text, ends);
        match form_seen(self, skips, seen) {
            Ok(LineForm::Words) => Ok(Some(words)),
            Ok(LineForm::Skipped) => Ok(None),
            Err(cause) => Err(cause),
        }
    }
}

/// A law: words that are printed with single spaces between them, in at most 200 bytes of which the
/// first is no `#`, are a line of these words.
#[tactic(auto, using(crate::proofs::PrintedWords::form_laws))]
pub fn printed_words_are_read()
    ensures form { (skips : Bool) → (word : List ℕ) → (words : List (List ℕ)) →
        list_all is_word (word ∷ words) ≡ true → is_skipped word ≡ false →
        length (join_with_byte 32 (word ∷ words)) ≤ 200 →
        form_of skips (ended_line (join_with_byte 32 (word ∷ words))) ≡ Ok LineForm.Words }
    ensures words { (word : List ℕ) → (words : List (List ℕ)) →
        list_all is_word (word ∷ words) ≡ true →
        words_of (join_with_byte 32 (word ∷ words)) ≡ word ∷ words }
{}
