//! A text that is read line by line, up to its first fault.

ghost use Rattle.std.specs.Prelude.{◌≡◌, ◌<◌, ◌+◌, ◌^◌, Bool, true, IsErrOf, OnOk};
ghost use Rattle.rail_text.specs.Gives.{FaultsFirst, GivesLine, GivesText};
ghost use Rattle.rail_text.specs.Texts.{LineRunsOut, Reads, TextRunsOut, line_onto, lines_onto, text_onto};

use crate::{Cause, KeptEnds, LineFault, LineWords, Lines, ReadError, TextLine, text_error};

/// What a reader makes of a text line by line.
pub trait Draft {
    /// What the words of a line make of what was read so far, or what is wrong with them.
    ghost onto: { Reads Self };

    /// The text's line `end` has stood.
    ghost ended: { Self → Bool };

    /// What want of memory leaves of what was read so far.
    ghost left: { Self → Self → Type 0 };

    /// Reads the words of a line. Want of memory is told only of a line that has no fault.
    fn read_words(&mut self, words: &LineWords<'_>) -> Result<(), LineFault>
        ensures gives { GivesLine (λ _. self.new) result (onto self.old words.now) }
        ensures memory { FaultsFirst result (onto self.old words.now) }
        ensures left { IsErrOf result LineFault.NoMemory → left self.old self.new };

    /// Whether the text's line `end` has stood.
    fn has_ended(&self) -> bool
        ensures { result ≡ ended self.now };
}

// Reads a line: its form first, then its words. Want of memory is told only of a line that has no fault.
#[tactic(auto, unfolding(crate::specs::Texts::line_onto, crate::specs::Forms::formed_words))]
fn read_line<D: Draft>(draft: &mut D, line: &TextLine<'_>) -> Result<(), LineFault>
    ensures gives { GivesLine (λ _. draft.new) result (line_onto D.onto draft.old (record {
      text = line.now.text.now;
      ended = line.now.ended;
    })) }
    ensures memory { LineRunsOut D.onto draft.old (record {
      text = line.now.text.now;
      ended = line.now.ended;
    }) result }
    ensures left { IsErrOf result LineFault.NoMemory → D.left draft.old draft.new }
{
    let mut ends = KeptEnds::none();
    match line.formed(true, &mut ends) {
        Ok(Some(words)) => draft.read_words(&words),
        Ok(None) => Ok(()),
        Err(cause) => Err(LineFault::Cause(cause)),
    }
}

/// Reads a text of at most `most` bytes onto a draft. The first fault is refused with its line and
/// cause: a text that is longer is `TooLong` at line 0, and one that has no line `end` is `NoEnd`
/// behind its last line. Want of memory is told only of a text within `most` bytes that has no fault
/// up to the line where memory ran out.
#[tactic(auto, unfolding(crate::specs::Texts::text_onto, crate::specs::Texts::lines_onto))]
pub fn read_text<D: Draft>(draft: &mut D, most: usize, bytes: &[u8]) -> Result<(), ReadError>
    requires { most + 1 < 2 ^ 32 }
    ensures reads { GivesText (λ _. draft.new) result (text_onto D.onto D.ended most draft.old bytes.now) }
    ensures ended { OnOk result (D.ended draft.new ≡ true) }
    ensures memory { TextRunsOut D.onto (λ before. D.left before draft.new) most draft.old bytes.now result }
{
    if bytes.len() > most {
        return Err(text_error(0, Cause::TooLong));
    }
    let mut lines = Lines::new(bytes);
    let mut number: u32 = 1;
    while let Some(line) = lines.next() {
        match read_line(draft, &line) {
            Ok(()) => {}
            Err(LineFault::Cause(cause)) => return Err(text_error(number, cause)),
            Err(LineFault::NoMemory) => return Err(ReadError::NoMemory),
        }
        number += 1;
    }
    if !draft.has_ended() {
        return Err(text_error(number, Cause::NoEnd));
    }
    Ok(())
}
