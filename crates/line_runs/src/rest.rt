//! What stands in the output of a run behind the lines of its journal's front, until it is one text with them.

ghost use Rattle.std.specs.Prelude.{◌≡◌, ◌++◌, IfOk, OnOk};
ghost use Rattle.line_runs.specs.Copying.{one_behind};

use crate::copying::CopiedLines;
use crate::registers::PrintedRegisters;
use rail_text::NoMemory;
use std::alloc::AllocError;
use std::marker::Model;

// The journal's last line.
const END: &[u8] = b"end\n";

/// What is printed of a run behind the lines of its journal's front. Contracts see its text.
#[derive(Drop)]
pub(crate) struct OutputRest {
    /// The lines of the entries behind these.
    pub(crate) middle: CopiedLines,
    /// The lines of the last entries.
    pub(crate) last: CopiedLines,
    /// The registers.
    pub(crate) registers: PrintedRegisters,
    /// What stands before the lines of the refused calls.
    pub(crate) heading: Vec<u8>,
    /// The refused calls of the front.
    pub(crate) refused_front: Vec<u8>,
    /// The most trains of the sections.
    pub(crate) sections: Vec<u8>,
}

impl Model for OutputRest {
    ghost use Rattle.std.specs.Prelude.{ℕ, List};
    ghost use Rattle.line_runs.specs.Copying.{one_behind};
    ghost use Rattle.line_runs.specs.Outputs.{rest_text};

    ghost Value = { List ℕ };

    ghost view = { λ rest. rest_text (one_behind rest.middle rest.last).journal rest.registers rest.heading.items
        rest.refused_front.items (one_behind rest.middle rest.last).refused rest.sections.items };
}

// Puts the lines of some entries and of those behind them behind a text.
fn put_journal(
    out: &mut Vec<u8>,
    middle: &CopiedLines,
    last: &CopiedLines,
) -> Result<(), AllocError>
    ensures { OnOk result (out.new.items ≡ out.old.items ++ (one_behind middle.now last.now).journal) }
{
    out.extend_from_slice(&middle.journal)?;
    out.extend_from_slice(&last.journal)
}

// The same of those lines whose calls were refused.
fn put_refused(
    out: &mut Vec<u8>,
    middle: &CopiedLines,
    last: &CopiedLines,
) -> Result<(), AllocError>
    ensures { OnOk result (out.new.items ≡ out.old.items ++ (one_behind middle.now last.now).refused) }
{
    out.extend_from_slice(&middle.refused)?;
    out.extend_from_slice(&last.refused)
}

impl OutputRest {
    // How much room it takes, as far as a number can tell it.
    fn room(&self) -> usize {
        let parts = [
            &self.middle.journal,
            &self.last.journal,
            &self.heading,
            &self.refused_front,
            &self.middle.refused,
            &self.last.refused,
            &self.sections,
        ];
        let mut room = self.registers.room().saturating_add(END.len());
        for part in parts {
            room = room.saturating_add(part.len());
        }
        room
    }

    // Puts it and another text behind a text, which gets room for both at once.
    fn put(&self, out: &mut Vec<u8>, behind: &[u8]) -> Result<(), AllocError>
        ensures { OnOk result (out.new.items ≡ out.old.items ++ self.now ++ behind.now) }
    {
        out.reserve_exact(self.room().saturating_add(behind.len()))?;
        put_journal(out, &self.middle, &self.last)?;
        out.extend_from_slice(END)?;
        self.registers.put(out)?;
        out.extend_from_slice(&self.heading)?;
        out.extend_from_slice(&self.refused_front)?;
        put_refused(out, &self.middle, &self.last)?;
        out.extend_from_slice(&self.sections)?;
        out.extend_from_slice(behind)
    }
}

// The same text, in room that was made for it and what comes behind it.
fn text_in_room(room: Vec<u8>, text: Vec<u8>) -> Result<Vec<u8>, AllocError>
    ensures { IfOk result (λ moved. moved.items ≡ text.items) }
{
    let mut moved = room;
    moved.clear();
    let put = moved.extend_from_slice(&text);
    drop(text);
    match put {
        Ok(()) => Ok(moved),
        Err(error) => {
            drop(moved);
            Err(error)
        }
    }
}

/// The same output, its front in room for the whole.
pub(crate) fn in_room(
    room: Vec<u8>,
    printed: (Vec<u8>, OutputRest),
) -> Result<(Vec<u8>, OutputRest), NoMemory>
    ensures front { IfOk result (λ r. r.0.items ≡ printed.0.items) }
    ensures rest { IfOk result (λ r. r.1 ≡ printed.1) }
{
    let (front, rest) = printed;
    match text_in_room(room, front) {
        Ok(front) => Ok((front, rest)),
        Err(AllocError) => {
            drop(rest);
            Err(NoMemory)
        }
    }
}

/// The front of an output, the rest of it, and a text behind them, as one text. The front has room for the whole as a
/// rule; where it hasn't, room is asked for.
pub(crate) fn whole_text(
    front: Vec<u8>,
    rest: OutputRest,
    behind: &[u8],
) -> Result<Vec<u8>, AllocError>
    ensures { IfOk result (λ text. text.items ≡ front.items ++ rest ++ behind.now) }
{
    let mut text = front;
    let put = rest.put(&mut text, behind);
    drop(rest);
    match put {
        Ok(()) => Ok(text),
        Err(error) => {
            drop(text);
            Err(error)
        }
    }
}
