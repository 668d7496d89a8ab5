//! The registers of a line as they are printed.

ghost use Rattle.std.specs.Prelude.{◌≡◌, ◌-◌, ◌^◌, [], ◌∷◌, ◌++◌, IfOk, OnOk, length, map, min};
ghost use Rattle.std.specs.List.{flat_map, sum_by};
ghost use Rattle.line_runs.specs.Copying.{behind_line};
ghost use Rattle.line_runs.specs.Outputs.{AreInOrder};

use crate::copying::ToldLines;
use rail_text::NoMemory;
use std::alloc::{AllocError, Global};
use std::marker::Model;

// The lines of each of these registers, behind its first.
fn told_lines_of<'a>(alloc: Global, texts: &'a [Vec<u8>]) -> Result<Vec<ToldLines<'a>>, AllocError>
    ensures { IfOk result (λ lines. lines.items ≡ map (λ text. behind_line text.items) texts.now) }
{
    let mut lines = Vec::new(alloc);
    for text in texts {
        lines.push(ToldLines::of_register(text))?;
    }
    Ok(lines)
}

// How much room these texts take, as far as a number can tell it.
fn room_of(texts: &[Vec<u8>]) -> usize
    ensures { result ≡ min (sum_by (λ text. length text.items) texts.now) (2 ^ 64 - 1) }
{
    let mut room = 0usize;
    for text in texts {
        room = room.saturating_add(text.len());
    }
    room
}

// Puts these texts one after another behind a text.
#[tactic(auto, using(rail_text::proofs::Texts::texts))]
fn put_texts(out: &mut Vec<u8>, texts: &[Vec<u8>]) -> Result<(), AllocError>
    ensures { OnOk result (out.new.items ≡ out.old.items ++ flat_map (λ text. text.items) texts.now) }
{
    for text in texts {
        out.extend_from_slice(text)?;
    }
    Ok(())
}

/// Registers as they are printed, each a text of its own. Contracts see the list of these texts.
#[derive(Drop)]
pub(crate) struct PrintedRegisters {
    texts: Vec<Vec<u8>>,
}

impl Model for PrintedRegisters {
    ghost use Rattle.std.specs.Prelude.{ℕ, List, map};

    ghost Value = { List (List ℕ) };

    ghost view = { λ registers. map (λ text. text.items) registers.texts.items };
}

impl PrintedRegisters {
    /// No register.
    pub(crate) fn none(alloc: Global) -> PrintedRegisters
        ensures { result ≡ [] }
    {
        PrintedRegisters {
            texts: Vec::new(alloc),
        }
    }

    /// Adds a register behind the others.
    pub(crate) fn push(&mut self, text: Vec<u8>) -> Result<(), AllocError>
        ensures { OnOk result (self.new ≡ self.old ++ text.items ∷ []) }
    {
        self.texts.push(text)?;
        Ok(())
    }

    // Adds other registers behind these. Their bytes aren't copied.
    fn append(&mut self, mut behind: PrintedRegisters) -> Result<(), AllocError>
        ensures { OnOk result (self.new ≡ self.old ++ behind) }
    {
        self.texts.append(&mut behind.texts)
    }

    /// Registers that were printed in two parts, one behind the other.
    pub(crate) fn in_order(
        front: Result<PrintedRegisters, NoMemory>,
        behind: Result<PrintedRegisters, NoMemory>,
    ) -> Result<PrintedRegisters, NoMemory>
        ensures { IfOk result (λ registers. AreInOrder front behind registers) }
    {
        let mut registers = front?;
        registers.append(behind?)?;
        Ok(registers)
    }

    /// How much room their texts take, as far as a number can tell it.
    #[tactic(auto, using(crate::proofs::Printed::sum_twice))]
    pub(crate) fn room(&self) -> usize
        ensures { result ≡ min (sum_by (λ text. length text) self.now) (2 ^ 64 - 1) }
    {
        room_of(&self.texts)
    }

    /// The lines of each register, behind its first.
    #[tactic(auto, using(crate::proofs::Printed::map_twice))]
    pub(crate) fn told_lines(&self, alloc: Global) -> Result<Vec<ToldLines<'_>>, AllocError>
        ensures { IfOk result (λ lines. lines.items ≡ map behind_line self.now) }
    {
        told_lines_of(alloc, &self.texts)
    }

    /// Puts them one after another behind a text.
    #[tactic(auto, using(crate::proofs::Printed::flat_texts))]
    pub(crate) fn put(&self, out: &mut Vec<u8>) -> Result<(), AllocError>
        ensures { OnOk result (out.new.items ≡ out.old.items ++ flat_map (λ text. text) self.now) }
    {
        put_texts(out, &self.texts)
    }
}
