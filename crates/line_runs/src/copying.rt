//! The journal as it is printed. What is told of an entry is copied from the register of its box, which is printed
//! already, so it is formatted once.

ghost use Rattle.std.specs.Prelude.{◌≡◌, ◌+◌, ◌<◌, ◌≤◌, ◌^◌, ◌++◌, [], ◌∷◌, All, IfOk, OnOk};
ghost use Rattle.std.specs.Prelude.{codes, decimal, drop, length, map};
ghost use Rattle.line_plan.specs.Plans.{box_name};
ghost use Rattle.line_report.specs.Journals.{entries_text, entry_text};
ghost use Rattle.line_report.specs.Refusals.{refused_entries, refused_entry};
ghost use Rattle.line_runs.specs.Copying.{AreCopied, AreLinesLeft, behind_line, behind_word, first_line, told_in};
ghost use Rattle.script_text.specs.Entries.{IsSpelled, told_text};

use crate::registers::PrintedRegisters;
use itoa::Buffer;
use line_journal::Walk;
use line_law::{Entry, is_refused};
use line_plan::Plan;
use memchr::memchr;
use rail_text::NoMemory;
use std::alloc::{AllocError, Global};
use std::marker::Model;

// The first line of a text, and what stands behind it: nothing where it has no end.
#[tactic(auto, using(rail_text::proofs::FirstByte::first_rules))]
fn cut_line(text: &[u8]) -> (&[u8], &[u8])
    ensures line { result.0.now ≡ first_line text.now }
    ensures behind { result.1.now ≡ behind_line text.now }
{
    match memchr(b'\n', text) {
        Some(at) => (&text[..at], &text[at + 1..]),
        None => (text, &[]),
    }
}

// What stands behind the first space of a line: nothing where it has none. What stands before it is short, so it is
// sought byte by byte.
fn behind_word(line: &[u8]) -> &[u8]
    ensures { result.now ≡ behind_word line.now }
{
    for (at, byte) in line.iter().enumerate() {
        if *byte == b' ' {
            return &line[at + 1..];
        }
    }
    &[]
}

/// The lines of a printed register that aren't copied yet. Contracts see their text.
#[derive(Drop)]
pub(crate) struct ToldLines<'a> {
    rest: &'a [u8],
}

impl<'a> Model for ToldLines<'a> {
    ghost use Rattle.std.specs.Prelude.{ℕ, List};

    ghost Value = { List ℕ };

    ghost view = { λ lines. lines.rest.now };
}

impl<'a> ToldLines<'a> {
    /// The lines of a printed register, behind its first.
    pub(crate) fn of_register(text: &'a [u8]) -> ToldLines<'a>
        ensures { result ≡ behind_line text.now }
    {
        let (_, rest) = cut_line(text);
        ToldLines { rest }
    }

    // Passes over the next line.
    fn pass(&mut self)
        ensures { self.new ≡ behind_line self.old }
    {
        let (_, rest) = cut_line(self.rest);
        self.rest = rest;
    }

    // What is told on the next line, behind its number.
    fn next_told(&mut self) -> &'a [u8]
        ensures told { result.now ≡ told_in self.old }
        ensures rest { self.new ≡ behind_line self.old }
    {
        let (line, rest) = cut_line(self.rest);
        self.rest = rest;
        behind_word(line)
    }
}

/// Puts a number behind a text, in decimal.
pub(crate) fn put_number(out: &mut Vec<u8>, number: usize) -> Result<(), AllocError>
    ensures { OnOk result (out.new.items ≡ out.old.items ++ decimal number) }
{
    let mut buffer = Buffer::new();
    out.extend_from_slice(buffer.format(number as u64).as_bytes())
}

// Puts an entry's line behind a text: its number, its box, and what is told of it.
fn put_line(
    out: &mut Vec<u8>,
    plan: &Plan,
    number: usize,
    box_no: u32,
    told: &[u8],
) -> Result<(), AllocError>
    requires { box_no < length plan.now.boxes }
    ensures { OnOk result (out.new.items ≡ out.old.items
        ++ (decimal number ++ 32 ∷ box_name plan.now box_no ++ 32 ∷ told.now ++ 10 ∷ [])) }
{
    put_number(out, number)?;
    out.push(b' ')?;
    out.extend_from_slice(plan.box_name(box_no).as_bytes())?;
    out.push(b' ')?;
    out.extend_from_slice(told)?;
    out.push(b'\n')?;
    Ok(())
}

// Puts an entry's line behind the journal, and behind the refused lines too, if its reply is refused.
#[tactic(auto, unfolding(line_report::specs::Journals::entry_text))]
fn put_entry(
    journal: &mut Vec<u8>,
    refused: &mut Vec<u8>,
    plan: &Plan,
    number: usize,
    entry: &Entry,
    told: &[u8],
) -> Result<(), AllocError>
    requires box_no { entry.now.box_no < length plan.now.boxes }
    requires told { told.now ≡ told_text plan.now entry.now }
    ensures journal { OnOk result
        (journal.new.items ≡ journal.old.items ++ entry_text plan.now number entry.now) }
    ensures refused { OnOk result
        (refused.new.items ≡ refused.old.items ++ refused_entry plan.now number entry.now) }
{
    put_line(journal, plan, number, entry.box_no, told)?;
    if is_refused(&entry.reply) {
        put_line(refused, plan, number, entry.box_no, told)?;
    }
    Ok(())
}

// Passes over the next entries, so many of them, and their lines.
fn pass_over(plan: &Plan, walk: &mut Walk<'_>, many: usize, lines: &mut [ToldLines<'_>])
    requires many { many ≤ length walk.old }
    requires spelled { All (IsSpelled plan.now) walk.old }
    requires left { AreLinesLeft plan.now walk.old lines.old }
    ensures walk { walk.new ≡ drop many walk.old }
    ensures left { AreLinesLeft plan.now walk.new lines.new }
{
    plan.meets_conditions();
    for _ in 0..many {
        if let Some(entry) = walk.next() {
            lines[entry.box_no as usize].pass();
        }
    }
}

// Puts the lines of the entries that are ahead behind the journal, the first with this number, and the refused ones
// behind these. What is told of each is the next that the register of its box has.
fn copy_entries(
    journal: &mut Vec<u8>,
    refused: &mut Vec<u8>,
    plan: &Plan,
    number: usize,
    walk: &mut Walk<'_>,
    lines: &mut [ToldLines<'_>],
) -> Result<(), AllocError>
    requires numbers { number + length walk.old < 2 ^ 64 }
    requires spelled { All (IsSpelled plan.now) walk.old }
    requires left { AreLinesLeft plan.now walk.old lines.old }
    ensures journal { OnOk result
        (journal.new.items ≡ journal.old.items ++ entries_text plan.now number walk.old) }
    ensures refused { OnOk result
        (refused.new.items ≡ refused.old.items ++ refused_entries plan.now number walk.old) }
{
    plan.meets_conditions();
    let mut next = number;
    while let Some(entry) = walk.next() {
        let told = lines[entry.box_no as usize].next_told();
        put_entry(journal, refused, plan, next, entry, told)?;
        next += 1;
    }
    Ok(())
}

/// What is copied of some entries: their lines in the journal, and those of them whose replies are refused. Contracts
/// see both texts.
#[derive(Drop)]
pub(crate) struct CopiedLines {
    pub(crate) journal: Vec<u8>,
    pub(crate) refused: Vec<u8>,
}

impl Model for CopiedLines {
    ghost use Rattle.line_runs.specs.Copying.{CopiedFields};

    ghost Value = { CopiedFields };

    ghost view = { λ copied. record { journal = copied.journal.items; refused = copied.refused.items } };
}

// Copies the lines of the entries that are ahead, but for the first so many, behind two texts as `copy_entries` does.
fn copy_behind_first(
    journal: &mut Vec<u8>,
    refused: &mut Vec<u8>,
    alloc: Global,
    plan: &Plan,
    walk: &mut Walk<'_>,
    from: usize,
    registers: &PrintedRegisters,
) -> Result<(), AllocError>
    requires from { from ≤ length walk.old }
    requires numbers { length walk.old + 1 < 2 ^ 64 }
    requires spelled { All (IsSpelled plan.now) walk.old }
    requires left { AreLinesLeft plan.now walk.old (map behind_line registers.now) }
    ensures journal { OnOk result
        (journal.new.items ≡ journal.old.items ++ entries_text plan.now (from + 1) (drop from walk.old)) }
    ensures refused { OnOk result
        (refused.new.items ≡ refused.old.items ++ refused_entries plan.now (from + 1) (drop from walk.old)) }
{
    let mut lines = registers.told_lines(alloc)?;
    pass_over(plan, walk, from, &mut lines);
    let copied = copy_entries(journal, refused, plan, from + 1, walk, &mut lines);
    drop(lines);
    copied
}

/// Copies the journal's lines of the entries that are ahead, but for the first so many, from the printed registers, and
/// puts them behind a text. There is room for so many bytes of the lines at once, and of those of the refused calls:
/// what isn't filled takes no memory.
pub(crate) fn copy_from(
    alloc: Global,
    plan: &Plan,
    walk: &mut Walk<'_>,
    from: usize,
    registers: &PrintedRegisters,
    before: Vec<u8>,
    room: usize,
) -> Result<CopiedLines, NoMemory>
    requires from { from ≤ length walk.old }
    requires numbers { length walk.old + 1 < 2 ^ 64 }
    requires spelled { All (IsSpelled plan.now) walk.old }
    requires left { AreLinesLeft plan.now walk.old (map behind_line registers.now) }
    ensures { IfOk result (AreCopied plan.now before.items (from + 1) (drop from walk.old)) }
{
    let mut journal = before;
    journal.reserve_exact(room)?;
    let mut refused = Vec::with_capacity(alloc, room)?;
    copy_behind_first(
        &mut journal,
        &mut refused,
        alloc,
        plan,
        walk,
        from,
        registers,
    )?;
    Ok(CopiedLines { journal, refused })
}
