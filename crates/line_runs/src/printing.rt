//! The output of a line that was worked: its registers are printed on threads, and the journal is copied from them.

ghost use Rattle.std.specs.Prelude.{◌≡◌, ◌+◌, ◌<◌, ◌≤◌, ◌^◌, ◌++◌, [], All, IfOk, OnOk, drop, length, map, take};
ghost use Rattle.line_law.specs.History.{IsLegal};
ghost use Rattle.line_report.specs.Asked.{AreFewEntries};
ghost use Rattle.line_report.specs.Journals.{heading_text};
ghost use Rattle.line_runs.specs.Copying.{AreCopied, AreHalves, one_behind};
ghost use Rattle.line_runs.specs.Counting.{AreCountsTold};
ghost use Rattle.line_runs.specs.Outputs.{output_text, rest_text};
ghost use Rattle.line_runs.specs.Worked.{AreWorked, CanBePrinted, HasTexts, IsJournalOf, IsWorkedLine};
ghost use Rattle.script_text.specs.Entries.{IsSpelled};
ghost use Rattle.text_fetch.specs.Runs.{AreScriptsOf};
ghost use Rattle.train_register.specs.Registers.{IsPrintable, register_text};

use crate::both::both_made;
use crate::copying::{CopiedLines, copy_from};
use crate::counting::print_counts;
use crate::registers::PrintedRegisters;
use crate::rest::{OutputRest, in_room};
use crate::sizes::{journal_room, make_room};
use crate::worked::{WorkedLine, merged_entries};
use line_journal::Merged;
use line_plan::Plan;
use line_report::put_heading;
use rail_text::NoMemory;
use script_text::Script;
use std::alloc::{AllocError, Global};
use std::thread::{Threads, join};
use train_register::{Ended, Register, print_register};

// How many times over the registers are cut in halves, each printed on a thread.
const CUTS: u32 = 2;

// Prints these registers, one after another, behind others.
fn push_each(
    printed: &mut PrintedRegisters,
    alloc: Global,
    plan: &Plan,
    registers: &[Register],
) -> Result<(), NoMemory>
    requires { All (IsPrintable plan.now) registers.now }
    ensures { OnOk result (printed.new ≡ printed.old
        ++ map (λ register. register_text plan.now register.box_no register.entries) registers.now) }
{
    for register in registers {
        printed.push(print_register(alloc, plan, register)?)?;
    }
    Ok(())
}

// These registers.
fn print_each(
    alloc: Global,
    plan: &Plan,
    registers: &[Register],
) -> Result<PrintedRegisters, NoMemory>
    requires { All (IsPrintable plan.now) registers.now }
    ensures { IfOk result (λ printed. printed
        ≡ map (λ register. register_text plan.now register.box_no register.entries) registers.now) }
{
    let mut printed = PrintedRegisters::none(alloc);
    match push_each(&mut printed, alloc, plan, registers) {
        Ok(()) => Ok(printed),
        Err(NoMemory) => {
            drop(printed);
            Err(NoMemory)
        }
    }
}

// The same registers, in halves that are printed on threads, so many times over.
#[cycle(registers)]
fn print_halves<R: Threads + Sync>(
    rt: &R,
    alloc: Global,
    plan: &Plan,
    registers: &[Register],
    cuts: u32,
) -> Result<PrintedRegisters, NoMemory>
    requires { All (IsPrintable plan.now) registers.now }
    ensures { IfOk result (λ printed. printed
        ≡ map (λ register. register_text plan.now register.box_no register.entries) registers.now) }
{
    if cuts == 0 || registers.len() < 2 {
        return print_each(alloc, plan, registers);
    }
    let (front, behind) = registers.split_at(registers.len() / 2);
    let cuts = cuts - 1;
    let front = || -> Result<PrintedRegisters, NoMemory>
        requires { All (IsPrintable plan.now) front.now }
        ensures { IfOk result (λ printed. printed
            ≡ map (λ register. register_text plan.entry.now register.box_no register.entries) front.entry.now) }
    { print_halves(rt, alloc, plan, front, cuts) };
    let behind = || -> Result<PrintedRegisters, NoMemory>
        requires { All (IsPrintable plan.now) behind.now }
        ensures { IfOk result (λ printed. printed
            ≡ map (λ register. register_text plan.entry.now register.box_no register.entries) behind.entry.now) }
    { print_halves(rt, alloc, plan, behind, cuts) };
    let (front, behind) = join(rt, front, behind);
    PrintedRegisters::in_order(front, behind)
}

/// The registers of a line, printed on threads.
pub(crate) fn print_registers<R: Threads + Sync>(
    rt: &R,
    alloc: Global,
    plan: &Plan,
    registers: &[Register],
) -> Result<PrintedRegisters, NoMemory>
    requires { All (IsPrintable plan.now) registers.now }
    ensures { IfOk result (λ printed. printed
        ≡ map (λ register. register_text plan.now register.box_no register.entries) registers.now) }
{
    print_halves(rt, alloc, plan, registers, CUTS)
}

/// Merges the registers of a line whose scripts were worked into its journal, and prints them meanwhile on threads.
pub(crate) fn merged_and_printed<'a, R: Threads + Sync>(
    rt: &R,
    alloc: Global,
    plan: &Plan,
    scripts: &[Script],
    ended: &'a Ended,
) -> Result<(Merged<'a>, PrintedRegisters), NoMemory>
    requires scripts { AreScriptsOf plan.now scripts.now }
    requires worked { AreWorked plan.now scripts.now ended.now.registers }
    ensures journal { IfOk result
        (λ r. IsJournalOf (record { plan = plan.now; scripts = scripts.now }) r.0) }
    ensures printed { IfOk result (λ r. HasTexts plan.now r.0 r.1) }
{
    plan.meets_conditions();
    let merged = || -> Result<Merged<'_>, NoMemory>
        requires { AreScriptsOf plan.now scripts.now × AreWorked plan.now scripts.now ended.now.registers }
        ensures { IfOk result (λ merged. IsWorkedLine
            (record { plan = plan.entry.now; scripts = scripts.entry.now })
            merged ended.entry.now.registers) }
    { merged_entries(alloc, plan, scripts, ended) };
    let registers = || -> Result<PrintedRegisters, NoMemory>
        requires { All (IsPrintable plan.now) ended.now.registers }
        ensures { IfOk result (λ printed. printed ≡ map
            (λ register. register_text plan.entry.now register.box_no register.entries)
            ended.entry.now.registers) }
    { print_registers(rt, alloc, plan, ended.registers.as_slice()) };
    let (merged, registers) = join(rt, merged, registers);
    both_made(merged, registers)
}

// The journal's first line.
fn print_heading(alloc: Global, plan: &Plan) -> Result<Vec<u8>, AllocError>
    ensures { IfOk result (λ text. text.items ≡ heading_text plan.now) }
{
    let mut text = String::new(alloc);
    put_heading(&mut text, plan)?;
    Ok(text.into_bytes())
}

// The journal's lines of the entries from one place on up to another, copied from the registers that are printed,
// behind a text. There is room for so many bytes.
fn copy_part(
    alloc: Global,
    plan: &Plan,
    merged: &Merged<'_>,
    from: usize,
    to: usize,
    registers: &PrintedRegisters,
    before: Vec<u8>,
    room: usize,
) -> Result<CopiedLines, NoMemory>
    requires texts { HasTexts plan.now merged.now registers.now }
    requires from { from ≤ to }
    requires to { to ≤ length merged.now }
    ensures { IfOk result (AreCopied plan.now before.items (from + 1) (drop from (take to merged.now))) }
{
    plan.meets_conditions();
    let mut walk = merged.walk_front(alloc, to)?;
    let copied = copy_from(alloc, plan, &mut walk, from, registers, before, room);
    drop(walk);
    copied
}

// The journal's first line and the lines of its front entries.
fn copy_front(
    alloc: Global,
    plan: &Plan,
    merged: &Merged<'_>,
    many: usize,
    registers: &PrintedRegisters,
    room: usize,
) -> Result<CopiedLines, NoMemory>
    requires texts { HasTexts plan.now merged.now registers.now }
    requires many { many ≤ length merged.now }
    ensures { IfOk result (AreCopied plan.now (heading_text plan.now) 1 (take many merged.now)) }
{
    let heading = print_heading(alloc, plan)?;
    copy_part(alloc, plan, merged, 0, many, registers, heading, room)
}

// The lines of the entries from one place on.
fn copy_last(
    alloc: Global,
    plan: &Plan,
    merged: &Merged<'_>,
    from: usize,
    registers: &PrintedRegisters,
    room: usize,
) -> Result<CopiedLines, NoMemory>
    requires texts { HasTexts plan.now merged.now registers.now }
    requires from { from ≤ length merged.now }
    ensures { IfOk result (AreCopied plan.now [] (from + 1) (drop from merged.now)) }
{
    let to = merged.len();
    copy_part(
        alloc,
        plan,
        merged,
        from,
        to,
        registers,
        Vec::new(alloc),
        room,
    )
}

// The lines of the entries from one place on, those up to another place and the rest, each on a thread.
fn copy_behind<R: Threads + Sync>(
    rt: &R,
    alloc: Global,
    plan: &Plan,
    merged: &Merged<'_>,
    from: usize,
    to: usize,
    registers: &PrintedRegisters,
    room: usize,
) -> Result<(CopiedLines, CopiedLines), NoMemory>
    requires texts { HasTexts plan.now merged.now registers.now }
    requires from { from ≤ to }
    requires to { to ≤ length merged.now }
    ensures { IfOk result (λ r. AreCopied plan.now [] (from + 1) (drop from merged.now) (one_behind r.0 r.1)) }
{
    let middle = || -> Result<CopiedLines, NoMemory>
        requires { HasTexts plan.now merged.now registers.now × (from ≤ to) × (to ≤ length merged.now) }
        ensures { IfOk result (AreCopied plan.entry.now [] (from + 1) (drop from (take to merged.entry.now))) }
    {
        copy_part(
            alloc,
            plan,
            merged,
            from,
            to,
            registers,
            Vec::new(alloc),
            room,
        )
    };
    let last = || -> Result<CopiedLines, NoMemory>
        requires { HasTexts plan.now merged.now registers.now × (to ≤ length merged.now) }
        ensures { IfOk result (AreCopied plan.entry.now [] (to + 1) (drop to merged.entry.now)) }
    { copy_last(alloc, plan, merged, to, registers, room) };
    let (middle, last) = join(rt, middle, last);
    both_made(middle, last)
}

// The journal's first line and the lines of its front half, and what stands before and behind the lines of the refused
// calls. While the lines are copied from the registers, the refused calls and the most trains of the sections are
// counted and printed on a thread.
fn front_and_counts<R: Threads + Sync>(
    rt: &R,
    alloc: Global,
    plan: &Plan,
    merged: &Merged<'_>,
    many: usize,
    registers: &PrintedRegisters,
    room: usize,
) -> Result<(CopiedLines, (Vec<u8>, Vec<u8>)), NoMemory>
    requires texts { HasTexts plan.now merged.now registers.now }
    requires many { many ≤ length merged.now }
    ensures front { IfOk result
        (λ r. AreCopied plan.now (heading_text plan.now) 1 (take many merged.now) r.0) }
    ensures counts { IfOk result (λ r. AreCountsTold plan.now merged.now r.1.0.items r.1.1.items) }
{
    let front = || -> Result<CopiedLines, NoMemory>
        requires { HasTexts plan.now merged.now registers.now × (many ≤ length merged.now) }
        ensures { IfOk result
            (AreCopied plan.entry.now (heading_text plan.entry.now) 1 (take many merged.entry.now)) }
    { copy_front(alloc, plan, merged, many, registers, room) };
    let counts = || -> Result<(Vec<u8>, Vec<u8>), NoMemory>
        requires { IsLegal plan.now merged.now × AreFewEntries merged.now }
        ensures { IfOk result (λ r. AreCountsTold plan.entry.now merged.entry.now r.0.items r.1.items) }
    { print_counts(alloc, plan, merged) };
    let (front, counts) = join(rt, front, counts);
    both_made(front, counts)
}

// The journal's first line and the lines of all entries, copied from the registers that are printed, and what stands
// before and behind the lines of the refused calls. The lines are copied on three threads, the front ones on one, the
// others on two: a thread passes over the lines before its own, so each later one has fewer to copy.
fn copied_and_counted<R: Threads + Sync>(
    rt: &R,
    alloc: Global,
    plan: &Plan,
    merged: &Merged<'_>,
    registers: &PrintedRegisters,
) -> Result<
    (
        (CopiedLines, (Vec<u8>, Vec<u8>)),
        (CopiedLines, CopiedLines),
    ),
    NoMemory,
>
    requires { HasTexts plan.now merged.now registers.now }
    ensures lines { IfOk result (λ r. AreHalves plan.now merged.now r.0.0 (one_behind r.1.0 r.1.1)) }
    ensures counts { IfOk result (λ r. AreCountsTold plan.now merged.now r.0.1.0.items r.0.1.1.items) }
{
    let many = merged.len() / 5 * 2;
    let to = many + (merged.len() - many) / 2;
    let room = journal_room(merged.len(), registers.room()) / 5 * 2;
    let front = || -> Result<(CopiedLines, (Vec<u8>, Vec<u8>)), NoMemory>
        requires { HasTexts plan.now merged.now registers.now × (many ≤ length merged.now) }
        ensures { IfOk result (λ r.
            AreCopied plan.entry.now (heading_text plan.entry.now) 1 (take many merged.entry.now) r.0
            × AreCountsTold plan.entry.now merged.entry.now r.1.0.items r.1.1.items) }
    { front_and_counts(rt, alloc, plan, merged, many, registers, room) };
    let behind = || -> Result<(CopiedLines, CopiedLines), NoMemory>
        requires { HasTexts plan.now merged.now registers.now × (many ≤ to) × (to ≤ length merged.now) }
        ensures { IfOk result
            (λ r. AreCopied plan.entry.now [] (many + 1) (drop many merged.entry.now) (one_behind r.0 r.1)) }
    { copy_behind(rt, alloc, plan, merged, many, to, registers, room) };
    let (front, behind) = join(rt, front, behind);
    both_made(front, behind)
}

// The output of a line, up to the front lines of its journal, and the rest: by what was copied of the front of its
// journal and the two parts behind it, the registers, and what stands before and behind the lines of the refused calls.
fn put_together(
    front: CopiedLines,
    counts: (Vec<u8>, Vec<u8>),
    behind: (CopiedLines, CopiedLines),
    registers: PrintedRegisters,
) -> (Vec<u8>, OutputRest)
    ensures front { result.0.items ≡ front.journal }
    ensures rest { result.1 ≡ rest_text (one_behind behind.0 behind.1).journal registers counts.0.items front.refused
        (one_behind behind.0 behind.1).refused counts.1.items }
{
    let (heading, sections) = counts;
    let (middle, last) = behind;
    let rest = OutputRest {
        middle,
        last,
        registers,
        heading,
        refused_front: front.refused,
        sections,
    };
    (front.journal, rest)
}

/// The whole output of a line, by its journal, where its registers are printed already: up to the front lines of
/// its journal, and the rest.
pub(crate) fn print_whole<R: Threads + Sync>(
    rt: &R,
    alloc: Global,
    plan: &Plan,
    merged: &Merged<'_>,
    registers: PrintedRegisters,
) -> Result<(Vec<u8>, OutputRest), NoMemory>
    requires { HasTexts plan.now merged.now registers }
    ensures { IfOk result (λ r. r.0.items ++ r.1 ≡ output_text plan.now merged.now) }
{
    match copied_and_counted(rt, alloc, plan, merged, &registers) {
        Ok((front, behind)) => Ok(put_together(front.0, front.1, behind, registers)),
        Err(NoMemory) => {
            drop(registers);
            Err(NoMemory)
        }
    }
}

// The same of a line that was worked, its registers printed on threads.
fn print_line<R: Threads + Sync>(
    rt: &R,
    alloc: Global,
    plan: &Plan,
    line: &WorkedLine,
) -> Result<(Vec<u8>, OutputRest), NoMemory>
    requires { CanBePrinted plan.now line.now.journal.entries line.now.ended.registers }
    ensures { IfOk result (λ r. r.0.items ++ r.1 ≡ output_text plan.now line.now.journal.entries) }
{
    let merged = line.merged(alloc, plan)?;
    let registers = print_registers(rt, alloc, plan, line.ended.registers.as_slice());
    let printed = match registers {
        Ok(registers) => print_whole(rt, alloc, plan, &merged, registers),
        Err(NoMemory) => Err(NoMemory),
    };
    drop(merged);
    printed
}

/// The same, the lines of the journal's front half in room for the whole output, which is made on a thread meanwhile.
pub(crate) fn print_output<R: Threads + Sync>(
    rt: &R,
    alloc: Global,
    plan: &Plan,
    line: &WorkedLine,
) -> Result<(Vec<u8>, OutputRest), NoMemory>
    requires { CanBePrinted plan.now line.now.journal.entries line.now.ended.registers }
    ensures { IfOk result (λ r. r.0.items ++ r.1 ≡ output_text plan.now line.now.journal.entries) }
{
    let room = || -> Result<Vec<u8>, NoMemory> {
        make_room(alloc, line.ended.registers.as_slice())
    };
    let printed = || -> Result<(Vec<u8>, OutputRest), NoMemory>
        requires { CanBePrinted plan.now line.now.journal.entries line.now.ended.registers }
        ensures { IfOk result
            (λ r. r.0.items ++ r.1 ≡ output_text plan.entry.now line.entry.now.journal.entries) }
    { print_line(rt, alloc, plan, line) };
    let (room, printed) = join(rt, room, printed);
    let (room, printed) = both_made(room, printed)?;
    in_room(room, printed)
}
