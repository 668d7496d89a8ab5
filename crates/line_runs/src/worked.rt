//! A line that is worked by the scripts of its boxes, up to its journal.

ghost use Rattle.std.specs.Prelude.{◌≡◌, All, IfErr, IfOk};
ghost use Rattle.line_report.specs.Asked.{AreFewEntries};
ghost use Rattle.script_text.specs.Entries.{IsSpelled};
ghost use Rattle.signalman_seats.specs.Lines.{AreFresh, AreMen, Closed, WasTaken};
ghost use Rattle.line_law.specs.Serial.{serial_journal};
ghost use Rattle.text_fetch.specs.Runs.{AreScriptsOf};
ghost use Rattle.train_register.specs.Registers.{AreParts, IsPrintable};
ghost use Rattle.serial_working.specs.Rosters.{calls_of_scripts};
ghost use Rattle.line_runs.specs.Worked.{AreOfMen, AreOfMenOrSerial, AreWorked, IsJournalOf, IsWorkedLine, lengths_of};

use instrument_rule::Line;
use line_journal::{Merged, merge, merged};
use line_law::Journal;
use line_plan::Plan;
use line_working::{Gate, work_line};
use rail_text::NoMemory;
use script_text::Script;
use serial_working::work_serially;
use signalman_seats::{OpenError, Signalman, close_line, open_line};
use std::alloc::{AllocError, Global};
use std::sync::Wait;
use std::thread::Threads;
use train_register::Ended;

/// A line that was worked and has ended: its journal, and the registers of its boxes.
#[derive(Drop)]
pub struct WorkedLine {
    /// What happened on the line, in the order of the journal.
    pub journal: Journal,
    /// The same, box by box.
    pub ended: Ended,
}

impl WorkedLine {
    /// The entries of its journal, where they stand in the registers.
    pub(crate) fn merged(&self, alloc: Global, plan: &Plan) -> Result<Merged<'_>, NoMemory>
        requires parts { AreParts plan.now self.now.journal.entries self.now.ended.registers }
        requires spelled { All (IsSpelled plan.now) self.now.journal.entries }
        ensures { IfOk result (λ merged. merged ≡ self.now.journal.entries) }
    {
        let registers = self.ended.registers.as_slice();
        Merged::of_parts(alloc, plan, registers, self.journal.entries.as_slice())
    }
}

/// How many calls each script has.
pub(crate) fn lengths_of(alloc: Global, scripts: &[Script]) -> Result<Vec<usize>, AllocError>
    ensures { IfOk result (λ lengths. lengths.items ≡ lengths_of scripts.now) }
{
    let mut lengths = Vec::new(alloc);
    for script in scripts {
        lengths.push(script.calls.as_slice().len())?;
    }
    Ok(lengths)
}

/// The registers of a line that is closed by its men.
pub(crate) fn closed_line(alloc: Global, line: Line, men: Vec<Signalman>) -> Result<Ended, NoMemory>
    requires { AreMen line.table.shared.table_id line.table.shared.key men.items }
    ensures { IfOk result (λ ended. Closed line.table.shared.key men.items ended.registers) }
{
    match close_line(alloc, line, men) {
        Ok(ended) => Ok(ended),
        Err(refused) => {
            drop(refused);
            Err(NoMemory)
        }
    }
}

// Lets each man of an open line work his script, and closes the line.
fn work_and_close<R: Threads + Wait + Sync, G: Gate>(
    rt: &R,
    alloc: Global,
    plan: &Plan,
    scripts: &[Script],
    line: Line,
    mut men: Vec<Signalman>,
    gate: &G,
) -> Result<Ended, NoMemory>
    requires scripts { AreScriptsOf plan.now scripts.now }
    requires line { line.table.shared.key ≡ plan.now }
    requires men { AreFresh line.table.shared.table_id plan.now (lengths_of scripts.now) men.items }
    ensures worked { IfOk result (λ ended. AreWorked plan.now scripts.now ended.registers) }
    ensures men { IfOk result (λ ended. AreOfMen plan.now scripts.now ended.registers) }
{
    plan.meets_conditions();
    work_line(rt, alloc, &line, &mut men, scripts, plan.looks, gate);
    closed_line(alloc, line, men)
}

// The registers of a line whose scripts are worked by its men, each on a thread of his own, or why no line was opened.
fn work_by_men<R: Threads + Wait + Sync, G: Gate>(
    rt: &R,
    alloc: Global,
    plan: &Plan,
    scripts: &[Script],
    gate: &G,
) -> Result<Ended, OpenError>
    requires { AreScriptsOf plan.now scripts.now }
    ensures worked { IfOk result (λ ended. AreWorked plan.now scripts.now ended.registers) }
    ensures men { IfOk result (λ ended. AreOfMen plan.now scripts.now ended.registers) }
    ensures taken { IfErr result (WasTaken plan.now) }
{
    let lengths = lengths_of(alloc, scripts)?;
    let opened = open_line(alloc, plan, &lengths);
    drop(lengths);
    let (line, men) = opened?;
    Ok(work_and_close(rt, alloc, plan, scripts, line, men, gate)?)
}

/// The registers of a line whose scripts are worked on this thread.
pub(crate) fn work_alone<G: Gate>(
    alloc: Global,
    plan: &Plan,
    scripts: &[Script],
    gate: &G,
) -> Result<Ended, NoMemory>
    requires { AreScriptsOf plan.now scripts.now }
    ensures worked { IfOk result (λ ended. AreWorked plan.now scripts.now ended.registers) }
    ensures serial { IfOk result
        (λ ended. AreParts plan.now (serial_journal plan.now (calls_of_scripts scripts.now)) ended.registers) }
{
    plan.meets_conditions();
    let journal = work_serially(alloc, plan, scripts, gate)?;
    let ended = Ended::of_journal(alloc, plan, &journal);
    drop(journal);
    ended
}

/// The registers of a line whose scripts are worked: by its men, or where the post of a box was taken, on this thread.
pub(crate) fn work_scripts<R: Threads + Wait + Sync, G: Gate>(
    rt: &R,
    alloc: Global,
    plan: &Plan,
    scripts: &[Script],
    gate: &G,
) -> Result<Ended, NoMemory>
    requires { AreScriptsOf plan.now scripts.now }
    ensures worked { IfOk result (λ ended. AreWorked plan.now scripts.now ended.registers) }
    ensures by_whom { IfOk result (λ ended. AreOfMenOrSerial plan.now scripts.now ended.registers) }
{
    match work_by_men(rt, alloc, plan, scripts, gate) {
        Ok(ended) => Ok(ended),
        Err(OpenError::PostTaken { .. }) => work_alone(alloc, plan, scripts, gate),
        Err(OpenError::NoMemory) => Err(NoMemory),
    }
}

/// The journal into which the registers of a line whose scripts were worked are merged.
pub(crate) fn merged_journal(
    alloc: Global,
    plan: &Plan,
    scripts: &[Script],
    ended: &Ended,
) -> Result<Journal, NoMemory>
    requires scripts { AreScriptsOf plan.now scripts.now }
    requires worked { AreWorked plan.now scripts.now ended.now.registers }
    ensures { IfOk result (λ journal. IsWorkedLine (record { plan = plan.now; scripts = scripts.now })
        journal.entries ended.now.registers) }
{
    plan.meets_conditions();
    let journal = merge(alloc, plan, ended)?;
    Ok(journal)
}

/// The same journal, its entries where they stand in the registers.
pub(crate) fn merged_entries<'a>(
    alloc: Global,
    plan: &Plan,
    scripts: &[Script],
    ended: &'a Ended,
) -> Result<Merged<'a>, NoMemory>
    requires scripts { AreScriptsOf plan.now scripts.now }
    requires worked { AreWorked plan.now scripts.now ended.now.registers }
    ensures { IfOk result (λ merged. IsWorkedLine (record { plan = plan.now; scripts = scripts.now })
        merged ended.now.registers) }
{
    plan.meets_conditions();
    let merged = merged(alloc, plan, ended)?;
    Ok(merged)
}

/// Merges the registers of a line whose scripts were worked into its journal.
pub(crate) fn merged_line(
    alloc: Global,
    plan: &Plan,
    scripts: &[Script],
    ended: Ended,
) -> Result<WorkedLine, NoMemory>
    requires scripts { AreScriptsOf plan.now scripts.now }
    requires worked { AreWorked plan.now scripts.now ended.registers }
    ensures line { IfOk result (λ line. IsWorkedLine (record { plan = plan.now; scripts = scripts.now })
        line.journal.entries line.ended.registers) }
    ensures kept { IfOk result (λ line. line.ended.registers ≡ ended.registers) }
{
    match merged_journal(alloc, plan, scripts, &ended) {
        Ok(journal) => Ok(WorkedLine { journal, ended }),
        Err(NoMemory) => {
            drop(ended);
            Err(NoMemory)
        }
    }
}

/// Works the scripts of a plan's boxes, one for each in box order, and merges the registers into the journal. Each
/// script is worked by its own signalman on a thread of his own, each call behind the gate, with the looks of the plan.
/// Where the post of a box was lost as the line opened, they are worked in the serial order on this thread.
pub fn worked_line<R: Threads + Wait + Sync, G: Gate>(
    rt: &R,
    alloc: Global,
    plan: &Plan,
    scripts: &[Script],
    gate: &G,
) -> Result<WorkedLine, NoMemory>
    requires { AreScriptsOf plan.now scripts.now }
    ensures journal { IfOk result
        (λ line. IsJournalOf (record { plan = plan.now; scripts = scripts.now }) line.journal.entries) }
    ensures parts { IfOk result (λ line. AreParts plan.now line.journal.entries line.ended.registers) }
    ensures few { IfOk result (λ line. AreFewEntries line.journal.entries) }
    ensures spelled { IfOk result (λ line. All (IsSpelled plan.now) line.journal.entries) }
    ensures printable { IfOk result (λ line. All (IsPrintable plan.now) line.ended.registers) }
    ensures by_whom { IfOk result (λ line. AreOfMenOrSerial plan.now scripts.now line.ended.registers) }
{
    let ended = work_scripts(rt, alloc, plan, scripts, gate)?;
    merged_line(alloc, plan, scripts, ended)
}
