//! The summary of the made line, built whole.

ghost use Rattle.std.specs.Prelude.{◌≡◌, ◌≤◌, ◌+◌, ◌++◌, List, All, IfOk, IsErrOf, OnOk, length, string_bytes};
ghost use Rattle.line_law.specs.declared.call.Entry.{Entry};
ghost use Rattle.line_law.specs.History.{IsLegal};
ghost use Rattle.line_report.specs.Asked.{AreFewEntries};
ghost use Rattle.script_text.specs.Entries.{IsSpelled};
ghost use Rattle.text_fetch.specs.FromTexts.{Gives};
ghost use Rattle.train_register.specs.Registers.{AreParts};
ghost use Rattle.line_runs.specs.Counting.{AreCounts};
ghost use Rattle.line_runs.specs.Made.{IsMade, IsSummaryOf, count_line, counts_text, summary_text};
ghost use Rattle.line_runs.specs.Outputs.{MakesText};

use crate::counting::{Counts, count_along};
use crate::worked::{WorkedLine, worked_line};
use line_journal::Merged;
use line_maker::{MakeError, make_line};
use line_plan::Plan;
use line_report::put_sections;
use line_working::Gate;
use rail_text::NoMemory;
use std::alloc::{AllocError, Global};
use std::fmt::Write;
use std::sync::Wait;
use std::thread::Threads;
use text_fetch::{Inputs, Stop};

// A line with one number.
fn put_count(out: &mut String, word: &str, count: usize) -> Result<(), AllocError>
    ensures { OnOk result (string_bytes out.new ≡ string_bytes out.old ++ count_line word.now count) }
{
    out.push_str(word)?;
    write!(out, " {count}\n")
}

// Puts the summary's lines with one number each behind a text: so many calls were made, and so many of them refused.
#[tactic(auto, unfolding(crate::specs::Made::counts_text))]
fn put_counts(
    out: &mut String,
    trains: u32,
    plan: &Plan,
    calls: usize,
    refused: usize,
) -> Result<(), AllocError>
    ensures { OnOk result (string_bytes out.new
        ≡ string_bytes out.old ++ counts_text trains plan.now calls refused) }
{
    put_count(out, "stress", trains as usize)?;
    put_count(out, "boxes", plan.boxes.len())?;
    put_count(out, "trains", plan.trains.len())?;
    put_count(out, "calls", calls)?;
    put_count(out, "refused", refused)
}

// Puts the summary of so many calls of the made line behind a text, by what was counted along them.
fn put_told(
    out: &mut String,
    alloc: Global,
    trains: u32,
    plan: &Plan,
    calls: usize,
    counts: &Counts,
) -> Result<(), NoMemory>
    requires { length counts.now.trains.items + 1 ≡ length plan.now.boxes }
    ensures { (es : List Entry) → AreCounts plan.now es counts.now.refused counts.now.trains.items → calls ≡ length es
        → OnOk result (string_bytes out.new ≡ string_bytes out.old ++ summary_text trains plan.now es) }
{
    put_counts(out, trains, plan, calls, counts.refused)?;
    put_sections(out, alloc, plan, &counts.trains)
}

// Puts the summary of a journal of the made line behind a text.
fn put_summary(
    out: &mut String,
    alloc: Global,
    trains: u32,
    plan: &Plan,
    merged: &Merged<'_>,
) -> Result<(), NoMemory>
    requires legal { IsLegal plan.now merged.now }
    requires few { AreFewEntries merged.now }
    ensures { OnOk result (string_bytes out.new ≡ string_bytes out.old ++ summary_text trains plan.now merged.now) }
{
    let counts = count_along(alloc, plan, merged)?;
    let put = put_told(out, alloc, trains, plan, merged.len(), &counts);
    drop(counts);
    put
}

// The summary of a journal of the made line.
fn line_summary(
    alloc: Global,
    trains: u32,
    plan: &Plan,
    line: &WorkedLine,
) -> Result<Vec<u8>, NoMemory>
    requires legal { IsLegal plan.now line.now.journal.entries }
    requires few { AreFewEntries line.now.journal.entries }
    requires parts { AreParts plan.now line.now.journal.entries line.now.ended.registers }
    requires spelled { All (IsSpelled plan.now) line.now.journal.entries }
    ensures { IfOk result (λ text. text.items ≡ summary_text trains plan.now line.now.journal.entries) }
{
    let merged = line.merged(alloc, plan)?;
    let mut out = String::new(alloc);
    let put = put_summary(&mut out, alloc, trains, plan, &merged);
    drop(merged);
    put?;
    Ok(out.into_bytes())
}

// The made line of so many trains.
fn made_inputs(alloc: Global, trains: u32) -> Result<Inputs, NoMemory>
    requires low { 1 ≤ trains }
    requires high { trains ≤ 200 }
    ensures { IfOk result
        (λ inputs. IsMade trains (record { plan = inputs.plan; scripts = inputs.scripts.items })) }
{
    match make_line(alloc, trains) {
        Ok((plan, scripts)) => Ok(Inputs { plan, scripts }),
        Err(MakeError::NoMemory) => Err(NoMemory),
        Err(MakeError::OutOfRange { .. }) => unreachable!(),
    }
}

// The summary of the made line, worked by its scripts.
fn made_summary<R: Threads + Wait + Sync, G: Gate>(
    rt: &R,
    alloc: Global,
    trains: u32,
    inputs: &Inputs,
    gate: &G,
) -> Result<Vec<u8>, NoMemory>
    requires { IsMade trains (record { plan = inputs.now.plan; scripts = inputs.now.scripts.items }) }
    ensures { IfOk result (λ text. IsSummaryOf trains text.items) }
{
    let line = worked_line(rt, alloc, &inputs.plan, &inputs.scripts, gate)?;
    let text = line_summary(alloc, trains, &inputs.plan, &line);
    drop(line);
    text
}

/// The summary of the made line of so many trains, worked by its own scripts, each on a thread of its own; or that
/// memory ran out.
pub fn stress_outcome<R: Threads + Wait + Sync, G: Gate>(
    rt: &R,
    alloc: Global,
    trains: u32,
    gate: &G,
) -> Result<Vec<u8>, Stop>
    requires low { 1 ≤ trains }
    requires high { trains ≤ 200 }
    ensures told { MakesText IsSummaryOf (λ text. text.items) result (Gives trains) }
    ensures no_fault { IsErrOf result Stop.ShelfFault → ⊥ }
{
    let inputs = made_inputs(alloc, trains)?;
    let text = made_summary(rt, alloc, trains, &inputs, gate);
    drop(inputs);
    Ok(text?)
}
