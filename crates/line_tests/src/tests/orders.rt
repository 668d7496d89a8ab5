//! The order of a printed journal, and the trains of its section after each of its beginnings.

ghost use Rattle.std.specs.Prelude.{All};
ghost use Rattle.line_law.specs.History.{IsLegal};
ghost use Rattle.line_law.specs.Lines.{IsLineOf};
ghost use Rattle.line_plan.specs.Sections.{IsSection};
ghost use Rattle.line_report.specs.Asked.{AreAsked, AreFewEntries};
ghost use Rattle.script_text.specs.Entries.{IsSpelled};

use block_words::Way;
use line_journal::merge;
use line_law::{Act, Entry, Journal, Plain, Reply};
use line_plan::{Plan, Section};
use line_report::{Verdict, judge, read_journal};
use plan_text::read_plan;
use rail_text::{NoMemory, ReadError};
use std::alloc::Global;
use train_register::Ended;

// Whether a legal history stands in the order of its own parts.
fn is_in_order(alloc: Global, plan: &Plan, journal: &Journal) -> Result<bool, NoMemory>
    requires legal { IsLegal plan.now journal.now.entries }
    requires spelled { All (IsSpelled plan.now) journal.now.entries }
{
    let ended = Ended::of_journal(alloc, plan, journal)?;
    let merged = merge(alloc, plan, &ended);
    drop(ended);
    let merged = merged?;
    let is_so = merged.entries.as_slice() == journal.entries.as_slice();
    drop(merged);
    Ok(is_so)
}

// Whether a call is clean: no signal is overrun, no portion is left, and no line is released.
fn is_clean(entry: &Entry) -> bool {
    match entry.call.act {
        Act::Overrun { .. } => !matches!(entry.reply, Reply::Entered { .. }),
        Act::BerthPart { .. } => !matches!(entry.reply, Reply::PartBerthed { .. }),
        Act::Release { .. } => !matches!(entry.reply, Reply::Released),
        _ => true,
    }
}

// Whether a section holds at most one train after each beginning of these entries that is clean.
fn holds_few(plan: &Plan, plain: &mut Plain, section: Section, entries: &[Entry]) -> bool
    requires line { IsLineOf plan.now plain.old }
    requires section { IsSection plan.now section }
{
    for entry in entries {
        if !is_clean(entry) {
            return true;
        }
        if !plain.may_call(plan, entry.box_no, &entry.call) || plain.calls() >= 4_000_000_000 {
            return false;
        }
        plain.perform(plan, entry.box_no, &entry.call);
        if plain.held(plan, section) > 1 {
            return false;
        }
    }
    true
}

// The same of a journal of a line of two boxes, on the down line.
fn line_holds_few(alloc: Global, plan: &Plan, journal: &Journal) -> Result<bool, NoMemory> {
    if plan.boxes.len() != 2 {
        return Ok(false);
    }
    let section = Section {
        rear: 0,
        way: Way::Down,
    };
    let mut plain = Plain::open(alloc, plan)?;
    let is_so = holds_few(plan, &mut plain, section, journal.entries.as_slice());
    drop(plain);
    Ok(is_so)
}

// Whether a journal is legal, stands in the order of its own parts, and holds few trains while it is clean.
fn is_as_stated(alloc: Global, plan: &Plan, journal: &Journal) -> Result<bool, NoMemory>
    requires asked { AreAsked plan.now journal.now.entries }
    requires few { AreFewEntries journal.now.entries }
    requires spelled { All (IsSpelled plan.now) journal.now.entries }
{
    match judge(alloc, plan, journal)? {
        Verdict::Legal => {
            Ok(is_in_order(alloc, plan, journal)? & line_holds_few(alloc, plan, journal)?)
        }
        Verdict::WrongAt { .. } => Ok(false),
    }
}

// The same of the journal in front of an output.
fn prints_as_stated(alloc: Global, plan: &Plan, output: &[u8]) -> Result<bool, ReadError> {
    let journal = read_journal(alloc, plan, output)?;
    let is_so = is_as_stated(alloc, plan, &journal);
    drop(journal);
    Ok(is_so?)
}

/// Whether an output on the line of two boxes that a text spells begins with a journal that is legal, stands in the
/// order of its own parts, and after each of its clean beginnings has at most one train in the section down the line.
///
/// # Errors
///
/// Where the texts spell no plan and no journal of its line, or memory runs out.
pub fn are_orderly(alloc: Global, plan: &[u8], output: &[u8]) -> Result<bool, ReadError> {
    let plan = read_plan(alloc, plan)?;
    let is_so = prints_as_stated(alloc, &plan, output);
    drop(plan);
    is_so
}
