//! The journal that a text spells.

ghost use Rattle.std.specs.Prelude.{◌≡◌, ◌≤◌, ℕ, List, [], All, Ok, IfOk, IsErrOf, length};
ghost use Rattle.rail_text.specs.Gives.{GivesText};
ghost use Rattle.rail_text.specs.declared.cause.Cause.{Cause};
ghost use Rattle.line_plan.specs.Plans.{IsPlan, PlanFields};
ghost use Rattle.line_law.specs.declared.call.Entry.{Entry};
ghost use Rattle.script_text.specs.Entries.{IsSpelled};
ghost use Rattle.line_report.specs.Asked.{AreAsked, AreFewEntries};
ghost use Rattle.line_report.specs.Reading.{RunsOutAt, entries_left, journal_of, most_journal_bytes};
ghost use Rattle.line_report.specs.Spelled.{SpellsJournal};

use crate::journal_reader::{JournalReader, NO_ENTRY};
use line_law::{Entry, Journal};
use line_plan::{Items, Plan};
use rail_text::ReadError;
use std::alloc::Global;

// Keeps the entries that a reader has left, or refuses the first fault. Want of memory is told only of a line that has
// no fault.
fn keep_entries(reader: &mut JournalReader<'_>, kept: &mut Vec<Entry>) -> Result<(), ReadError>
    requires none { kept.old.items ≡ [] }
    ensures gives { GivesText (λ _. kept.new.items) result (entries_left reader.old) }
    ensures memory { RunsOutAt reader.old reader.new kept.new.items result }
{
    let mut entry = NO_ENTRY;
    while reader.next_entry(&mut entry)? {
        kept.push(entry)?;
    }
    Ok(())
}

// The journal that the bytes spell, or the first fault.
fn journal_of(alloc: Global, plan: &Plan, bytes: &[u8]) -> Result<Journal, ReadError>
    ensures exact { GivesText (λ journal. journal.entries) result (journal_of plan.now bytes.now) }
    ensures plan { IsPlan plan.now }
    ensures memory { IsErrOf result ReadError.NoMemory → length bytes.now ≤ most_journal_bytes plan.now.version }
{
    plan.meets_conditions();
    let mut reader = JournalReader::open(alloc, plan, bytes)?;
    let mut entries = Vec::new(alloc);
    keep_entries(&mut reader, &mut entries)?;
    Ok(Journal {
        entries: Items::from_vec(entries),
    })
}

/// The journal of a line that the bytes spell, or the line and the cause of the first fault: a text longer than
/// `most_journal_bytes` is `TooLong` at line 0, and one without a line `end` is `NoEnd` behind its last line. No line
/// is skipped, and what stands behind the line `end` isn't read. The plan knows each call, no moment is below the one
/// before it at the same box, and each reply is one that such a call may have and that some text spells; whether it is
/// the law's isn't tested.
#[tactic(auto, using(crate::proofs::JournalTexts::reading_rules))]
pub fn read_journal(alloc: Global, plan: &Plan, bytes: &[u8]) -> Result<Journal, ReadError>
    ensures exact { GivesText (λ journal. journal.entries) result (journal_of plan.now bytes.now) }
    ensures asked { IfOk result (λ journal. AreAsked plan.now journal.entries) }
    ensures few { IfOk result (λ journal. AreFewEntries journal.entries) }
    ensures can_be_printed { IfOk result (λ journal. All (IsSpelled plan.now) journal.entries) }
    ensures spelled { IfOk result (λ journal. SpellsJournal plan.now bytes.now journal.entries) }
    ensures refused { (line : ℕ) (cause : Cause) → IsErrOf result (ReadError.Refused line cause) → (es : List Entry)
        → ¬ SpellsJournal plan.now bytes.now es }
    ensures memory { IsErrOf result ReadError.NoMemory → length bytes.now ≤ most_journal_bytes plan.now.version }
{
    journal_of(alloc, plan, bytes)
}

/// A law: a text is read as a journal exactly where it spells it, whatever stands behind its end.
pub fn journals_law()
    ensures read { (plan : PlanFields) (bytes : List ℕ) (es : List Entry) → IsPlan plan → SpellsJournal plan bytes es
        → journal_of plan bytes ≡ Ok es }
    ensures spelled { (plan : PlanFields) (bytes : List ℕ) (es : List Entry) → journal_of plan bytes ≡ Ok es
        → SpellsJournal plan bytes es }
{}
