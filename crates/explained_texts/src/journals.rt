//! The plan of a line, and a legal journal of that line.

ghost use Rattle.std.specs.Prelude.{◌≡◌, ◌+◌, ℕ, List, IfErr, IfOk, IfSome, Option, take};
ghost use Rattle.text_fetch.specs.FromTexts.{Held, IsGiven, text_told};
ghost use Rattle.line_law.specs.declared.call.Reply.{Reply};
ghost use Rattle.line_law.specs.History.{IsLegal};
ghost use Rattle.line_report.specs.Asked.{AreAsked, AreFewEntries};
ghost use Rattle.line_report.specs.Reading.{journal_of, most_journal_bytes};
ghost use Rattle.line_report.specs.Verdicts.{verdict_of};
ghost use Rattle.explained_texts.specs.Journals.{IsJournalOf, illegal_told};
ghost use Rattle.explained_texts.specs.Others.{IsExplainedByName};
ghost use Rattle.explained_texts.specs.Troubles.{IsExplained, IsToldAs, MakesOr, trouble_line};

use crate::fetching::fetch_text;
use crate::others::fetch_plan;
use crate::reading::refused;
use crate::shelf::ReasonedShelf;
use crate::trouble::{Trouble, trouble_with};
use fault_sentences::TextKind;
use line_law::Journal;
use line_plan::Plan;
use line_report::{Verdict, judge, most_journal_bytes, read_journal};
use rail_text::ReadError;
use std::alloc::Global;

/// A plan, and a legal journal of its line.
#[derive(Drop)]
pub struct JournalTexts {
    /// The line, as the first text spells it.
    pub plan: Plan,
    /// What happened on it, as the second text spells it.
    pub journal: Journal,
}

// The journal that the bytes of text 2 spell.
fn read_journal_text(
    alloc: Global,
    plan: &Plan,
    name: &str,
    bytes: &[u8],
) -> Result<Journal, Trouble>
    ensures told { (held : Option (List ℕ))
        → IfSome held (λ all. bytes.now ≡ take (most_journal_bytes plan.now.version + 1) all)
        → MakesOr (λ journal. journal.entries) result (text_told 2 (journal_of plan.now) held) }
    ensures asked { IfOk result (λ journal. AreAsked plan.now journal.entries) }
    ensures few { IfOk result (λ journal. AreFewEntries journal.entries) }
    ensures explained { IfErr result (IsExplained 2 name.now bytes.now) }
{
    match read_journal(alloc, plan, bytes) {
        Ok(journal) => Ok(journal),
        Err(ReadError::Refused { line, cause }) => {
            let kind = TextKind::Journal { plan };
            Err(refused(alloc, name, bytes, kind, 2, line, cause))
        }
        Err(ReadError::NoMemory) => Err(Trouble::NoMemory),
    }
}

// The journal under a name, as text 2.
fn fetch_entries<S: ReasonedShelf>(
    alloc: Global,
    shelf: &mut S,
    plan: &Plan,
    name: &str,
) -> Result<Journal, Trouble>
    ensures told { IfOk result (λ journal. IsGiven journal.entries
        (text_told 2 (journal_of plan.now) (S.held shelf.old name.now))) }
    ensures asked { IfOk result (λ journal. AreAsked plan.now journal.entries) }
    ensures few { IfOk result (λ journal. AreFewEntries journal.entries) }
    ensures explained { IfErr result (IsExplainedByName (S.held shelf.old)) }
    ensures same { (n : List ℕ) → S.held shelf.new n ≡ S.held shelf.old n }
{
    let bytes = fetch_text(alloc, shelf, name, most_journal_bytes(plan.version))?;
    let journal = read_journal_text(alloc, plan, name, &bytes);
    drop(bytes);
    journal
}

// The entry of this number, from 1, isn't the law's.
fn illegal(alloc: Global, name: &str, number: u32) -> Trouble
    ensures told { IsToldAs (trouble_line name.now (illegal_told number)) result }
    ensures explained { (held : Held) → IsExplainedByName held result }
{
    match format!(in alloc;
        "entry {number} isn't legal; `box_main judge` tells what the law says there"
    ) {
        Ok(what) => trouble_with(alloc, name, what.as_str()),
        Err(_) => Trouble::NoMemory,
    }
}

// The journal, where it is legal.
fn legal_only(alloc: Global, plan: &Plan, name: &str, journal: Journal) -> Result<Journal, Trouble>
    requires asked { AreAsked plan.now journal.entries }
    requires few { AreFewEntries journal.entries }
    ensures same { IfOk result (λ legal. legal ≡ journal) }
    ensures legal { IfOk result (λ legal. IsLegal plan.now legal.entries) }
    ensures illegal { (k : ℕ) (said law : Reply) → verdict_of plan.now journal.entries ≡ Verdict.WrongAt k said law
        → IfErr result (IsToldAs (trouble_line name.now (illegal_told k))) }
    ensures explained { (held : Held) → IfErr result (IsExplainedByName held) }
{
    let verdict = judge(alloc, plan, &journal);
    match verdict {
        Ok(Verdict::Legal) => Ok(journal),
        Ok(Verdict::WrongAt { line, .. }) => {
            drop(journal);
            Err(illegal(alloc, name, line))
        }
        Err(_) => {
            drop(journal);
            Err(Trouble::NoMemory)
        }
    }
}

// The legal journal under a name.
fn fetch_legal<S: ReasonedShelf>(
    alloc: Global,
    shelf: &mut S,
    plan: &Plan,
    name: &str,
) -> Result<Journal, Trouble>
    ensures told { IfOk result (λ journal. IsGiven journal.entries
        (text_told 2 (journal_of plan.now) (S.held shelf.old name.now))) }
    ensures legal { IfOk result (λ journal. IsLegal plan.now journal.entries) }
    ensures few { IfOk result (λ journal. AreFewEntries journal.entries) }
    ensures explained { IfErr result (IsExplainedByName (S.held shelf.old)) }
    ensures same { (n : List ℕ) → S.held shelf.new n ≡ S.held shelf.old n }
{
    let journal = fetch_entries(alloc, shelf, plan, name)?;
    legal_only(alloc, plan, name, journal)
}

/// The plan of this name, and the legal journal of that name. The first of these that is wrong decides: the plan's
/// text, the journal's, and then the first entry whose reply isn't the law's.
pub fn fetch_journal<S: ReasonedShelf>(
    alloc: Global,
    shelf: &mut S,
    plan_name: &str,
    journal_name: &str,
) -> Result<JournalTexts, Trouble>
    ensures journal { IfOk result (λ texts.
        IsJournalOf (S.held shelf.old) plan_name.now journal_name.now texts.plan texts.journal.entries) }
    ensures few { IfOk result (λ texts. AreFewEntries texts.journal.entries) }
    ensures explained { IfErr result (IsExplainedByName (S.held shelf.old)) }
    ensures same { (n : List ℕ) → S.held shelf.new n ≡ S.held shelf.old n }
{
    let plan = fetch_plan(alloc, shelf, plan_name)?;
    match fetch_legal(alloc, shelf, &plan, journal_name) {
        Ok(journal) => Ok(JournalTexts { plan, journal }),
        Err(trouble) => {
            drop(plan);
            Err(trouble)
        }
    }
}
