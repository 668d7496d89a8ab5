//! What is found of a journal, built whole: the judgement, and the audit.

ghost use Rattle.std.specs.Prelude.{◌≡◌, ◌≤◌, ℕ, List, [], ◌∷◌, IsErrOf, OnOk};
ghost use Rattle.rail_text.specs.Causes.{Rose};
ghost use Rattle.rail_text.specs.Gives.{GivesText};
ghost use Rattle.line_plan.specs.Plans.{IsPlan};
ghost use Rattle.desk_reports.specs.Audits.{audit_told, report_of, report_told};
ghost use Rattle.desk_reports.specs.Judgements.{IsJudged, case_told, case_told_before, judgement_told};
ghost use Rattle.text_fetch.specs.FromTexts.{HasShelfFault, Makes, text_told};

use line_plan::Plan;
use line_report::{judge_text, most_journal_bytes};
use rail_text::{ReadError, Shelf};
use reg_audit::audit_text;
use std::alloc::Global;
use text_fetch::{Stop, fetch_bytes, fetch_plan, stop_of};

// What is reported of a journal.
#[derive(Clone, Copy)]
enum Report {
    Judgement,
    Audit,
}

// What is printed of the journal that a text spells, or the first fault.
fn report_of(alloc: Global, plan: &Plan, bytes: &[u8], report: Report) -> Result<Vec<u8>, ReadError>
    ensures exact { GivesText (λ text. text.items) result (report_of report plan.now bytes.now) }
    ensures plan { IsPlan plan.now }
{
    match report {
        Report::Judgement => judge_text(alloc, plan, bytes),
        Report::Audit => audit_text(alloc, plan, bytes),
    }
}

// What is reported of the journal of a plan's line under a name, as the second text.
fn fetch_report<S: Shelf>(
    alloc: Global,
    shelf: &mut S,
    plan: &Plan,
    name: &str,
    report: Report,
) -> Result<Vec<u8>, Stop>
    ensures text { Makes (λ text. text.items) result
        (text_told 2 (report_of report plan.now) (S.held shelf.old name.now)) }
    ensures plan { OnOk result (IsPlan plan.now) }
    ensures fault { IsErrOf result Stop.ShelfFault → Rose (S.faults shelf.old name.now) (S.faults shelf.new name.now) }
    ensures same { (n : List ℕ) → S.held shelf.new n ≡ S.held shelf.old n }
    ensures later { (n : List ℕ) → S.faults shelf.old n ≤ S.faults shelf.new n }
{
    let bytes = fetch_bytes(alloc, shelf, name, most_journal_bytes(plan.version))?;
    match report_of(alloc, plan, &bytes, report) {
        Ok(text) => Ok(text),
        Err(error) => Err(stop_of(2, error)),
    }
}

// What is reported of the named journal of the named plan's line; or why there is nothing to judge.
fn case_outcome<S: Shelf>(
    alloc: Global,
    shelf: &mut S,
    plan_name: &str,
    journal_name: &str,
    report: Report,
) -> Result<Vec<u8>, Stop>
    ensures told { Makes (λ text. text.items) result
        (report_told report (S.held shelf.old) plan_name.now journal_name.now) }
    ensures judged { OnOk result (IsJudged (case_told (S.held shelf.old) plan_name.now journal_name.now)) }
    ensures fault { IsErrOf result Stop.ShelfFault
        → HasShelfFault (S.faults shelf.old) (S.faults shelf.new) (plan_name.now ∷ journal_name.now ∷ [])
        (case_told_before (S.held shelf.old) plan_name.now) }
    ensures same { (n : List ℕ) → S.held shelf.new n ≡ S.held shelf.old n }
{
    let plan = fetch_plan(alloc, shelf, plan_name)?;
    let outcome = fetch_report(alloc, shelf, &plan, journal_name, report);
    drop(plan);
    outcome
}

/// What is found of the named journal of the named plan's line; or why there is nothing to judge.
pub fn judge_outcome<S: Shelf>(
    alloc: Global,
    shelf: &mut S,
    plan_name: &str,
    journal_name: &str,
) -> Result<Vec<u8>, Stop>
    ensures told { Makes (λ text. text.items) result
        (judgement_told (S.held shelf.old) plan_name.now journal_name.now) }
    ensures judged { OnOk result (IsJudged (case_told (S.held shelf.old) plan_name.now journal_name.now)) }
    ensures fault { IsErrOf result Stop.ShelfFault
        → HasShelfFault (S.faults shelf.old) (S.faults shelf.new) (plan_name.now ∷ journal_name.now ∷ [])
        (case_told_before (S.held shelf.old) plan_name.now) }
    ensures same { (n : List ℕ) → S.held shelf.new n ≡ S.held shelf.old n }
{
    case_outcome(alloc, shelf, plan_name, journal_name, Report::Judgement)
}

/// The audit of the named journal of the named plan's line, where the journal is legal, else what the judge finds; or
/// why there is nothing to audit.
pub fn audit_outcome<S: Shelf>(
    alloc: Global,
    shelf: &mut S,
    plan_name: &str,
    journal_name: &str,
) -> Result<Vec<u8>, Stop>
    ensures told { Makes (λ text. text.items) result
        (audit_told (S.held shelf.old) plan_name.now journal_name.now) }
    ensures judged { OnOk result (IsJudged (case_told (S.held shelf.old) plan_name.now journal_name.now)) }
    ensures fault { IsErrOf result Stop.ShelfFault
        → HasShelfFault (S.faults shelf.old) (S.faults shelf.new) (plan_name.now ∷ journal_name.now ∷ [])
        (case_told_before (S.held shelf.old) plan_name.now) }
    ensures same { (n : List ℕ) → S.held shelf.new n ≡ S.held shelf.old n }
{
    case_outcome(alloc, shelf, plan_name, journal_name, Report::Audit)
}
