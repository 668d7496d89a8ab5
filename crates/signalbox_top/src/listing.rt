//! `json [--csv] PLAN OUTPUT`: a journal is printed for other programs.

ghost use Rattle.std.specs.Prelude.{◌≡◌, ◌≢◌, ℕ, List, IfOk, Some};
ghost use Rattle.line_law.specs.History.{IsLegal};
ghost use Rattle.line_report.specs.Asked.{AreFewEntries};
ghost use Rattle.journal_records.specs.Rows.{AreRecords};
ghost use Rattle.signalbox_words.specs.Commands.{Command};
ghost use Rattle.signalbox_top.specs.Listing.{IsListOf};
ghost use Rattle.signalbox_top.specs.Top.{Headline, TakesFront};
ghost use Rattle.signalbox_top.specs.Told.{TellsWhy};

use crate::answering::{put_result, tell_trouble};
use crate::status::Status;
use explained_texts::{ReasonedShelf, Trouble, fetch_journal};
use journal_records::print_records;
use line_law::Entry;
use line_plan::Plan;
use line_report::histories_can_be_printed;
use rail_text::Sink;
use std::alloc::{AllocError, Global};

// The records of a legal journal.
fn records_of(
    alloc: Global,
    csv: bool,
    plan: &Plan,
    entries: &[Entry],
) -> Result<Vec<u8>, AllocError>
    requires legal { IsLegal plan.now entries.now }
    requires few { AreFewEntries entries.now }
    ensures { IfOk result (λ text. AreRecords csv plan.now entries.now text.items) }
{
    plan.meets_conditions();
    histories_can_be_printed();
    print_records(alloc, csv, plan, entries)
}

// The records of the journal of that name.
fn listed<S: ReasonedShelf>(
    alloc: Global,
    csv: bool,
    plan_name: &str,
    output_name: &str,
    shelf: &mut S,
) -> Result<Vec<u8>, Trouble>
    ensures list { IfOk result
        (λ text. IsListOf (S.held shelf.old) csv plan_name.now output_name.now text.items) }
    ensures same { (n : List ℕ) → S.held shelf.new n ≡ S.held shelf.old n }
{
    let texts = fetch_journal(alloc, shelf, plan_name, output_name)?;
    let list = records_of(alloc, csv, &texts.plan, texts.journal.entries.as_slice());
    drop(texts);
    Ok(list?)
}

/// Puts a journal as records for other programs.
pub(crate) fn serve_json<S: ReasonedShelf, K: Sink, L: Sink>(
    alloc: Global,
    csv: bool,
    plan_name: &str,
    output_name: &str,
    shelf: &mut S,
    out: &mut K,
    told: &mut L,
) -> Status
    ensures headline { result ≢ Status.Failed → Headline (S.held shelf.old)
        (Some (Command.Json csv plan_name.now output_name.now)) result (K.taken out.old) (K.taken out.new) }
    ensures part { result ≡ Status.Failed → TakesFront (K.taken out.old) (K.taken out.new) }
    ensures why { result ≡ Status.Failed
        → TellsWhy (L.taken told.old) (L.taken told.new) (L.faults told.old) (L.faults told.new) }
    ensures same { (n : List ℕ) → S.held shelf.new n ≡ S.held shelf.old n }
{
    match listed(alloc, csv, plan_name, output_name, shelf) {
        Ok(text) => put_result(out, told, &text, Status::Done),
        Err(trouble) => tell_trouble(told, &trouble),
    }
}
