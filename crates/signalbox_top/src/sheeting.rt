//! `sheet [--html] PLAN OUTPUT [BOX]`: the train register of a journal is printed as sheets.

ghost use Rattle.std.specs.Prelude.{◌≡◌, ◌≢◌, ℕ, List, IfOk, Some, string_bytes};
ghost use Rattle.signalbox_words.specs.Commands.{Command, sheet_shown};
ghost use Rattle.signalbox_top.specs.Sheeting.{AreSheets, AreSheetsIn, AreSheetsOf};
ghost use Rattle.signalbox_top.specs.Top.{Headline, TakesFront};
ghost use Rattle.signalbox_top.specs.Told.{TellsWhy};

use crate::answering::{put_result, tell_trouble};
use crate::marking::box_asked;
use crate::status::Status;
use explained_texts::{ReasonedShelf, Trouble, fetch_journal};
use line_law::Entry;
use line_plan::Plan;
use rail_text::{NoMemory, Sink};
use sheet_page::sheet_page;
use sheet_text::sheet_text;
use signalbox_words::SheetWords;
use std::alloc::Global;

// The sheets of a journal, as a page or as a text.
fn sheets_as(
    alloc: Global,
    html: bool,
    plan: &Plan,
    entries: &[Entry],
    only: Option<u32>,
) -> Result<String, NoMemory>
    ensures { IfOk result (λ text. AreSheets html plan.now entries.now only (string_bytes text)) }
{
    if html {
        sheet_page(alloc, plan, entries, only)
    } else {
        sheet_text(alloc, plan, entries, only)
    }
}

// The sheets of a journal, of the box that is asked for or of all.
fn sheets_in(
    alloc: Global,
    plan: &Plan,
    entries: &[Entry],
    wanted: &SheetWords<'_>,
) -> Result<String, Trouble>
    ensures { IfOk result (λ text. AreSheetsIn plan.now entries.now (sheet_shown wanted.now) (string_bytes text)) }
{
    let only = box_asked(alloc, plan, wanted.box_name)?;
    Ok(sheets_as(alloc, wanted.html, plan, entries, only)?)
}

// The sheets of the journal of these names.
fn fetched_sheets<S: ReasonedShelf>(
    alloc: Global,
    wanted: &SheetWords<'_>,
    shelf: &mut S,
) -> Result<String, Trouble>
    ensures sheets { IfOk result (λ text. AreSheetsOf (S.held shelf.old) (sheet_shown wanted.now) (string_bytes text)) }
    ensures same { (n : List ℕ) → S.held shelf.new n ≡ S.held shelf.old n }
{
    let texts = fetch_journal(alloc, shelf, wanted.plan, wanted.output)?;
    let entries = texts.journal.entries.as_slice();
    let text = sheets_in(alloc, &texts.plan, entries, wanted);
    drop(texts);
    text
}

/// Puts the train register of a journal as sheets.
pub(crate) fn serve_sheet<S: ReasonedShelf, K: Sink, L: Sink>(
    alloc: Global,
    wanted: &SheetWords<'_>,
    shelf: &mut S,
    out: &mut K,
    told: &mut L,
) -> Status
    ensures headline { result ≢ Status.Failed → Headline (S.held shelf.old)
        (Some (Command.Sheet (sheet_shown wanted.now))) result (K.taken out.old) (K.taken out.new) }
    ensures part { result ≡ Status.Failed → TakesFront (K.taken out.old) (K.taken out.new) }
    ensures why { result ≡ Status.Failed
        → TellsWhy (L.taken told.old) (L.taken told.new) (L.faults told.old) (L.faults told.new) }
    ensures same { (n : List ℕ) → S.held shelf.new n ≡ S.held shelf.old n }
{
    match fetched_sheets(alloc, wanted, shelf) {
        Ok(text) => put_result(out, told, text.as_bytes(), Status::Done),
        Err(trouble) => tell_trouble(told, &trouble),
    }
}
