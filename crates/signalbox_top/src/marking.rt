//! `mark [--within M] PLAN OUTPUT [BOX]`: it is named what an instructor would mark in a journal.

ghost use Rattle.std.specs.Prelude.{◌≡◌, ◌≢◌, ℕ, List, IfOk, Some, option_map, string_bytes};
ghost use Rattle.line_law.specs.History.{IsLegal};
ghost use Rattle.line_report.specs.Asked.{AreFewEntries};
ghost use Rattle.signalbox_words.specs.Commands.{Command, mark_shown};
ghost use Rattle.signalbox_top.specs.MarkedJournals.{AreMarkedAs, IsBoxOf, IsMarkedIn, IsMarkedOf, IsWithin};
ghost use Rattle.signalbox_top.specs.Top.{Headline, TakesFront};
ghost use Rattle.signalbox_top.specs.Told.{TellsWhy};

use crate::answering::{put_result, tell_trouble};
use crate::status::{Status, status_of};
use box_marking::{mark, print_markings};
use explained_texts::{ReasonedShelf, Trouble, fetch_journal, named_box, trouble_with};
use line_law::Entry;
use line_plan::Plan;
use rail_text::{Sink, number_in};
use signalbox_words::MarkWords;
use std::alloc::Global;

// What is put of marks, and the status.
#[derive(Drop)]
struct Marked {
    text: String,
    status: Status,
}

/// The box that is asked for, if one is.
pub(crate) fn box_asked(
    alloc: Global,
    plan: &Plan,
    name: Option<&str>,
) -> Result<Option<u32>, Trouble>
    ensures { IfOk result (λ only. IsBoxOf plan.now (option_map (λ n. n.now) name.entry) only) }
{
    match name {
        Some(name) => Ok(Some(named_box(alloc, plan, name)?)),
        None => Ok(None),
    }
}

// The time within which an answer is to come, if one is given.
fn within_of(alloc: Global, word: Option<&str>) -> Result<Option<u32>, Trouble>
    ensures { IfOk result (IsWithin (option_map (λ w. w.now) word.entry)) }
{
    let Some(word) = word else {
        return Ok(None);
    };
    match number_in(word.as_bytes(), 0, 86_399) {
        Ok(within) => Ok(Some(within)),
        Err(_) => Err(trouble_with(
            alloc,
            word,
            "a time is wanted, from 0 to 86399, in minutes or in a plan's seconds",
        )),
    }
}

// What an instructor marks in a journal, as text.
fn marked_in(
    alloc: Global,
    plan: &Plan,
    entries: &[Entry],
    only: Option<u32>,
    within: Option<u32>,
) -> Result<Marked, Trouble>
    requires legal { IsLegal plan.now entries.now }
    requires few { AreFewEntries entries.now }
    ensures marks { IfOk result (λ marked. AreMarkedAs plan.now entries.now within only (string_bytes marked.text)
        marked.status) }
    ensures done { IfOk result (λ marked. marked.status ≢ Status.Failed) }
{
    let markings = mark(alloc, plan, entries, only, within)?;
    let status = status_of(!markings.is_empty());
    let text = print_markings(alloc, plan, &markings);
    drop(markings);
    Ok(Marked {
        text: text?,
        status,
    })
}

// The same of the box that is asked for, and within the time that is given.
fn marked_of(
    alloc: Global,
    plan: &Plan,
    entries: &[Entry],
    wanted: &MarkWords<'_>,
) -> Result<Marked, Trouble>
    requires legal { IsLegal plan.now entries.now }
    requires few { AreFewEntries entries.now }
    ensures marks { IfOk result (λ marked. IsMarkedIn plan.now entries.now (mark_shown wanted.now)
        (string_bytes marked.text) marked.status) }
    ensures done { IfOk result (λ marked. marked.status ≢ Status.Failed) }
{
    let within = within_of(alloc, wanted.within)?;
    let only = box_asked(alloc, plan, wanted.box_name)?;
    marked_in(alloc, plan, entries, only, within)
}

// What an instructor marks in the journal of these names.
fn fetched_marks<S: ReasonedShelf>(
    alloc: Global,
    wanted: &MarkWords<'_>,
    shelf: &mut S,
) -> Result<Marked, Trouble>
    ensures marks { IfOk result (λ marked. IsMarkedOf (S.held shelf.old) (mark_shown wanted.now)
        (string_bytes marked.text) marked.status) }
    ensures done { IfOk result (λ marked. marked.status ≢ Status.Failed) }
    ensures same { (n : List ℕ) → S.held shelf.new n ≡ S.held shelf.old n }
{
    let texts = fetch_journal(alloc, shelf, wanted.plan, wanted.output)?;
    let entries = texts.journal.entries.as_slice();
    let marked = marked_of(alloc, &texts.plan, entries, wanted);
    drop(texts);
    marked
}

/// Puts what an instructor marks in a journal, and tells by the status whether there is something.
pub(crate) fn serve_mark<S: ReasonedShelf, K: Sink, L: Sink>(
    alloc: Global,
    wanted: &MarkWords<'_>,
    shelf: &mut S,
    out: &mut K,
    told: &mut L,
) -> Status
    ensures headline { result ≢ Status.Failed → Headline (S.held shelf.old)
        (Some (Command.Mark (mark_shown wanted.now))) result (K.taken out.old) (K.taken out.new) }
    ensures part { result ≡ Status.Failed → TakesFront (K.taken out.old) (K.taken out.new) }
    ensures why { result ≡ Status.Failed
        → TellsWhy (L.taken told.old) (L.taken told.new) (L.faults told.old) (L.faults told.new) }
    ensures same { (n : List ℕ) → S.held shelf.new n ≡ S.held shelf.old n }
{
    match fetched_marks(alloc, wanted, shelf) {
        Ok(marked) => put_result(out, told, marked.text.as_bytes(), marked.status),
        Err(trouble) => tell_trouble(told, &trouble),
    }
}
