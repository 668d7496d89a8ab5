//! `picture [--film] PLAN OUTPUT [ENTRY]`: a line is drawn as it stands after an entry of a journal, or after each.

ghost use Rattle.std.specs.Prelude.{◌≡◌, ◌≢◌, ◌≤◌, ℕ, List, IfOk, Some, option_map, string_bytes};
ghost use Rattle.line_law.specs.History.{IsLegal};
ghost use Rattle.line_report.specs.Asked.{AreFewEntries};
ghost use Rattle.line_film.specs.Pages.{IsFilm};
ghost use Rattle.signalbox_words.specs.Commands.{Command, picture_shown};
ghost use Rattle.signalbox_top.specs.Picturing.{IsCount, IsDrawn, IsFilmIn, IsPictureIn, IsPictureOf};
ghost use Rattle.signalbox_top.specs.Top.{Headline, TakesFront};
ghost use Rattle.signalbox_top.specs.Told.{TellsWhy};

use crate::answering::{put_result, tell_trouble};
use crate::status::Status;
use explained_texts::{ReasonedShelf, Trouble, fetch_journal, trouble_with};
use line_film::line_film;
use line_law::Entry;
use line_picture::line_picture;
use line_plan::Plan;
use line_report::histories_can_be_printed;
use rail_text::{NoMemory, Sink, number_in};
use signalbox_words::PictureWords;
use std::alloc::Global;

// How many entries come before what is drawn, of so many.
fn count_of(alloc: Global, number: Option<&str>, all: usize) -> Result<usize, Trouble>
    ensures count { IfOk result (IsCount all (option_map (λ word. word.now) number.entry)) }
    ensures within { IfOk result (λ count. count ≤ all) }
{
    let Some(word) = number else {
        return Ok(all);
    };
    match number_in(word.as_bytes(), 1, 4_294_967_295) {
        Ok(count) if count as usize <= all => Ok(count as usize),
        _ => Err(trouble_with(alloc, word, "the journal has no entry of this number")),
    }
}

// The picture of a line after the entry that is asked for.
fn picture_in(
    alloc: Global,
    plan: &Plan,
    entries: &[Entry],
    number: Option<&str>,
) -> Result<String, Trouble>
    requires legal { IsLegal plan.now entries.now }
    requires few { AreFewEntries entries.now }
    ensures { IfOk result (λ text. IsPictureIn plan.now entries.now (option_map (λ word. word.now) number.entry)
        (string_bytes text)) }
{
    let count = count_of(alloc, number, entries.len())?;
    Ok(line_picture(alloc, plan, entries, count)?)
}

// The film of a legal journal.
fn film_of(alloc: Global, plan: &Plan, entries: &[Entry]) -> Result<String, NoMemory>
    requires legal { IsLegal plan.now entries.now }
    requires few { AreFewEntries entries.now }
    ensures { IfOk result (λ text. IsFilm plan.now entries.now (string_bytes text)) }
{
    plan.meets_conditions();
    histories_can_be_printed();
    line_film(alloc, plan, entries)
}

// The film of the entries up to the one that is asked for.
#[tactic(auto, using(line_law::proofs::Histories::legal_front))]
fn film_in(
    alloc: Global,
    plan: &Plan,
    entries: &[Entry],
    number: Option<&str>,
) -> Result<String, Trouble>
    requires legal { IsLegal plan.now entries.now }
    requires few { AreFewEntries entries.now }
    ensures { IfOk result (λ text. IsFilmIn plan.now entries.now (option_map (λ word. word.now) number.entry)
        (string_bytes text)) }
{
    let count = count_of(alloc, number, entries.len())?;
    Ok(film_of(alloc, plan, &entries[..count])?)
}

// A film, or a picture.
fn drawn_in(
    alloc: Global,
    film: bool,
    plan: &Plan,
    entries: &[Entry],
    number: Option<&str>,
) -> Result<String, Trouble>
    requires legal { IsLegal plan.now entries.now }
    requires few { AreFewEntries entries.now }
    ensures { IfOk result (λ text. IsDrawn film plan.now entries.now (option_map (λ word. word.now) number.entry)
        (string_bytes text)) }
{
    if film {
        film_in(alloc, plan, entries, number)
    } else {
        picture_in(alloc, plan, entries, number)
    }
}

// The same by the plan and the journal of these names.
fn pictured<S: ReasonedShelf>(
    alloc: Global,
    wanted: &PictureWords<'_>,
    shelf: &mut S,
) -> Result<String, Trouble>
    ensures picture { IfOk result
        (λ text. IsPictureOf (S.held shelf.old) (picture_shown wanted.now) (string_bytes text)) }
    ensures same { (n : List ℕ) → S.held shelf.new n ≡ S.held shelf.old n }
{
    let texts = fetch_journal(alloc, shelf, wanted.plan, wanted.output)?;
    let entries = texts.journal.entries.as_slice();
    let picture = drawn_in(alloc, wanted.film, &texts.plan, entries, wanted.number);
    drop(texts);
    picture
}

/// Puts the picture of a line after an entry, or the film up to that.
pub(crate) fn serve_picture<S: ReasonedShelf, K: Sink, L: Sink>(
    alloc: Global,
    wanted: &PictureWords<'_>,
    shelf: &mut S,
    out: &mut K,
    told: &mut L,
) -> Status
    ensures headline { result ≢ Status.Failed → Headline (S.held shelf.old)
        (Some (Command.Picture (picture_shown wanted.now))) result (K.taken out.old) (K.taken out.new) }
    ensures part { result ≡ Status.Failed → TakesFront (K.taken out.old) (K.taken out.new) }
    ensures why { result ≡ Status.Failed
        → TellsWhy (L.taken told.old) (L.taken told.new) (L.faults told.old) (L.faults told.new) }
    ensures same { (n : List ℕ) → S.held shelf.new n ≡ S.held shelf.old n }
{
    match pictured(alloc, wanted, shelf) {
        Ok(text) => put_result(out, told, text.as_bytes(), Status::Done),
        Err(trouble) => tell_trouble(told, &trouble),
    }
}
