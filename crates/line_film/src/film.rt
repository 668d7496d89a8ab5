//! The film of a journal.

ghost use Rattle.std.specs.Prelude.{◌≡◌, ◌<◌, ◌-◌, ◌^◌, All, IfOk, length, string_bytes};
ghost use Rattle.line_law.specs.History.{IsLegal};
ghost use Rattle.line_scene.specs.Diagrams.{diagrams_of};
ghost use Rattle.line_film.specs.Pages.{IsFilm, film_text};
ghost use Rattle.mark_up.specs.Documents.{IsDocument};
ghost use Rattle.script_text.specs.Entries.{IsSpelled};

use crate::changes::Change;
use crate::frames::{first_of, frames_of};
use crate::page::{begun, put_page};
use entry_records::EntryWords;
use journal_records::told_of;
use line_law::Entry;
use line_picture::{Layout, picture_name};
use line_plan::{Items, Plan};
use line_scene::{Diagram, diagrams_of};
use rail_text::NoMemory;
use std::alloc::Global;

// The page of what the entries change, and of what is told of them.
fn draw_film(
    alloc: Global,
    plan: &Plan,
    diagrams: &[Diagram],
    frames: &[Items<Change>],
    told: &[EntryWords<'_>],
) -> Result<String, NoMemory>
    requires diagrams { diagrams.now ≡ diagrams_of plan.now.boxes }
    ensures document { IfOk result (λ text. IsDocument (string_bytes text)) }
    ensures page { IfOk result (λ text. string_bytes text ≡ film_text plan.now frames.now told.now) }
{
    plan.meets_conditions();
    let name = picture_name(alloc, plan, plan.boxes.len() as u32 - 1)?;
    let layout = Layout::new(alloc, plan, diagrams)?;
    let first = first_of(alloc, plan, diagrams)?;
    let mut page = begun(alloc)?;
    put_page(
        &mut page,
        alloc,
        plan,
        &layout,
        name.as_str(),
        first.as_slice(),
        frames,
        told,
    )?;
    Ok(page.finish()?)
}

/// A legal journal as a page of HTML, which steps through its entries: it draws all things of the line as they are seen
/// before the first entry, and for each entry those that it changes, and tells each entry, with a sentence where it is
/// refused. Each entry is one that the line can spell, as `is_spelled` of `script_text` tells; all of a legal history are.
pub fn line_film(alloc: Global, plan: &Plan, entries: &[Entry]) -> Result<String, NoMemory>
    requires legal { IsLegal plan.now entries.now }
    requires few { length entries.now < 2 ^ 32 }
    requires spelled { All (IsSpelled plan.now) entries.now }
    ensures { IfOk result (λ text. IsFilm plan.now entries.now (string_bytes text)) }
{
    let diagrams = diagrams_of(alloc, plan)?;
    let frames = frames_of(alloc, plan, &diagrams, entries)?;
    let told = told_of(alloc, plan, entries)?;
    draw_film(alloc, plan, &diagrams, &frames, &told)
}
