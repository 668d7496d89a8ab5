//! How the instruments of a line stand after a journal, by what its entries tell.

ghost use Rattle.std.specs.Prelude.{◌≡◌, ◌<◌, IfOk, length};
ghost use Rattle.line_law.specs.History.{IsLegal};
ghost use Rattle.line_journal.specs.Fits.{position_of};
ghost use Rattle.line_watch.specs.Shown.{IsRoundAfter, first_sight};
ghost use Rattle.line_watch.specs.Told.{number_told, sight_told};

use crate::numbers::section_count;
use crate::sight::Sight;
use block_words::{Position, Way};
use line_law::{Act, Entry, Reply, link_of};
use line_plan::Plan;
use rail_text::NoMemory;
use std::alloc::Global;

// The sight of an instrument that was never turned.
fn first_sight() -> Sight
    ensures { result ≡ first_sight }
{
    Sight {
        turns: 0,
        position: Position::Normal,
        spent: false,
    }
}

// The position to which a call turns an instrument.
fn position_of(act: Act) -> Position
    ensures { result ≡ position_of act }
{
    match act {
        Act::Turn { way: _, position } | Act::AwaitBlock { way: _, position } => position,
        _ => Position::Normal,
    }
}

// What the instrument of an entry's line shows after it, where the entry is of a turn, or of a pull of the starter.
fn sight_told(entry: &Entry) -> Option<Sight>
    ensures { result ≡ sight_told entry.now.call.act entry.now.reply }
{
    match entry.reply {
        Reply::Turned { v } => Some(Sight {
            turns: v,
            position: position_of(entry.call.act),
            spent: false,
        }),
        Reply::PulledUnder { v } => Some(Sight {
            turns: v,
            position: Position::LineClear,
            spent: true,
        }),
        Reply::HeldByInstrument {
            way: _,
            v,
            shown,
            spent: _,
        } => Some(Sight {
            turns: v,
            position: shown,
            spent: true,
        }),
        _ => None,
    }
}

// The number of the section on whose line an entry's call may be decided.
fn number_told(plan: &Plan, entry: &Entry) -> usize
    requires { entry.now.box_no < length plan.now.boxes }
    ensures { result ≡ number_told plan.now entry.now }
{
    let box_no = entry.box_no as usize;
    let link = link_of(&plan.boxes.as_slice()[box_no], entry.call.act);
    let pair = link.pair_no(box_no);
    match link.way() {
        Way::Down => 2 * pair,
        Way::Up => 2 * pair + 1,
    }
}

/// What all instruments of a line show after a whole journal: a sight of each section, in the order in which sections
/// are printed.
pub fn sights_after(alloc: Global, plan: &Plan, entries: &[Entry]) -> Result<Vec<Sight>, NoMemory>
    requires { IsLegal plan.now entries.now }
    ensures { IfOk result (λ sights. IsRoundAfter plan.now entries.now sights.items) }
{
    plan.meets_conditions();
    let boxes = plan.boxes.len() as u32;
    let mut sights = vec![in alloc; first_sight(); section_count(boxes)]?;
    for entry in entries {
        if let Some(sight) = sight_told(entry) {
            sights[number_told(plan, entry)] = sight;
        }
    }
    Ok(sights)
}
