//! What a lever works, in words.

ghost use Rattle.std.specs.Prelude.{◌≡◌, ◌++◌, IfOk, OnOk, string_bytes};
ghost use Rattle.frame_picture.specs.Levers.{longest_words, place_name, route_text, signal_text, works};
ghost use Rattle.line_plan.specs.Frames.{signal_of};

use line_plan::{BoxPlan, Kind, Lever, To, way_word};
use std::alloc::{AllocError, Global};
use std::fmt::Write;

// The name of a place; nothing where the box has no such place.
fn place_name(plan: &BoxPlan, place: u32) -> &str
    ensures { result.now ≡ place_name plan.now place }
{
    if (place as usize) < plan.places.len() {
        plan.places.name_of(place)
    } else {
        ""
    }
}

// Puts from where a signal leads, and where to.
fn put_route(out: &mut String, plan: &BoxPlan, from: &str, to: To) -> Result<(), AllocError>
    ensures { OnOk result (string_bytes out.new ≡ string_bytes out.old ++ route_text plan.now from.now to) }
{
    match to {
        To::Place(place) => {
            let name = place_name(plan, place);
            write!(out, "{from} to {name}")
        }
        To::Section(way) => {
            let way = way_word(way);
            write!(out, "starter {way}, {from}")
        }
        To::Away => write!(out, "{from} away"),
    }
}

// What the lever of a signal works.
fn signal_text(alloc: Global, plan: &BoxPlan, lever: u32) -> Result<String, AllocError>
    ensures { IfOk result (λ text. string_bytes text ≡ signal_text plan.now (signal_of plan.now lever)) }
{
    let mut text = String::new(alloc);
    match plan.signal(lever) {
        Some(signal) => put_route(&mut text, plan, place_name(plan, signal.from), signal.to)?,
        None => text.push_str("signal")?,
    }
    Ok(text)
}

/// What a lever works, as `DB to DP`, `starter down, DP` or `points`.
#[tactic(auto, unfolding(crate::specs::Levers::works))]
pub fn works(alloc: Global, plan: &BoxPlan, lever: Lever) -> Result<String, AllocError>
    ensures { IfOk result (λ text. string_bytes text ≡ works plan.now lever) }
{
    match lever.kind {
        Kind::Signal => signal_text(alloc, plan, lever.number),
        Kind::Distant => format!(in alloc; "distant"),
        Kind::Points => format!(in alloc; "points"),
        Kind::Lock => format!(in alloc; "facing point lock"),
        Kind::Spare => format!(in alloc; "spare"),
    }
}

/// How many characters the longest words have of what a box's levers work; 200 at most.
pub fn longest_words(alloc: Global, plan: &BoxPlan) -> Result<u32, AllocError>
    ensures { IfOk result (λ longest. longest ≡ longest_words plan.now plan.now.levers) }
{
    let mut longest: u32 = 0;
    for lever in plan.levers.as_slice() {
        let words = works(alloc, plan, *lever)?;
        longest = longest.max(words.len().min(200) as u32);
    }
    Ok(longest)
}
