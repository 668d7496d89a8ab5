//! `states PLAN BOX`: the states of the lever frame of a box are walked, or of one by itself.

ghost use Rattle.std.specs.Prelude.{◌≡◌, ◌≢◌, ◌≤◌, ◌<◌, ℕ, List, IfOk, Ok, Some, length, map, option_map, string_bytes};
ghost use Rattle.rail_text.specs.Words.{number_in};
ghost use Rattle.line_plan.specs.Plans.{box_at};
ghost use Rattle.frame_report.specs.States.{IsStatesText};
ghost use Rattle.text_fetch.specs.FromTexts.{named};
ghost use Rattle.signalbox_words.specs.Commands.{Command};
ghost use Rattle.signalbox_top.specs.Top.{Headline, TakesFront};
ghost use Rattle.signalbox_top.specs.Told.{TellsWhy};
ghost use Rattle.signalbox_top.specs.WalkedFrames.{AreLevers, IsAsked, IsLimit, IsWalkedOf, is_working};
ghost use Rattle.signalbox_top.specs.WalkedFrames.{working_numbers};
ghost use Rattle.signalbox_top.specs.Walks.{wanted_shown};

use crate::answering::{put_result, tell_trouble};
use crate::frames::meant_frame;
use crate::status::Status;
use explained_texts::{ReasonedShelf, Trouble, trouble_with};
use frame_report::{StatesFault, StatesWanted, states_report};
use line_plan::{Kind, Lever, Plan};
use rail_text::{NoMemory, Sink, number_in};
use std::alloc::Global;

/// What is wanted of a frame's states.
#[derive(Clone, Copy)]
pub(crate) struct Wanted<'a> {
    pub(crate) plan: &'a str,
    /// The name of the box.
    pub(crate) box_name: &'a str,
    /// How many states may be kept, as it was written.
    pub(crate) limit: Option<&'a str>,
    /// The levers that are never to be reversed together, as they were written.
    pub(crate) never: &'a [&'a str],
    /// The levers that are to be reversed together, as they were written.
    pub(crate) reach: &'a [&'a str],
}

// How many states may be kept.
fn limit_of(alloc: Global, word: Option<&str>) -> Result<u32, Trouble>
    ensures { IfOk result (IsLimit (option_map (λ w. w.now) word.entry)) }
{
    let Some(word) = word else {
        return Ok(1_000_000);
    };
    match number_in(word.as_bytes(), 1, 4_294_967_295) {
        Ok(limit) => Ok(limit),
        Err(_) => Err(trouble_with(
            alloc,
            word,
            "a number of states is wanted, from 1 to 4294967295",
        )),
    }
}

// The lever of this number.
fn lever_of(alloc: Global, word: &str) -> Result<u32, Trouble>
    ensures { IfOk result (λ lever. number_in 1 120 word.now ≡ Ok lever) }
{
    match number_in(word.as_bytes(), 1, 120) {
        Ok(lever) => Ok(lever),
        Err(_) => Err(trouble_with(
            alloc,
            word,
            "the number of a lever is wanted, from 1 to 120",
        )),
    }
}

// The levers of these numbers.
fn levers_of(alloc: Global, words: &[&str]) -> Result<Vec<u32>, Trouble>
    ensures { IfOk result (λ levers. AreLevers (named words.now) levers.items) }
{
    let mut levers = Vec::new(alloc);
    for word in words {
        levers.push(lever_of(alloc, word)?)?;
    }
    Ok(levers)
}

// What is asked of the states.
fn asked(alloc: Global, wanted: &Wanted<'_>) -> Result<StatesWanted, Trouble>
    ensures asked { IfOk result (IsAsked (wanted_shown wanted.now)) }
    ensures some { IfOk result (λ asked. 1 ≤ asked.limit) }
{
    let limit = limit_of(alloc, wanted.limit)?;
    let never = levers_of(alloc, wanted.never)?;
    let reach = levers_of(alloc, wanted.reach)?;
    Ok(StatesWanted {
        limit,
        reach,
        never,
    })
}

// Whether a lever works something.
fn is_working(kind: Kind) -> bool
    ensures { result ≡ is_working kind }
{
    match kind {
        Kind::Spare => false,
        _ => true,
    }
}

// The numbers of the levers that work something.
fn working_numbers(alloc: Global, levers: &[Lever]) -> Result<Vec<u32>, NoMemory>
    ensures { IfOk result (λ numbers. numbers.items ≡ working_numbers levers.now) }
{
    let mut numbers = Vec::new(alloc);
    for lever in levers {
        if is_working(lever.kind) {
            numbers.push(lever.number)?;
        }
    }
    Ok(numbers)
}

// What is told of a frame that isn't walked.
fn fault_told(alloc: Global, box_name: &str, fault: StatesFault) -> Trouble {
    match fault {
        StatesFault::BadRow => trouble_with(
            alloc,
            box_name,
            "a row names a lever that the frame hasn't",
        ),
        StatesFault::NoLever(_) => trouble_with(
            alloc,
            box_name,
            "the frame hasn't a lever that is asked for",
        ),
        StatesFault::NoMemory => Trouble::NoMemory,
    }
}

// The report on the states of a box's frame.
#[tactic(auto, using(crate::proofs::Working::box_few))]
fn reported(
    alloc: Global,
    plan: &Plan,
    box_no: u32,
    asked: &StatesWanted,
) -> Result<String, Trouble>
    requires at { box_no < length plan.now.boxes }
    requires some { 1 ≤ asked.now.limit }
    ensures { IfOk result (λ text. IsStatesText (box_at plan.now.boxes box_no).name
        (working_numbers (box_at plan.now.boxes box_no).levers) (box_at plan.now.boxes box_no).rows asked.now
        (string_bytes text)) }
{
    plan.meets_conditions();
    let here = &plan.boxes.as_slice()[box_no as usize];
    let numbers = working_numbers(alloc, here.levers.as_slice())?;
    match states_report(alloc, here.name.as_str(), &numbers, &here.table, asked) {
        Ok(text) => Ok(text),
        Err(fault) => Err(fault_told(alloc, here.name.as_str(), fault)),
    }
}

// The report on the states of the frame that is meant. The words are read before the plan is fetched.
fn walked<S: ReasonedShelf>(
    alloc: Global,
    wanted: &Wanted<'_>,
    shelf: &mut S,
) -> Result<String, Trouble>
    ensures report { IfOk result (λ text. IsWalkedOf (S.held shelf.old) (wanted_shown wanted.now) (string_bytes text)) }
    ensures same { (n : List ℕ) → S.held shelf.new n ≡ S.held shelf.old n }
{
    let asked = asked(alloc, wanted)?;
    let (plan, box_no) = meant_frame(alloc, shelf, wanted.plan, wanted.box_name)?;
    let report = reported(alloc, &plan, box_no, &asked);
    drop(plan);
    report
}

/// Puts the report on the states of the frame of a box.
pub(crate) fn serve_states<S: ReasonedShelf, K: Sink, L: Sink>(
    alloc: Global,
    wanted: &Wanted<'_>,
    shelf: &mut S,
    out: &mut K,
    told: &mut L,
) -> Status
    ensures headline { result ≢ Status.Failed → Headline (S.held shelf.old)
        (Some (Command.States (wanted_shown wanted.now))) result (K.taken out.old) (K.taken out.new) }
    ensures part { result ≡ Status.Failed → TakesFront (K.taken out.old) (K.taken out.new) }
    ensures why { result ≡ Status.Failed
        → TellsWhy (L.taken told.old) (L.taken told.new) (L.faults told.old) (L.faults told.new) }
    ensures same { (n : List ℕ) → S.held shelf.new n ≡ S.held shelf.old n }
{
    match walked(alloc, wanted, shelf) {
        Ok(text) => put_result(out, told, text.as_bytes(), Status::Done),
        Err(trouble) => tell_trouble(told, &trouble),
    }
}
