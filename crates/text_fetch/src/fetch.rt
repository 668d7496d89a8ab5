//! A text that is fetched and read.

ghost use Rattle.std.specs.Prelude.{◌≡◌, ℕ, ◌+◌, ◌≤◌, ◌<◌, ◌^◌, List, IfOk, IfErr, IfSome, IsErrOf, length, take};
ghost use Rattle.rail_text.specs.Causes.{Rose};
ghost use Rattle.plan_draft.specs.Reading.{plan_of};
ghost use Rattle.text_fetch.specs.FromTexts.{Makes, text_told};
ghost use Rattle.text_fetch.specs.Fetches.{IsNoRefusal, IsScriptRead, IsStopOf};

use crate::stop::Stop;
use line_plan::{PLAN_LIMIT, Plan};
use plan_text::read_plan;
use rail_text::{FetchFault, ReadError, Shelf};
use script_text::{Script, read_script};
use std::alloc::Global;

/// The first bytes of a text: one more than the limit, if there are so many.
pub fn fetch_bytes<S: Shelf>(
    alloc: Global,
    shelf: &mut S,
    name: &str,
    limit: usize,
) -> Result<Vec<u8>, Stop>
    requires { limit < 2 ^ 32 }
    ensures bytes { IfOk result (λ v. IfSome (S.held shelf.old name.now) (λ all. v.items ≡ take (limit + 1) all)) }
    ensures stop { IfErr result IsNoRefusal }
    ensures fault { IsErrOf result Stop.ShelfFault → Rose (S.faults shelf.old name.now) (S.faults shelf.new name.now) }
    ensures same { (n : List ℕ) → S.held shelf.new n ≡ S.held shelf.old n }
    ensures later { (n : List ℕ) → S.faults shelf.old n ≤ S.faults shelf.new n }
{
    match shelf.fetch(alloc, name, limit) {
        Ok(bytes) => Ok(bytes),
        Err(FetchFault::Failed) => Err(Stop::ShelfFault),
        Err(FetchFault::NoMemory) => Err(Stop::NoMemory),
    }
}

/// A text that its reader refuses, or has no memory for, stops a command.
pub fn stop_of(text: u32, error: ReadError) -> Stop
    ensures { IsStopOf text error result }
{
    match error {
        ReadError::Refused { line, cause } => Stop::Refused { text, line, cause },
        ReadError::NoMemory => Stop::NoMemory,
    }
}

/// The plan under a name, as the first text.
pub fn fetch_plan<S: Shelf>(alloc: Global, shelf: &mut S, name: &str) -> Result<Plan, Stop>
    ensures plan { Makes (λ plan. plan) result (text_told 1 plan_of (S.held shelf.old name.now)) }
    ensures fault { IsErrOf result Stop.ShelfFault → Rose (S.faults shelf.old name.now) (S.faults shelf.new name.now) }
    ensures same { (n : List ℕ) → S.held shelf.new n ≡ S.held shelf.old n }
    ensures later { (n : List ℕ) → S.faults shelf.old n ≤ S.faults shelf.new n }
{
    let bytes = fetch_bytes(alloc, shelf, name, PLAN_LIMIT)?;
    match read_plan(alloc, &bytes) {
        Ok(plan) => Ok(plan),
        Err(error) => Err(stop_of(1, error)),
    }
}

/// The script of a box that a fetched text spells, as text `box_no + 2`.
pub fn read_fetched(alloc: Global, plan: &Plan, box_no: u32, bytes: &[u8]) -> Result<Script, Stop>
    requires { box_no < length plan.now.boxes }
    ensures { IsScriptRead plan.now box_no bytes.now result }
{
    plan.meets_conditions();
    match read_script(alloc, plan, box_no, bytes) {
        Ok(script) => Ok(script),
        Err(error) => Err(stop_of(box_no + 2, error)),
    }
}
