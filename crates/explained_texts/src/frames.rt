//! The lever frame of a box by itself, from a text of its levers and rows.

ghost use Rattle.std.specs.Prelude.{◌≡◌, ◌<◌, ◌≤◌, ◌^◌, ℕ, List, [], IfErr, IfOk, Ok, false, length};
ghost use Rattle.line_plan.specs.Limits.{most_bytes};
ghost use Rattle.line_plan.specs.Plans.{box_at};
ghost use Rattle.plan_draft.specs.Reading.{plan_of};
ghost use Rattle.explained_texts.specs.Frames.{IsFrameAlone, framed};
ghost use Rattle.explained_texts.specs.Others.{IsExplainedByName};
ghost use Rattle.explained_texts.specs.Troubles.{IsExplained, IsFront};
ghost use Rattle.text_fetch.specs.FromTexts.{Held};

use crate::fetching::fetch_text;
use crate::reading::refused;
use crate::shelf::ReasonedShelf;
use crate::trouble::{Trouble, trouble_with};
use fault_sentences::TextKind;
use line_plan::{PLAN_LIMIT, Plan};
use plan_text::read_plan;
use rail_text::{Lines, NoMemory, ReadError};
use std::alloc::Global;

/// What stands before the lines of a frame in the plan that they are read in.
const BEFORE: &str = "plan 1\nboxes 2\ndelay 0\nlooks 1\nbox Other\nbox Frame\n";

/// How many lines that are.
const BEFORE_LINES: u32 = 6;

/// What stands behind them.
const BEHIND: &str = "\nend\n";

// The plan in which these lines are those of a box.
#[tactic(auto, unfolding(crate::specs::Frames::framed))]
fn framed(alloc: Global, lines: &[u8]) -> Result<Vec<u8>, NoMemory>
    requires { length lines.now ≤ most_bytes }
    ensures { IfOk result (λ text. text.items ≡ framed lines.now) }
{
    let mut text = Vec::new(alloc);
    text.extend_from_slice(BEFORE.as_bytes())?;
    text.extend_from_slice(lines)?;
    text.extend_from_slice(BEHIND.as_bytes())?;
    Ok(text)
}

// The plan of a frame of these lines. A fault is told with the number of its line among these.
fn read_framed(alloc: Global, name: &str, lines: &[u8], text: &[u8]) -> Result<Plan, Trouble>
    ensures plan { IfOk result (λ plan. plan_of text.now ≡ Ok plan) }
    ensures explained { IfErr result (IsExplained 1 name.now lines.now) }
{
    match read_plan(alloc, text) {
        Ok(plan) => Ok(plan),
        Err(ReadError::Refused { line, cause }) => {
            let line = line.saturating_sub(BEFORE_LINES);
            Err(refused(alloc, name, lines, TextKind::Plan, 1, line, cause))
        }
        Err(ReadError::NoMemory) => Err(Trouble::NoMemory),
    }
}

// The same of lines that aren't in a plan yet.
fn read_frame(alloc: Global, name: &str, lines: &[u8]) -> Result<Plan, Trouble>
    requires { length lines.now ≤ most_bytes }
    ensures plan { IfOk result (λ plan. plan_of (framed lines.now) ≡ Ok plan) }
    ensures explained { IfErr result (IsExplained 1 name.now lines.now) }
{
    let text = framed(alloc, lines)?;
    let plan = read_framed(alloc, name, lines, &text);
    drop(text);
    plan
}

// Whether the frame's box has a place.
fn has_place(plan: &Plan) -> bool
    ensures places { result ≡ false → (box_at plan.now.boxes 1).places ≡ [] }
    ensures at { 1 < length plan.now.boxes }
{
    plan.meets_conditions();
    let frame = &plan.boxes.as_slice()[1];
    !frame.places.is_empty()
}

// Whether one of these lines is `end`.
fn has_end(bytes: &[u8]) -> bool
    requires { length bytes.now ≤ most_bytes }
{
    let mut lines = Lines::new(bytes);
    while let Some(line) = lines.next() {
        if line.text == b"end".as_slice() {
            return true;
        }
    }
    false
}

// Something stands in the text of this name that no frame alone has.
fn not_alone(alloc: Global, name: &str, what: &str) -> Trouble
    ensures { (held : Held) → IsExplainedByName held result }
{
    trouble_with(alloc, name, what)
}

// The plan of the frame of these lines, where they have no line `end`, and there is no place among them.
fn frame_alone(alloc: Global, name: &str, lines: &[u8]) -> Result<Plan, Trouble>
    requires { length lines.now ≤ most_bytes }
    ensures plan { IfOk result (λ plan. plan_of (framed lines.now) ≡ Ok plan) }
    ensures place { IfOk result (λ plan. (box_at plan.boxes 1).places ≡ []) }
    ensures at { IfOk result (λ plan. 1 < length plan.boxes) }
    ensures explained { (held : Held) → IsFront (held name.now) lines.now → IfErr result (IsExplainedByName held) }
{
    if has_end(lines) {
        let what = "a frame alone has levers and rows, and no line `end`";
        return Err(not_alone(alloc, name, what));
    }
    let plan = read_frame(alloc, name, lines)?;
    if has_place(&plan) {
        drop(plan);
        let what = "a frame alone has levers and rows, and no places";
        return Err(not_alone(alloc, name, what));
    }
    Ok(plan)
}

/// The frame of the text of this name: the lines of the levers and rows of a box, as a plan has them, without any
/// other. It comes as a plan with the number of that box, whose name is `Frame`; there is nothing else in it. The text
/// may be as long as a plan, and its last line may lack its end. It has no line `end`; a line of another kind is
/// refused as in a plan, and so is a place.
pub fn fetch_frame<S: ReasonedShelf>(
    alloc: Global,
    shelf: &mut S,
    name: &str,
) -> Result<(Plan, u32), Trouble>
    ensures frame { IfOk result (λ found. IsFrameAlone (S.held shelf.old) name.now found.0) }
    ensures box_no { IfOk result (λ found. found.1 ≡ 1) }
    ensures at { IfOk result (λ found. found.1 < length found.0.boxes) }
    ensures explained { IfErr result (IsExplainedByName (S.held shelf.old)) }
    ensures same { (n : List ℕ) → S.held shelf.new n ≡ S.held shelf.old n }
{
    let lines = fetch_text(alloc, shelf, name, PLAN_LIMIT)?;
    if lines.len() > PLAN_LIMIT {
        drop(lines);
        return Err(not_alone(alloc, name, "it is longer than a plan may be"));
    }
    let plan = frame_alone(alloc, name, &lines);
    drop(lines);
    match plan {
        Ok(plan) => Ok((plan, 1)),
        Err(trouble) => Err(trouble),
    }
}
