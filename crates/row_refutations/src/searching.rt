//! Which rows refute that levers are ever reversed together.

ghost use Rattle.std.specs.Prelude.{◌<◌, ◌≡◌, All, IfOk, length, option_map};
ghost use Rattle.row_refutations.specs.Refuted.{IsRefutation, rows_at};

use crate::refuting::{broken_row, refute, unknown};
use locking_table::{NoMemory, Row};
use std::alloc::Global;

// What the search has found: which row told where a lever stands, by the row's place from 1, and the row that is broken.
#[derive(Drop)]
struct Trail {
    reasons: Vec<usize>,
    broken: usize,
}

// Goes over the rows until one is broken, or no more is known.
fn follow(
    alloc: Global,
    rows: &[Row],
    levers: u32,
    reversed: &[u32],
) -> Result<Option<Trail>, NoMemory> {
    let mut known = unknown(alloc, levers)?;
    let mut reasons = vec![in alloc; 0usize; levers as usize]?;
    let found = broken_row(&mut known, &mut reasons, rows, reversed, levers);
    drop(known);
    match found {
        Some(broken) => Ok(Some(Trail { reasons, broken })),
        None => Ok(None),
    }
}

// Marks the row that told where a lever stands, if one did and it isn't marked; then its place is still to be looked at.
fn mark(
    reasons: &[usize],
    lever: u32,
    marks: &mut [bool],
    waiting: &mut Vec<usize>,
) -> Result<(), NoMemory> {
    let reason = match reasons.get(lever.saturating_sub(1) as usize) {
        Some(reason) => *reason,
        None => 0,
    };
    let place = reason.saturating_sub(1);
    if reason != 0 && place < marks.len() && !marks[place] {
        marks[place] = true;
        waiting.push(place)?;
    }
    Ok(())
}

// Marks the rows that told where the levers of a row stand.
fn mark_named(
    reasons: &[usize],
    row: &Row,
    marks: &mut [bool],
    waiting: &mut Vec<usize>,
) -> Result<(), NoMemory> {
    mark(reasons, row.subject, marks, waiting)?;
    mark(reasons, row.object, marks, waiting)?;
    for cond in row.when.as_slice() {
        mark(reasons, cond.lever, marks, waiting)?;
    }
    Ok(())
}

// For each row whether the broken one rests on it.
fn marks_of(alloc: Global, rows: &[Row], trail: &Trail) -> Result<Vec<bool>, NoMemory> {
    let mut marks = vec![in alloc; false; rows.len()]?;
    let mut waiting = Vec::new(alloc);
    if trail.broken < marks.len() {
        marks[trail.broken] = true;
        waiting.push(trail.broken)?;
    }
    for _ in 0..rows.len() {
        let Some(place) = waiting.pop() else {
            break;
        };
        if let Some(row) = rows.get(place) {
            mark_named(&trail.reasons, row, &mut marks, &mut waiting)?;
        }
    }
    Ok(marks)
}

// The places of the rows that are marked, in table order.
fn places_of(alloc: Global, marks: &[bool], rows: usize) -> Result<Vec<u32>, NoMemory>
    ensures { IfOk result (λ places. All (λ at. at < rows) places.items) }
{
    let mut places = Vec::new(alloc);
    for (at, mark) in marks.iter().enumerate() {
        if *mark && at < rows && at < 4_294_967_295 {
            places.push(at as u32)?;
        }
    }
    Ok(places)
}

// The rows at these places.
fn rows_at(alloc: Global, rows: &[Row], places: &[u32]) -> Result<Vec<Row>, NoMemory>
    requires { All (λ at. at < length rows.now) places.now }
    ensures { IfOk result (λ chosen. chosen.items ≡ rows_at rows.now places.now) }
{
    let mut chosen = Vec::new(alloc);
    for at in places {
        chosen.push(rows[*at as usize].copied())?;
    }
    Ok(chosen)
}

// These rows, where they refute it.
fn checked(
    alloc: Global,
    rows: &[Row],
    levers: u32,
    reversed: &[u32],
    places: Vec<u32>,
) -> Result<Option<Vec<u32>>, NoMemory>
    requires { All (λ at. at < length rows.now) places.items }
    ensures { IfOk result (λ found. IsRefutation rows.now reversed.now (option_map (λ its. its.items) found)) }
{
    let chosen = rows_at(alloc, rows, &places)?;
    let does = refute(alloc, &chosen, levers, reversed)?;
    drop(chosen);
    if does { Ok(Some(places)) } else { Ok(None) }
}

/// Rows that refute that levers of a frame are ever reversed together, by their places from 0 in table order, where
/// such are found: whichever are found, they are checked by `refute`.
pub fn refutation(
    alloc: Global,
    rows: &[Row],
    levers: u32,
    reversed: &[u32],
) -> Result<Option<Vec<u32>>, NoMemory>
    ensures { IfOk result (λ found. IsRefutation rows.now reversed.now (option_map (λ its. its.items) found)) }
{
    let Some(trail) = follow(alloc, rows, levers, reversed)? else {
        return Ok(None);
    };
    let marks = marks_of(alloc, rows, &trail)?;
    drop(trail);
    let places = places_of(alloc, &marks, rows.len())?;
    drop(marks);
    checked(alloc, rows, levers, reversed, places)
}
