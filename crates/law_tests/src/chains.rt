//! A chain of 32 boxes, each of which rings to the next and hears the one before.

use line_plan::Plan;
use plan_text::read_plan;
use rail_text::{NoMemory, ReadError};
use std::alloc::{AllocError, Global};
use std::fmt::Write;

// The number of its last box.
const LAST: u32 = 31;

const RINGS: &str = "ring down 1 -> rung 1";

const HEARS: &str = "hear up -> heard 1 1";

fn put_boxes(text: &mut String) -> Result<(), AllocError> {
    text.push_str("plan 1\nboxes 32\ndelay 2\nlooks 10\n")?;
    for box_no in 0..=LAST {
        write!(text, "box B{box_no}\n")?;
    }
    text.push_str("end\n")
}

fn plan_text(alloc: Global) -> Result<String, NoMemory> {
    let mut text = String::new(alloc);
    put_boxes(&mut text)?;
    Ok(text)
}

/// The plan of the chain.
pub fn chain(alloc: Global) -> Result<Plan, ReadError> {
    let text = plan_text(alloc)?;
    let plan = read_plan(alloc, text.as_bytes());
    drop(text);
    plan
}

// The line of an entry in a journal.
fn put_entry(text: &mut String, number: u32, box_no: u32, told: &str) -> Result<(), AllocError> {
    write!(text, "{number} B{box_no} 10:00 {told}\n")
}

// All boxes but the last ring, the last of them first; then all but the first hear, the last first.
fn put_from_the_end(text: &mut String) -> Result<(), AllocError> {
    text.push_str("journal 1\n")?;
    for before in 0..LAST {
        put_entry(text, before + 1, LAST - 1 - before, RINGS)?;
    }
    for before in 0..LAST {
        put_entry(text, before + 1 + LAST, LAST - before, HEARS)?;
    }
    text.push_str("end\n")
}

// The first box rings; then each rings and hears, and the last hears.
fn put_in_turn(text: &mut String) -> Result<(), AllocError> {
    text.push_str("journal 1\n")?;
    put_entry(text, 1, 0, RINGS)?;
    for box_no in 1..LAST {
        put_entry(text, 2 * box_no, box_no, RINGS)?;
        put_entry(text, 2 * box_no + 1, box_no, HEARS)?;
    }
    put_entry(text, 2 * LAST, LAST, HEARS)?;
    text.push_str("end\n")
}

/// The journal of the chain worked from its end.
pub fn worked_from_the_end(alloc: Global) -> Result<String, NoMemory> {
    let mut text = String::new(alloc);
    put_from_the_end(&mut text)?;
    Ok(text)
}

/// The same in the order of the boxes.
pub fn told_in_turn(alloc: Global) -> Result<String, NoMemory> {
    let mut text = String::new(alloc);
    put_in_turn(&mut text)?;
    Ok(text)
}
