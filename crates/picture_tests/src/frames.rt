//! Pictures of frames.

use crate::made_plans::{Wanted, plan_of};
use crate::marks::{Found, found_in};
use frame_picture::frame_picture;
use line_plan::Plan;
use std::alloc::Global;
use std::test::Fail;

// What is found of the picture of the second box of a plan.
fn found_of(alloc: Global, plan: &Plan) -> Result<Found, Fail> {
    if plan.boxes.len() < 2 {
        return Err(Fail::from("a plan has two boxes"));
    }
    let picture = frame_picture(alloc, plan, 1)?;
    Ok(found_in(alloc, picture.as_str())?)
}

// What is found of a frame of so many levers with so many rows.
fn found_at(alloc: Global, levers: u32, rows: u32, is_one_post: bool) -> Result<Found, Fail> {
    let wanted = Wanted {
        boxes: 2,
        places: 64,
        levers,
        is_one_post,
    };
    match plan_of(alloc, wanted, rows) {
        Ok(plan) => found_of(alloc, &plan),
        Err(_) => Err(Fail::from("the plan of a frame is read")),
    }
}

// Whether nothing overlaps in a frame of so many levers with so many rows, and it has at least so many words.
fn is_clean(
    alloc: Global,
    levers: u32,
    rows: u32,
    is_one_post: bool,
    words: u64,
) -> Result<bool, Fail> {
    let found = found_at(alloc, levers, rows, is_one_post)?;
    Ok(found.covered == 0 && found.without == 0 && found.words >= words)
}

#[test]
fn nothing_overlaps_in_a_frame(rt: HostRuntime) -> Result<(), Fail> {
    let alloc = rt.alloc();
    let one = is_clean(alloc, 1, 0, true, 15)?;
    let two = is_clean(alloc, 2, 0, true, 20)?;
    let sixty = is_clean(alloc, 60, 400, true, 1000)?;
    let mixed = is_clean(alloc, 120, 0, false, 400)?;
    let most = is_clean(alloc, 120, 400, true, 2000)?;
    assert!(rt; one && two && sixty && mixed && most, "frames");
    Ok(())
}
