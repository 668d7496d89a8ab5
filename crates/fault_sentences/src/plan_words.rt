//! What a plan has, as words.

use line_plan::{BoxPlan, Plan};
use rail_text::NoMemory;
use std::alloc::Global;

/// The box with this number.
pub fn box_at(plan: &Plan, box_no: u32) -> Option<&BoxPlan> {
    plan.boxes.as_slice().get(box_no as usize)
}

/// The name of the box with this number; nothing where there is no such box.
pub fn name_of_box(plan: &Plan, box_no: u32) -> &[u8] {
    match box_at(plan, box_no) {
        Some(at) => at.name.as_str().as_bytes(),
        None => &[],
    }
}

/// The number of the box with this name.
pub fn box_named(plan: &Plan, name: &[u8]) -> Option<u32> {
    for (at, each) in plan.boxes.as_slice().iter().enumerate() {
        if each.name.as_str().as_bytes() == name {
            return Some(at as u32);
        }
    }
    None
}

// Adds the names of the boxes.
fn push_boxes<'a>(names: &mut Vec<&'a [u8]>, plan: &'a Plan) -> Result<(), NoMemory> {
    for each in plan.boxes.as_slice() {
        names.push(each.name.as_str().as_bytes())?;
    }
    Ok(())
}

/// The names of the boxes.
pub fn box_names(alloc: Global, plan: &Plan) -> Result<Vec<&[u8]>, NoMemory> {
    let mut names = Vec::new(alloc);
    match push_boxes(&mut names, plan) {
        Ok(()) => Ok(names),
        Err(error) => {
            drop(names);
            Err(error)
        }
    }
}

// Adds the names of the trains that are brought at the box.
fn push_trains<'a>(names: &mut Vec<&'a [u8]>, plan: &'a Plan, box_no: u32) -> Result<(), NoMemory> {
    for train in plan.trains.as_slice() {
        if train.box_no == box_no {
            names.push(train.name.as_str().as_bytes())?;
        }
    }
    Ok(())
}

/// The names of the trains that are brought at the box.
pub fn trains_at(alloc: Global, plan: &Plan, box_no: u32) -> Result<Vec<&[u8]>, NoMemory> {
    let mut names = Vec::new(alloc);
    match push_trains(&mut names, plan, box_no) {
        Ok(()) => Ok(names),
        Err(error) => {
            drop(names);
            Err(error)
        }
    }
}

/// The box at which the train with this name is brought.
pub fn box_of_train(plan: &Plan, name: &[u8]) -> Option<u32> {
    for train in plan.trains.as_slice() {
        if train.name.as_str().as_bytes() == name {
            return Some(train.box_no);
        }
    }
    None
}
