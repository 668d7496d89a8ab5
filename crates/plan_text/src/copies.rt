//! Copies of the parts of a plan.

ghost use Rattle.std.specs.Prelude.{◌≡◌, [], ◌∷◌, ◌++◌, IfOk, OnOk};

use bell_codes::CodeTable;
use line_plan::{BoxPlan, Class, Items, Label, TrainPlan};
use plan_draft::label_of;
use rail_text::NoMemory;
use std::alloc::Global;

fn copied_label(alloc: Global, label: &Label) -> Result<Label, NoMemory>
    ensures { IfOk result (λ copied. copied ≡ label.now) }
{
    label_of(alloc, label.as_str())
}

/// The same codes under the same numbers.
pub fn copied_codes(codes: &CodeTable) -> Result<CodeTable, NoMemory>
    ensures { IfOk result (λ copied. copied ≡ codes.now) }
{
    Ok(codes.clone()?)
}

/// The same classes.
pub fn copied_classes(alloc: Global, classes: &[Class]) -> Result<Items<Class>, NoMemory>
    ensures { IfOk result (λ copied. copied ≡ classes.now) }
{
    let mut copied = Vec::new(alloc);
    for class_plan in classes {
        copied.push(Class {
            name: copied_label(alloc, &class_plan.name)?,
            code: class_plan.code,
        })?;
    }
    Ok(Items::from_vec(copied))
}

/// The same trains.
pub fn copied_trains(alloc: Global, trains: &[TrainPlan]) -> Result<Items<TrainPlan>, NoMemory>
    ensures { IfOk result (λ copied. copied ≡ trains.now) }
{
    let mut copied = Vec::new(alloc);
    for train in trains {
        copied.push(TrainPlan {
            name: copied_label(alloc, &train.name)?,
            class_no: train.class_no,
            box_no: train.box_no,
            place: train.place,
        })?;
    }
    Ok(Items::from_vec(copied))
}

// A box more.
fn push_box(copied: &mut Vec<BoxPlan>, alloc: Global, here: &BoxPlan) -> Result<(), NoMemory>
    ensures { OnOk result (copied.new.items ≡ copied.old.items ++ here.now ∷ []) }
{
    copied.reserve(1)?;
    copied.push_reserved(here.copy(alloc)?);
    Ok(())
}

// These boxes behind none.
fn push_boxes(copied: &mut Vec<BoxPlan>, alloc: Global, boxes: &[BoxPlan]) -> Result<(), NoMemory>
    requires { copied.old.items ≡ [] }
    ensures { OnOk result (copied.new.items ≡ boxes.now) }
{
    for here in boxes {
        push_box(copied, alloc, here)?;
    }
    Ok(())
}

/// The same boxes.
pub fn copied_boxes(alloc: Global, boxes: &[BoxPlan]) -> Result<Items<BoxPlan>, NoMemory>
    ensures { IfOk result (λ copied. copied ≡ boxes.now) }
{
    let mut copied = Vec::new(alloc);
    match push_boxes(&mut copied, alloc, boxes) {
        Ok(()) => Ok(Items::from_vec(copied)),
        Err(fault) => {
            drop(copied);
            Err(fault)
        }
    }
}
