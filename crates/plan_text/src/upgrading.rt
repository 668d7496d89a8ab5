//! The upgrade of a plan from minutes to seconds.

ghost use Rattle.std.specs.Prelude.{◌≡◌, IfOk};
ghost use Rattle.line_plan.specs.Upgrades.{upgraded};

use crate::copies::{copied_boxes, copied_classes, copied_codes, copied_trains};
use line_plan::{Plan, copied_names};
use rail_text::NoMemory;
use std::alloc::Global;

// How long a winding takes, in seconds.
fn delay_in_seconds(plan: &Plan) -> u32
    ensures { result ≡ (upgraded plan.now).delay }
{
    if plan.version == 1 {
        plan.delay * 60
    } else {
        plan.delay
    }
}

/// The same plan in version 2. From version 1 the delay's minutes become seconds; a plan of version 2 stays as it is.
pub fn upgrade(alloc: Global, plan: &Plan) -> Result<Plan, NoMemory>
    ensures { IfOk result (λ newer. newer ≡ upgraded plan.now) }
{
    Ok(Plan {
        version: 2,
        delay: delay_in_seconds(plan),
        looks: plan.looks,
        codes: copied_codes(&plan.codes)?,
        classes: copied_classes(alloc, plan.classes.as_slice())?,
        trains: copied_trains(alloc, plan.trains.as_slice())?,
        class_names: copied_names(alloc, &plan.class_names)?,
        box_names: copied_names(alloc, &plan.box_names)?,
        train_names: copied_names(alloc, &plan.train_names)?,
        boxes: copied_boxes(alloc, plan.boxes.as_slice())?,
    })
}

/// The same plan in version 2, as `upgrade` gives it, of a plan that is no longer needed: nothing of it is copied, so
/// it never fails.
pub fn into_upgraded(plan: Plan) -> Plan
    ensures { result ≡ upgraded plan }
{
    let delay = delay_in_seconds(&plan);
    Plan {
        version: 2,
        delay,
        looks: plan.looks,
        codes: plan.codes,
        classes: plan.classes,
        boxes: plan.boxes,
        trains: plan.trains,
        class_names: plan.class_names,
        box_names: plan.box_names,
        train_names: plan.train_names,
    }
}
