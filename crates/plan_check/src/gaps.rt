//! The findings between the boxes: sections that lack a berth or a starter.

ghost use Rattle.std.specs.Prelude.{◌≡◌, ◌++◌, ◌+◌, ◌<◌, OnOk, length, option_map};
ghost use Rattle.std.specs.List.{flat_map};
ghost use Rattle.line_plan.specs.Sections.{IsSection, sections_of};
ghost use Rattle.plan_check.specs.Found.{pair_findings, section_findings};

use crate::finding::Finding;
use block_words::Way;
use line_plan::{Plan, Section};
use rail_text::NoMemory;

// What a section lacks.
fn add_gap(found: &mut Vec<Finding>, plan: &Plan, section: Section) -> Result<(), NoMemory>
    requires { IsSection plan.now section }
    ensures { OnOk result (found.new.items ≡ found.old.items ++ section_findings plan.now section) }
{
    let starter = section.starter(plan);
    let berth = section.berth(plan);
    match (starter, berth) {
        (Some(_), None) => found.push(Finding::NoBerth { section })?,
        (None, Some(_)) => found.push(Finding::NoStarter { section })?,
        _ => (),
    }
    Ok(())
}

// What the two sections between a box and the next lack: the down line's, then the up line's.
fn add_pair(found: &mut Vec<Finding>, plan: &Plan, rear: u32) -> Result<(), NoMemory>
    requires { rear + 1 < length plan.now.boxes }
    ensures { OnOk result (found.new.items ≡ found.old.items ++ pair_findings plan.now rear) }
{
    plan.meets_conditions();
    add_gap(
        found,
        plan,
        Section {
            rear,
            way: Way::Down,
        },
    )?;
    add_gap(
        found,
        plan,
        Section {
            rear: rear + 1,
            way: Way::Up,
        },
    )
}

/// Adds what the sections of a line lack, in the order in which they are printed.
pub fn add_gaps(found: &mut Vec<Finding>, plan: &Plan) -> Result<(), NoMemory>
    ensures { OnOk result (found.new.items
        ≡ found.old.items ++ flat_map (section_findings plan.now) (sections_of plan.now)) }
{
    for rear in 0..plan.boxes.len() - 1 {
        add_pair(found, plan, rear as u32)?;
    }
    Ok(())
}
