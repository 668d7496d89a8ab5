//! The check of a plan.

ghost use Rattle.std.specs.Prelude.{◌≡◌, ◌++◌, All, IfOk, OnOk};
ghost use Rattle.plan_check.specs.FindingFacts.{AreFindings};
ghost use Rattle.plan_check.specs.Found.{IsOfPlan, boxes_findings, findings_of};

use crate::finding::Finding;
use crate::gaps::add_gaps;
use crate::rows::add_box;
use line_plan::Plan;
use rail_text::NoMemory;
use std::alloc::Global;

// The findings in each box.
fn add_boxes(found: &mut Vec<Finding>, plan: &Plan) -> Result<(), NoMemory>
    ensures { OnOk result (found.new.items ≡ found.old.items ++ boxes_findings 0 plan.now.boxes) }
{
    for (box_no, box_plan) in plan.boxes.as_slice().iter().enumerate() {
        add_box(found, box_no as u32, box_plan)?;
    }
    Ok(())
}

/// The findings on a plan: in each box, in order, first the pairs of rows that clash, by the first row and then by the
/// second, then the levers that aren't spare and stand in no row; then, for each section in the order in which sections
/// are printed, whether it has a starter and no berth, or a berth and no starter. Two rows are found exactly where they
/// clash in the frame of their box, a lever exactly where it isn't spare and no row names it, and a section exactly
/// where it lacks a berth or a starter. The line has the boxes and the sections of each finding.
#[tactic(auto, using(crate::proofs::Places::are_there, crate::proofs::Exactly::are_exact))]
pub fn check_plan(alloc: Global, plan: &Plan) -> Result<Vec<Finding>, NoMemory>
    ensures exact { IfOk result (λ findings. findings.items ≡ findings_of plan.now) }
    ensures found { IfOk result (λ findings. AreFindings plan.now findings.items) }
    ensures there { IfOk result (λ findings. All (IsOfPlan plan.now) findings.items) }
{
    plan.meets_conditions();
    let mut found = Vec::new(alloc);
    add_boxes(&mut found, plan)?;
    add_gaps(&mut found, plan)?;
    Ok(found)
}
