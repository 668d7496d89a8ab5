//! The findings on a plan as they are told, and behind a text.

ghost use Rattle.std.specs.Prelude.{All};
ghost use Rattle.plan_check.specs.Found.{IsOfPlan};

use crate::facts::{holds, is_text};
use crate::lines::absolute;
use line_plan::Plan;
use plan_check::{Finding, check_plan, clash_law, findings_law, print_findings, put_findings};
use rail_text::NoMemory;
use std::alloc::{AllocError, Global};
use std::test::Fail;

// Two levers of a plan have no row.
const WITHOUT_ROWS: [Finding; 2] = [
    Finding::LeverWithoutRow {
        box_no: 0,
        lever: 8,
    },
    Finding::LeverWithoutRow {
        box_no: 1,
        lever: 1,
    },
];

// Are the two levers told as they are printed?
fn are_printed(alloc: Global, plan: &Plan, findings: &[Finding]) -> Result<bool, NoMemory>
    requires { All (IsOfPlan plan.now) findings.now }
{
    let printed = print_findings(alloc, plan, findings)?;
    let text = "findings 2\nbox Ash lever 8 has no row\nbox Beech lever 1 has no row\n";
    Ok(is_text(printed, text))
}

// Are the two levers found and printed?
fn are_found(alloc: Global, plan: &Plan) -> Result<bool, NoMemory> {
    let findings = check_plan(alloc, plan)?;
    let are_told = findings.as_slice() == WITHOUT_ROWS.as_slice();
    let are_printed = are_printed(alloc, plan, &findings);
    drop(findings);
    Ok(are_told & are_printed?)
}

// Do no findings stand behind a text?
fn stand_behind(alloc: Global, plan: &Plan) -> Result<bool, AllocError> {
    let mut text = String::from_str(alloc, "check\n")?;
    let put = put_findings(&mut text, plan, &[]);
    let are_behind = text.as_str() == "check\nfindings 0\n";
    drop(text);
    put?;
    Ok(are_behind)
}

#[test]
fn findings_are_told(rt: HostRuntime) -> Result<(), Fail> {
    clash_law();
    findings_law();
    let plan = absolute(rt.alloc())?;
    let are_found = are_found(rt.alloc(), &plan);
    let stand_behind = stand_behind(rt.alloc(), &plan);
    drop(plan);
    holds(&rt, "levers without a row", are_found?);
    holds(&rt, "findings behind a text", stand_behind?);
    Ok(())
}
