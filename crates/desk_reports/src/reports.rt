//! What is printed of a plan alone, built whole: its findings, and its upgrade.

ghost use Rattle.std.specs.Prelude.{◌≡◌, ℕ, List, IfOk, IsErrOf};
ghost use Rattle.rail_text.specs.Causes.{Rose};
ghost use Rattle.plan_text.specs.Printing.{plan_text};
ghost use Rattle.line_plan.specs.Upgrades.{upgraded};
ghost use Rattle.plan_check.specs.Found.{findings_of};
ghost use Rattle.plan_check.specs.Texts.{findings_text};
ghost use Rattle.desk_reports.specs.Reports.{findings_told, upgrade_told};
ghost use Rattle.text_fetch.specs.FromTexts.{Makes};

use line_plan::Plan;
use plan_check::{check_plan, print_findings};
use plan_text::{into_upgraded, print_plan};
use rail_text::{NoMemory, Shelf};
use std::alloc::Global;
use text_fetch::{Stop, fetch_plan};

// The findings on a plan as they are printed.
fn findings_text(alloc: Global, plan: &Plan) -> Result<Vec<u8>, NoMemory>
    ensures { IfOk result (λ text. text.items ≡ findings_text plan.now (findings_of plan.now)) }
{
    let findings = check_plan(alloc, plan)?;
    print_findings(alloc, plan, &findings)
}

// The upgrade of a plan as it is printed.
fn upgrade_text(alloc: Global, plan: Plan) -> Result<Vec<u8>, NoMemory>
    ensures { IfOk result (λ text. text.items ≡ plan_text (upgraded plan)) }
{
    let newer = into_upgraded(plan);
    let text = print_plan(alloc, &newer);
    drop(newer);
    text
}

/// The findings on the named plan; or why there are none.
pub fn check_outcome<S: Shelf>(
    alloc: Global,
    shelf: &mut S,
    plan_name: &str,
) -> Result<Vec<u8>, Stop>
    ensures told { Makes (λ text. text.items) result (findings_told (S.held shelf.old) plan_name.now) }
    ensures fault { IsErrOf result Stop.ShelfFault
        → Rose (S.faults shelf.old plan_name.now) (S.faults shelf.new plan_name.now) }
    ensures same { (n : List ℕ) → S.held shelf.new n ≡ S.held shelf.old n }
{
    let plan = fetch_plan(alloc, shelf, plan_name)?;
    let text = findings_text(alloc, &plan);
    drop(plan);
    match text {
        Ok(text) => Ok(text),
        Err(NoMemory) => Err(Stop::NoMemory),
    }
}

/// The upgrade of the named plan; or why there is none.
pub fn upgrade_outcome<S: Shelf>(
    alloc: Global,
    shelf: &mut S,
    plan_name: &str,
) -> Result<Vec<u8>, Stop>
    ensures told { Makes (λ text. text.items) result (upgrade_told (S.held shelf.old) plan_name.now) }
    ensures fault { IsErrOf result Stop.ShelfFault
        → Rose (S.faults shelf.old plan_name.now) (S.faults shelf.new plan_name.now) }
    ensures same { (n : List ℕ) → S.held shelf.new n ≡ S.held shelf.old n }
{
    let plan = fetch_plan(alloc, shelf, plan_name)?;
    match upgrade_text(alloc, plan) {
        Ok(text) => Ok(text),
        Err(NoMemory) => Err(Stop::NoMemory),
    }
}
