//! The findings on a plan as they are printed.

ghost use Rattle.std.specs.Prelude.{◌≡◌, ◌<◌, ◌++◌, ◌∷◌, All, IfOk, OnErr, OnOk, length, string_bytes};
ghost use Rattle.std.specs.List.{flat_map};
ghost use Rattle.line_plan.specs.Sections.{IsSection};
ghost use Rattle.plan_check.specs.Found.{IsOfPlan};
ghost use Rattle.plan_check.specs.Texts.{box_text, clash_text, finding_text, findings_text, gap_text, lever_text};

use crate::finding::Finding;
use line_plan::{Plan, Section};
use rail_text::NoMemory;
use std::alloc::{AllocError, Global};
use std::fmt::Write;

// A box as it is named.
#[tactic(auto, unfolding(crate::specs::Texts::box_text))]
fn put_box(out: &mut String, plan: &Plan, box_no: u32) -> Result<(), AllocError>
    requires { box_no < length plan.now.boxes }
    ensures { OnOk result (string_bytes out.new ≡ string_bytes out.old ++ box_text plan.now box_no) }
{
    out.push_str("box ")?;
    out.push_str(plan.box_name(box_no))
}

// A section's line, with the word of what it lacks.
fn put_gap(out: &mut String, plan: &Plan, section: Section, lacks: &str) -> Result<(), AllocError>
    requires { IsSection plan.now section }
    ensures { OnOk result (string_bytes out.new ≡ string_bytes out.old ++ gap_text plan.now section lacks.now) }
{
    out.push_str("section ")?;
    section.put_name(out, plan)?;
    out.push_str(" has no ")?;
    out.push_str(lacks)?;
    out.push_str("\n")
}

// The line of two rows that clash.
fn put_clash(
    out: &mut String,
    plan: &Plan,
    box_no: u32,
    rows: (u32, u32),
    lever: u32,
) -> Result<(), AllocError>
    requires { box_no < length plan.now.boxes }
    ensures { OnOk result (string_bytes out.new
        ≡ string_bytes out.old ++ clash_text plan.now box_no rows.0 rows.1 lever) }
{
    let (first, second) = rows;
    put_box(out, plan, box_no)?;
    write!(out, " rows {first} {second}")?;
    write!(out, " never let lever {lever} move\n")
}

// The line of a lever without a row.
fn put_lever(out: &mut String, plan: &Plan, box_no: u32, lever: u32) -> Result<(), AllocError>
    requires { box_no < length plan.now.boxes }
    ensures { OnOk result (string_bytes out.new ≡ string_bytes out.old ++ lever_text plan.now box_no lever) }
{
    put_box(out, plan, box_no)?;
    write!(out, " lever {lever} has no row\n")
}

// A finding's line.
#[tactic(auto, unfolding(crate::specs::Texts::finding_text))]
fn put_finding(out: &mut String, plan: &Plan, finding: Finding) -> Result<(), AllocError>
    requires { IsOfPlan plan.now finding }
    ensures { OnOk result (string_bytes out.new ≡ string_bytes out.old ++ finding_text plan.now finding) }
{
    match finding {
        Finding::RowsClash {
            box_no,
            first,
            second,
            lever,
        } => put_clash(out, plan, box_no, (first, second), lever),
        Finding::LeverWithoutRow { box_no, lever } => put_lever(out, plan, box_no, lever),
        Finding::NoBerth { section } => put_gap(out, plan, section, "berth"),
        Finding::NoStarter { section } => put_gap(out, plan, section, "starter"),
    }
}

// The lines of all findings.
fn put_lines(out: &mut String, plan: &Plan, findings: &[Finding]) -> Result<(), AllocError>
    requires { All (IsOfPlan plan.now) findings.now }
    ensures { OnOk result (string_bytes out.new
        ≡ string_bytes out.old ++ flat_map (finding_text plan.now) findings.now) }
{
    for finding in findings {
        put_finding(out, plan, *finding)?;
    }
    Ok(())
}

// How many findings there are, and the line of each.
#[tactic(auto, unfolding(crate::specs::Texts::findings_text))]
fn put_counted(out: &mut String, plan: &Plan, findings: &[Finding]) -> Result<(), AllocError>
    requires { All (IsOfPlan plan.now) findings.now }
    ensures { OnOk result (string_bytes out.new ≡ string_bytes out.old ++ findings_text plan.now findings.now) }
{
    let count = findings.len();
    write!(out, "findings {count}\n")?;
    put_lines(out, plan, findings)
}

/// Puts the findings on a plan behind a text: `findings` and how many there are, then a line for each. The line has the
/// boxes and the sections that they name. Where memory runs out the text is as it was.
pub fn put_findings(out: &mut String, plan: &Plan, findings: &[Finding]) -> Result<(), AllocError>
    requires { All (IsOfPlan plan.now) findings.now }
    ensures put { OnOk result (string_bytes out.new ≡ string_bytes out.old ++ findings_text plan.now findings.now) }
    ensures kept { OnErr result (string_bytes out.new ≡ string_bytes out.old) }
{
    let mut lines = String::new(*out.allocator());
    put_counted(&mut lines, plan, findings)?;
    out.push_str(lines.as_str())
}

/// The findings on a plan as they are printed: `findings COUNT`, then a line for each, as `box NAME rows R S never let
/// lever L move`, `box NAME lever L has no row`, `section WAY REAR ADVANCE has no berth` or `section WAY REAR ADVANCE
/// has no starter`. The line has the boxes and the sections that they name, as with those that the check of the plan
/// found.
pub fn print_findings(alloc: Global, plan: &Plan, findings: &[Finding]) -> Result<Vec<u8>, NoMemory>
    requires { All (IsOfPlan plan.now) findings.now }
    ensures { IfOk result (λ text. text.items ≡ findings_text plan.now findings.now) }
{
    let mut out = String::new(alloc);
    put_counted(&mut out, plan, findings)?;
    Ok(out.into_bytes())
}
