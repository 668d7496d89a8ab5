//! The findings in one box: rows that clash, and levers without a row.

ghost use Rattle.std.specs.Prelude.{◌≡◌, ◌==◌, ◌+◌, ◌++◌, ◌<◌, ◌^◌, OnOk, length};
ghost use Rattle.std.specs.List.{flat_map, list_any};
ghost use Rattle.plan_check.specs.Clashes.{do_clash, opposed};
ghost use Rattle.plan_check.specs.Found.{box_findings, clashes_from, clashes_with, is_spare, lever_findings};
ghost use Rattle.plan_check.specs.Found.{names_lever, stands_in};

use crate::finding::Finding;
use line_plan::{BoxPlan, Kind, Lever};
use locking_table::{Cond, Row, RowKind};
use rail_text::NoMemory;

// Does one kind want its object normal, and the other reversed?
fn are_opposed(first: RowKind, second: RowKind) -> bool
    ensures { result ≡ opposed first second }
{
    match (first, second) {
        (RowKind::LocksNormal, RowKind::ReleasedBy) => true,
        (RowKind::ReleasedBy, RowKind::LocksNormal) => true,
        _ => false,
    }
}

// Whether two rows clash: they have one subject, no conditions, and want one object at opposed ends.
fn do_clash(first: &Row, second: &Row) -> bool
    ensures { result ≡ do_clash first.now second.now }
{
    first.subject == second.subject
        && first.when.as_slice().is_empty()
        && second.when.as_slice().is_empty()
        && first.object == second.object
        && are_opposed(first.kind, second.kind)
}

// The clashes of the row numbered `number` with the rows behind it.
fn add_clashes_with(
    found: &mut Vec<Finding>,
    box_no: u32,
    number: u32,
    row: &Row,
    later: &[Row],
) -> Result<(), NoMemory>
    requires { number + length later.now < 2 ^ 32 }
    ensures { OnOk result (found.new.items
        ≡ found.old.items ++ clashes_with box_no number row.now (number + 1) later.now) }
{
    for (place, other) in later.iter().enumerate() {
        if do_clash(row, other) {
            found.push(Finding::RowsClash {
                box_no,
                first: number,
                second: number + 1 + place as u32,
                lever: row.subject,
            })?;
        }
    }
    Ok(())
}

// The clashes among the rows of a box, by the first row and then by the second.
fn add_clashes(found: &mut Vec<Finding>, box_no: u32, rows: &[Row]) -> Result<(), NoMemory>
    requires { length rows.now < 2 ^ 32 }
    ensures { OnOk result (found.new.items ≡ found.old.items ++ clashes_from box_no 1 rows.now) }
{
    for (place, row) in rows.iter().enumerate() {
        add_clashes_with(found, box_no, place as u32 + 1, row, &rows[place + 1..])?;
    }
    Ok(())
}

// Whether one of the conditions is on a lever.
fn conds_name(conds: &[Cond], lever: u32) -> bool
    ensures { result ≡ list_any (λ cond. cond.lever == lever) conds.now }
{
    conds.iter().any(|cond| cond.lever == lever)
}

// Whether a row names a lever.
fn names_lever(row: &Row, lever: u32) -> bool
    ensures { result ≡ names_lever lever row.now }
{
    row.subject == lever || row.object == lever || conds_name(row.when.as_slice(), lever)
}

// Whether a lever stands in one of the rows.
fn stands_in(rows: &[Row], lever: u32) -> bool
    ensures { result ≡ stands_in rows.now lever }
{
    rows.iter().any(|row| names_lever(row, lever))
}

// The levers of a box that aren't spare and stand in no row.
fn add_levers(
    found: &mut Vec<Finding>,
    box_no: u32,
    rows: &[Row],
    levers: &[Lever],
) -> Result<(), NoMemory>
    ensures { OnOk result (found.new.items ≡ found.old.items ++ flat_map (lever_findings box_no rows.now) levers.now) }
{
    for lever in levers {
        if lever.kind != Kind::Spare && !stands_in(rows, lever.number) {
            found.push(Finding::LeverWithoutRow {
                box_no,
                lever: lever.number,
            })?;
        }
    }
    Ok(())
}

/// Adds the findings in a box: its clashes, then its levers without a row.
pub fn add_box(found: &mut Vec<Finding>, box_no: u32, box_plan: &BoxPlan) -> Result<(), NoMemory>
    ensures { OnOk result (found.new.items ≡ found.old.items ++ box_findings box_no box_plan.now) }
{
    let rows = box_plan.table.rows();
    add_clashes(found, box_no, rows)?;
    add_levers(found, box_no, rows, box_plan.levers.as_slice())
}
