//! The frame of a box, printed: its levers with their colours, and the rows of its locking table.

ghost use Rattle.std.specs.Prelude.{◌≡◌, ◌++◌, ℕ, List, IfOk, IsErrOf, OnOk, string_bytes};
ghost use Rattle.std.specs.List.{flat_map};
ghost use Rattle.rail_text.specs.Causes.{Rose};
ghost use Rattle.desk_reports.specs.Frames.{colour_word, frame_text, frame_told, lever_text, numbered_row};
ghost use Rattle.desk_reports.specs.Frames.{plan_frame_told, rows_text};
ghost use Rattle.text_fetch.specs.FromTexts.{Makes};

use line_plan::{BoxPlan, Kind, Lever, Plan, kind_word};
use locking_table::{Row, put_row};
use rail_text::{Cause, Shelf};
use script_text::put_number;
use std::alloc::{AllocError, Global};
use text_fetch::{Stop, fetch_plan};

// The colour in which the levers of a kind are painted.
fn colour_word(kind: Kind) -> &'static str
    ensures { result.now ≡ colour_word kind }
{
    match kind {
        Kind::Signal => "red",
        Kind::Points => "black",
        Kind::Lock => "blue",
        Kind::Distant => "yellow",
        Kind::Spare => "white",
    }
}

// The line of a lever.
#[tactic(auto, unfolding(crate::specs::Frames::lever_text))]
fn put_lever(out: &mut String, lever: Lever) -> Result<(), AllocError>
    ensures { OnOk result (string_bytes out.new ≡ string_bytes out.old ++ lever_text lever) }
{
    out.push_str("lever ")?;
    put_number(out, u64::from(lever.number))?;
    out.push(' ')?;
    out.push_str(kind_word(lever.kind))?;
    out.push(' ')?;
    out.push_str(colour_word(lever.kind))?;
    out.push('\n')
}

// The lines of all levers.
fn put_levers(out: &mut String, levers: &[Lever]) -> Result<(), AllocError>
    ensures { OnOk result (string_bytes out.new ≡ string_bytes out.old ++ flat_map lever_text levers.now) }
{
    for lever in levers {
        put_lever(out, *lever)?;
    }
    Ok(())
}

// The line of a row with its number.
#[tactic(auto, unfolding(crate::specs::Frames::numbered_row))]
fn put_numbered(out: &mut String, number: usize, row: &Row) -> Result<(), AllocError>
    ensures { OnOk result (string_bytes out.new ≡ string_bytes out.old ++ numbered_row number row.now) }
{
    put_number(out, number as u64)?;
    out.push(' ')?;
    put_row(out, row)?;
    out.push('\n')
}

// The lines of all rows.
fn put_rows(out: &mut String, rows: &[Row]) -> Result<(), AllocError>
    ensures { OnOk result (string_bytes out.new ≡ string_bytes out.old ++ rows_text 1 rows.now) }
{
    for (place, row) in rows.iter().enumerate() {
        put_numbered(out, place + 1, row)?;
    }
    Ok(())
}

// Puts the frame of a box behind a text.
#[tactic(auto, unfolding(crate::specs::Frames::frame_text))]
fn put_frame(out: &mut String, box_plan: &BoxPlan) -> Result<(), AllocError>
    ensures { OnOk result (string_bytes out.new ≡ string_bytes out.old ++ frame_text box_plan.now) }
{
    out.push_str("frame ")?;
    out.push_str(box_plan.name.as_str())?;
    out.push('\n')?;
    put_levers(out, box_plan.levers.as_slice())?;
    let rows = box_plan.table.rows();
    out.push_str("rows ")?;
    put_number(out, rows.len() as u64)?;
    out.push('\n')?;
    put_rows(out, rows)
}

// The frame of a box as it is printed.
fn frame_text(alloc: Global, box_plan: &BoxPlan) -> Result<Vec<u8>, AllocError>
    ensures { IfOk result (λ text. text.items ≡ frame_text box_plan.now) }
{
    let mut out = String::new(alloc);
    put_frame(&mut out, box_plan)?;
    Ok(out.into_bytes())
}

// The frame of the box with this name as it is printed. Where no box has it, the plan's text is refused at its line 0.
fn named_frame(alloc: Global, plan: &Plan, name: &str) -> Result<Vec<u8>, Stop>
    ensures told { Makes (λ text. text.items) result (frame_told plan.now name.now) }
    ensures no_fault { IsErrOf result Stop.ShelfFault → ⊥ }
{
    match plan.box_names.number_of(name) {
        Some(box_no) => Ok(frame_text(alloc, &plan.boxes.as_slice()[box_no as usize])?),
        None => Err(Stop::Refused {
            text: 1,
            line: 0,
            cause: Cause::UnknownName,
        }),
    }
}

/// The frame of the named box of the named plan; or why there is none.
pub fn frame_outcome<S: Shelf>(
    alloc: Global,
    shelf: &mut S,
    plan_name: &str,
    name: &str,
) -> Result<Vec<u8>, Stop>
    ensures told { Makes (λ text. text.items) result
        (plan_frame_told (S.held shelf.old) plan_name.now name.now) }
    ensures fault { IsErrOf result Stop.ShelfFault
        → Rose (S.faults shelf.old plan_name.now) (S.faults shelf.new plan_name.now) }
    ensures same { (n : List ℕ) → S.held shelf.new n ≡ S.held shelf.old n }
{
    let plan = fetch_plan(alloc, shelf, plan_name)?;
    let text = named_frame(alloc, &plan, name);
    drop(plan);
    text
}
