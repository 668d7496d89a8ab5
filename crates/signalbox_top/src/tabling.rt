//! `table [--html] PLAN BOX`: the locking table of a box is printed, or of a frame by itself.

ghost use Rattle.std.specs.Prelude.{◌≡◌, ◌≢◌, ◌<◌, ℕ, List, IfOk, Some, length, string_bytes};
ghost use Rattle.line_plan.specs.Plans.{box_at};
ghost use Rattle.signalbox_words.specs.Commands.{Command};
ghost use Rattle.signalbox_top.specs.Tabling.{IsTable, IsTableOf};
ghost use Rattle.signalbox_top.specs.Top.{Headline, TakesFront};
ghost use Rattle.signalbox_top.specs.Told.{TellsWhy};

use crate::answering::{put_result, tell_trouble};
use crate::frames::meant_frame;
use crate::status::Status;
use explained_texts::{ReasonedShelf, Trouble};
use line_plan::Plan;
use locking_page::box_page;
use locking_sheet::box_table;
use locking_table::NoMemory;
use rail_text::Sink;
use std::alloc::Global;

// The locking table of a box, as a page or as a text.
fn table_as(alloc: Global, html: bool, plan: &Plan, box_no: u32) -> Result<String, NoMemory>
    requires { box_no < length plan.now.boxes }
    ensures { IfOk result (λ text. IsTable html (box_at plan.now.boxes box_no) (string_bytes text)) }
{
    if html {
        box_page(alloc, plan, box_no)
    } else {
        box_table(alloc, plan, box_no)
    }
}

// The same, where want of memory is trouble.
fn table_in(alloc: Global, html: bool, plan: &Plan, box_no: u32) -> Result<String, Trouble>
    requires { box_no < length plan.now.boxes }
    ensures { IfOk result (λ text. IsTable html (box_at plan.now.boxes box_no) (string_bytes text)) }
{
    match table_as(alloc, html, plan, box_no) {
        Ok(text) => Ok(text),
        Err(NoMemory) => Err(Trouble::NoMemory),
    }
}

// The locking table of the frame that is meant.
fn tabled<S: ReasonedShelf>(
    alloc: Global,
    html: bool,
    plan_name: &str,
    box_name: &str,
    shelf: &mut S,
) -> Result<String, Trouble>
    ensures table { IfOk result
        (λ text. IsTableOf (S.held shelf.old) html plan_name.now box_name.now (string_bytes text)) }
    ensures same { (n : List ℕ) → S.held shelf.new n ≡ S.held shelf.old n }
{
    let (plan, box_no) = meant_frame(alloc, shelf, plan_name, box_name)?;
    let table = table_in(alloc, html, &plan, box_no);
    drop(plan);
    table
}

/// Puts the locking table of a box.
pub(crate) fn serve_table<S: ReasonedShelf, K: Sink, L: Sink>(
    alloc: Global,
    html: bool,
    plan_name: &str,
    box_name: &str,
    shelf: &mut S,
    out: &mut K,
    told: &mut L,
) -> Status
    ensures headline { result ≢ Status.Failed → Headline (S.held shelf.old)
        (Some (Command.Table html plan_name.now box_name.now)) result (K.taken out.old) (K.taken out.new) }
    ensures part { result ≡ Status.Failed → TakesFront (K.taken out.old) (K.taken out.new) }
    ensures why { result ≡ Status.Failed
        → TellsWhy (L.taken told.old) (L.taken told.new) (L.faults told.old) (L.faults told.new) }
    ensures same { (n : List ℕ) → S.held shelf.new n ≡ S.held shelf.old n }
{
    match tabled(alloc, html, plan_name, box_name, shelf) {
        Ok(text) => put_result(out, told, text.as_bytes(), Status::Done),
        Err(trouble) => tell_trouble(told, &trouble),
    }
}
