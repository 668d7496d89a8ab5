//! A box as its man sees it, as text.

ghost use Rattle.std.specs.Prelude.{◌≡◌, ◌≤◌, ◌<◌, ◌^◌, ◌++◌, ◌∷◌, [], IsTrue, OnOk, codes, length, string_bytes};
ghost use Rattle.line_law.specs.Known.{knows_lever, moments_of};
ghost use Rattle.line_law.specs.Lines.{IsLineOf};
ghost use Rattle.line_law.specs.States.{box_at};
ghost use Rattle.line_plan.specs.Plans.{box_at as box_plan_at, box_name};
ghost use Rattle.box_view.specs.Look.{frame_text, look_text, move_line, move_lines};
ghost use Rattle.box_view.specs.Moves.{may_text};

use crate::block_look::put_block;
use crate::frame_look::put_frame;
use crate::may::{is_moved, move_of, put_words};
use line_law::{Entry, Plain};
use line_plan::{Lever, Plan};
use std::alloc::AllocError;

// Puts the line of a lever behind a text, where it may be moved at this moment.
fn put_move_line(
    out: &mut String,
    plan: &Plan,
    line: &Plain,
    box_no: u32,
    moment: u32,
    lever: Lever,
) -> Result<(), AllocError>
    requires line { IsLineOf plan.now line.now }
    requires few { line.now.calls < 2 ^ 32 }
    requires at { box_no < length plan.now.boxes }
    requires day { moment < moments_of plan.now.version }
    requires later { (box_at line.now.line box_no).moment ≤ moment }
    requires lever { IsTrue (knows_lever plan.now box_no lever.number) }
    ensures { OnOk result (string_bytes out.new
        ≡ string_bytes out.old ++ move_line plan.now line.now.line box_no moment lever) }
{
    let entry = move_of(line, plan, box_no, moment, lever.number);
    if !is_moved(&entry.reply) {
        return Ok(());
    }
    put_words(out, lever.number, " may be ", entry.call.act)?;
    out.push('\n')
}

// Puts the lines of the levers of a box that may be moved at this moment behind a text.
#[tactic(auto, using(rail_text::proofs::Texts::texts, crate::proofs::Levers::lever_there))]
fn put_move_lines(
    out: &mut String,
    plan: &Plan,
    line: &Plain,
    box_no: u32,
    moment: u32,
) -> Result<(), AllocError>
    requires line { IsLineOf plan.now line.now }
    requires few { line.now.calls < 2 ^ 32 }
    requires at { box_no < length plan.now.boxes }
    requires day { moment < moments_of plan.now.version }
    requires later { (box_at line.now.line box_no).moment ≤ moment }
    ensures { OnOk result (string_bytes out.new ≡ string_bytes out.old
        ++ move_lines plan.now line.now.line box_no moment (box_plan_at plan.now.boxes box_no).levers) }
{
    let here = &plan.boxes.as_slice()[box_no as usize];
    for lever in here.levers.as_slice() {
        put_move_line(out, plan, line, box_no, moment, *lever)?;
    }
    Ok(())
}

// Puts the line of a box's name behind a text.
fn put_head(out: &mut String, plan: &Plan, box_no: u32) -> Result<(), AllocError>
    requires { box_no < length plan.now.boxes }
    ensures { OnOk result (string_bytes out.new
        ≡ string_bytes out.old ++ (codes "box " ++ box_name plan.now box_no ++ 10 ∷ [])) }
{
    out.push_str("box ")?;
    out.push_str(plan.box_name(box_no))?;
    out.push('\n')
}

// Puts the levers and places of a box of a line behind a text.
#[tactic(auto, using(crate::proofs::Seen::trains_known, crate::proofs::Seen::places_few))]
fn put_frame_here(
    out: &mut String,
    plan: &Plan,
    line: &Plain,
    box_no: u32,
) -> Result<(), AllocError>
    requires line { IsLineOf plan.now line.now }
    requires at { box_no < length plan.now.boxes }
    ensures { OnOk result (string_bytes out.new ≡ string_bytes out.old
        ++ frame_text plan.now (box_plan_at plan.now.boxes box_no) (box_at line.now.line box_no)) }
{
    plan.meets_conditions();
    let box_plan = &plan.boxes.as_slice()[box_no as usize];
    let here = &line.boxes()[box_no as usize];
    put_frame(out, plan, box_plan, here)
}

/// Puts a box as its man sees it behind a text, in lines of at most 80 columns: its levers in order, with what they
/// work, their ends and arms; its places with the trains on them; the code that stands unheard on each bell to him; for
/// each line that comes in, where it has a berth, what his instrument shows, what holds the commutator back, and the
/// train that comes; for each line that leaves, what the repeater shows; and the levers that may be moved at this
/// moment, which is one of the day at which the box may call. Where memory runs out a part may stand behind the text.
#[tactic(auto, unfolding(crate::specs::Look::look_text))]
pub fn put_look(
    out: &mut String,
    plan: &Plan,
    line: &Plain,
    box_no: u32,
    moment: u32,
) -> Result<(), AllocError>
    requires line { IsLineOf plan.now line.now }
    requires few { line.now.calls < 2 ^ 32 }
    requires at { box_no < length plan.now.boxes }
    requires day { moment < moments_of plan.now.version }
    requires later { (box_at line.now.line box_no).moment ≤ moment }
    ensures { OnOk result (string_bytes out.new
        ≡ string_bytes out.old ++ look_text plan.now line.now.line box_no moment) }
{
    put_head(out, plan, box_no)?;
    put_frame_here(out, plan, line, box_no)?;
    put_block(out, plan, line, box_no)?;
    put_move_lines(out, plan, line, box_no, moment)
}
