//! Which lever frame a command is of: that of a box of a plan, or one by itself.

ghost use Rattle.std.specs.Prelude.{◌≡◌, ◌<◌, ℕ, List, IfOk, length};
ghost use Rattle.signalbox_top.specs.Frames.{IsFrameMeant, IsMeant, is_alone};

use explained_texts::{ReasonedShelf, Trouble, fetch_box, fetch_frame};
use line_plan::Plan;
use std::alloc::Global;

// Whether this word stands in the place of a plan's name.
#[tactic(auto, unfolding(crate::specs::Frames::is_alone))]
fn is_alone(name: &str) -> bool
    ensures { result ≡ is_alone name.now }
{
    name == "frame-only"
}

// The frame that is meant, where it is told whether it is one by itself.
fn frame_as<S: ReasonedShelf>(
    alloc: Global,
    shelf: &mut S,
    alone: bool,
    plan_name: &str,
    box_name: &str,
) -> Result<(Plan, u32), Trouble>
    ensures frame { IfOk result
        (λ found. IsMeant alone (S.held shelf.old) plan_name.now box_name.now found.0 found.1) }
    ensures at { IfOk result (λ found. found.1 < length found.0.boxes) }
    ensures same { (n : List ℕ) → S.held shelf.new n ≡ S.held shelf.old n }
{
    if alone {
        fetch_frame(alloc, shelf, box_name)
    } else {
        fetch_box(alloc, shelf, plan_name, box_name)
    }
}

/// The frame that is meant by two names: that of a box of a plan; or, where the first is `frame-only`, the one that the
/// text of the second name has by itself. It comes as a plan with the number of the box whose frame it is.
pub(crate) fn meant_frame<S: ReasonedShelf>(
    alloc: Global,
    shelf: &mut S,
    plan_name: &str,
    box_name: &str,
) -> Result<(Plan, u32), Trouble>
    ensures frame { IfOk result
        (λ found. IsFrameMeant (S.held shelf.old) plan_name.now box_name.now found.0 found.1) }
    ensures at { IfOk result (λ found. found.1 < length found.0.boxes) }
    ensures same { (n : List ℕ) → S.held shelf.new n ≡ S.held shelf.old n }
{
    let alone = is_alone(plan_name);
    frame_as(alloc, shelf, alone, plan_name, box_name)
}
