//! The neighbours of a box.

ghost use Rattle.std.specs.Prelude.{◌≡◌, IsTrue};
ghost use Rattle.line_law.specs.Known.{knows_side};
ghost use Rattle.line_plan.specs.Plans.{box_name};
ghost use Rattle.line_plan.specs.Sections.{next_box};
ghost use Rattle.box_view.specs.Sides.{leads};

use block_words::Way;
use line_law::knows_side;
use line_plan::{Plan, Section};

/// The neighbour of a box on a side.
pub fn neighbour(plan: &Plan, box_no: u32, side: Way) -> u32
    requires { IsTrue (knows_side plan.now box_no side) }
    ensures { result ≡ next_box box_no side }
{
    let section = Section {
        rear: box_no,
        way: side,
    };
    section.advance(plan)
}

/// The name of the neighbour of a box on a side.
pub fn neighbour_name(plan: &Plan, box_no: u32, side: Way) -> &str
    requires { IsTrue (knows_side plan.now box_no side) }
    ensures { result.now ≡ box_name plan.now (next_box box_no side) }
{
    plan.box_name(neighbour(plan, box_no, side))
}

/// Whether a box has this neighbour on that side.
pub fn leads(plan: &Plan, from: u32, side: Way, to: u32) -> bool
    ensures { result ≡ leads plan.now from side to }
{
    knows_side(plan, from, side) && neighbour(plan, from, side) == to
}
