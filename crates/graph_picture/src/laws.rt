//! No two places of a line are drawn at one level.

ghost use Rattle.std.specs.Prelude.{ℕ, ◌+◌, ◌<◌, ◌≤◌, List, length};
ghost use Rattle.graph_picture.specs.Places.{level_at, top_at, tops_of};
ghost use Rattle.line_plan.specs.Plans.{PlanFields, box_at};

/// A law: each place of a box has a level of its own, and each box stands wholly above the next, with room between them
/// for the plain line. A place holds one train at most; so no two stays are drawn over one another.
pub fn apart_law()
    ensures places { (tops : List ℕ) (b one other : ℕ) → one < other
        → level_at tops b one + 14 ≤ level_at tops b other }
    ensures boxes { (plan : PlanFields) (b place : ℕ) → b < length plan.boxes
        → place < length (box_at plan.boxes b).places
        → level_at (tops_of plan) b place + 100 ≤ top_at (tops_of plan) (b + 1) }
{}
