//! Laws of the check of a plan.

ghost use Rattle.std.specs.Prelude.{◌≡◌, ◌↔◌, ℕ, Contains, IsTrue};
ghost use Rattle.locking_table.specs.Sound.{IsRow, RowFits};
ghost use Rattle.locking_table.specs.declared.row.Row.{Row};
ghost use Rattle.line_plan.specs.Plans.{IsPlan, PlanFields};
ghost use Rattle.line_plan.specs.declared.section.Section.{Section};
ghost use Rattle.plan_check.specs.Clashes.{Clash, do_clash};
ghost use Rattle.plan_check.specs.Found.{findings_of};
ghost use Rattle.plan_check.specs.FindingFacts.{HasNoRow, LacksBerth, LacksStarter, RowsClashAt};

use crate::finding::Finding;

/// A law: the test of two rows is met exactly where they clash. They have one subject, and with it at mid no ends of
/// the other levers of the frame let both rows hold.
pub fn clash_law()
    ensures { (levers : ℕ) (first second : Row) → IsRow first → IsRow second → RowFits levers first
        → RowFits levers second → (IsTrue (do_clash first second) ↔ Clash levers first second) }
{}

/// A law of the findings on a plan: each is found exactly where it is so. Two rows are found where they clash in the
/// frame of their box, a lever where it isn't spare and no row names it, a section without a berth where it has a
/// starter, and one without a starter where it has a berth.
pub fn findings_law()
    ensures clash { (plan : PlanFields) (b first second lever : ℕ) → IsPlan plan
        → (Contains (findings_of plan) (Finding.RowsClash b first second lever)
        ↔ RowsClashAt plan b first second lever) }
    ensures lever { (plan : PlanFields) (b lever : ℕ)
        → (Contains (findings_of plan) (Finding.LeverWithoutRow b lever) ↔ HasNoRow plan b lever) }
    ensures no_berth { (plan : PlanFields) (section : Section)
        → (Contains (findings_of plan) (Finding.NoBerth section) ↔ LacksBerth plan section) }
    ensures no_starter { (plan : PlanFields) (section : Section)
        → (Contains (findings_of plan) (Finding.NoStarter section) ↔ LacksStarter plan section) }
{}
