//! The circles of rows round which levers are held.

ghost use Rattle.std.specs.Prelude.{◌≡◌, All, IfOk, position};
ghost use Rattle.locking_table.specs.Places.{IsLever};
ghost use Rattle.locking_table.specs.Sound.{RowFits};
ghost use Rattle.row_circles.specs.Circles.{AreHolders};
ghost use Rattle.frame_report.specs.Report.{AreBlamed, AreCircles, AreRound, holders_in};

use crate::report::LeverReport;
use frame_walk::Walk;
use locking_table::NoMemory;
use row_circles::circle_of;
use std::alloc::Global;

// The first row that is marked.
fn first_marked(marks: &[bool]) -> Option<usize>
    ensures { result ≡ position (λ mark. mark) marks.now }
{
    marks.iter().position(|mark| *mark)
}

// For each lever the first of the rows to blame, if there is one.
fn holders_in(alloc: Global, reports: &[LeverReport]) -> Result<Vec<Option<usize>>, NoMemory>
    ensures { IfOk result (λ holders. holders.items ≡ holders_in reports.now) }
{
    let mut holders = Vec::new(alloc);
    for report in reports {
        holders.push(first_marked(&report.holding))?;
    }
    Ok(holders)
}

// The circle to which the first rows to blame lead from a lever; none where they lead to none.
#[tactic(auto, using(crate::proofs::CircleLemmas::round_is))]
fn round_of(
    alloc: Global,
    walk: &Walk,
    holders: &[Option<usize>],
    lever: u32,
) -> Result<Vec<u32>, NoMemory>
    requires rows { All (RowFits walk.now.levers) walk.now.rows }
    requires holders { AreHolders walk.now holders.now }
    requires lever { IsLever walk.now.levers lever }
    ensures { IfOk result (λ circle. AreRound walk.now holders.now lever circle.items) }
{
    match circle_of(alloc, walk, holders, lever)? {
        Some(circle) => Ok(circle),
        None => Ok(Vec::new(alloc)),
    }
}

// The same for each lever.
fn rounds_of(
    alloc: Global,
    walk: &Walk,
    holders: &[Option<usize>],
) -> Result<Vec<Vec<u32>>, NoMemory>
    requires rows { All (RowFits walk.now.levers) walk.now.rows }
    requires holders { AreHolders walk.now holders.now }
    ensures { IfOk result (λ circles. AreCircles walk.now holders.now walk.now.levers circles.items) }
{
    let mut circles = Vec::new(alloc);
    for i in 0..walk.levers() {
        circles.push(round_of(alloc, walk, holders, i + 1)?)?;
    }
    Ok(circles)
}

/// For each lever the circle to which the first rows to blame lead from it; none where they lead to none.
pub fn circles_of(
    alloc: Global,
    walk: &Walk,
    reports: &[LeverReport],
) -> Result<Vec<Vec<u32>>, NoMemory>
    requires rows { All (RowFits walk.now.levers) walk.now.rows }
    requires blamed { AreBlamed walk.now reports.now }
    ensures { IfOk result (λ circles.
        AreCircles walk.now (holders_in reports.now) walk.now.levers circles.items) }
{
    let holders = holders_in(alloc, reports)?;
    rounds_of(alloc, walk, &holders)
}
