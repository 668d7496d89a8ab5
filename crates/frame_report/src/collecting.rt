//! What is found of each lever and each row of a frame.

ghost use Rattle.std.specs.Prelude.{◌≡◌, ◌↔◌, ◌-◌, ◌<◌, ◌∷◌, [], All, IfOk, IsTrue, length};
ghost use Rattle.locking_table.specs.Places.{IsLever};
ghost use Rattle.locking_table.specs.Sound.{RowFits};
ghost use Rattle.frame_walk.specs.Walked.{IsWalked};
ghost use Rattle.frame_findings.specs.Findings.{IsFinding};
ghost use Rattle.row_findings.specs.Redundant.{IsUse};
ghost use Rattle.frame_findings.specs.declared.finding.Finding.TheVariants.{Open};
ghost use Rattle.frame_report.specs.Report.{AreCovering, AreHolding, AreInPlace, AreLeverReports, AreReasons};
ghost use Rattle.frame_report.specs.Report.{AreRowReports, IsPairInPlace, IsPairReport, IsPairUnless, any_marked};
ghost use Rattle.frame_report.specs.Report.{AreToBlame, AreTogether, IsInPlace, IsLeverReport};
ghost use Rattle.frame_report.specs.Report.{IsRowReport, IsWayFound, IsWayThere, finding_by};

use crate::report::{LeverReport, PairReport, RowReport};
use frame_findings::{Finding, Findings, holds_always};
use frame_walk::Walk;
use frame_ways::way_to;
use locking_table::{NoMemory, Row};
use row_covers::{RowPair, pair_in_place};
use row_findings::{RowUse, covers, row_uses};
use row_refutations::refutation;
use std::alloc::Global;

/// Rows that refute that levers are ever reversed together, by their places from 0; none where none are found.
pub fn reasons_of(alloc: Global, walk: &Walk, levers: &[u32]) -> Result<Vec<u32>, NoMemory>
    ensures { IfOk result (λ places. AreReasons walk.now levers.now places.items) }
{
    match refutation(alloc, walk.table().rows(), walk.levers(), levers)? {
        Some(places) => Ok(places),
        None => Ok(Vec::new(alloc)),
    }
}

/// A way on which levers come to be reversed together, if one is found beside the walk.
pub fn way_of(alloc: Global, walk: &Walk, levers: &[u32]) -> Result<Option<Vec<u32>>, NoMemory>
    requires walked { IsWalked walk.now }
    requires rows { All (RowFits walk.now.levers) walk.now.rows }
    requires levers { All (IsLever walk.now.levers) levers.now }
    ensures { IfOk result (IsWayThere walk.now levers.now) }
{
    way_to(alloc, walk.table(), walk.levers(), levers)
}

// Whether such a way is found.
#[tactic(auto, using(crate::proofs::WayLemmas::way_found))]
fn has_way(alloc: Global, walk: &Walk, levers: &[u32]) -> Result<bool, NoMemory>
    requires walked { IsWalked walk.now }
    requires rows { All (RowFits walk.now.levers) walk.now.rows }
    requires levers { All (IsLever walk.now.levers) levers.now }
    ensures { IfOk result (IsWayFound walk.now levers.now) }
{
    match way_of(alloc, walk, levers)? {
        Some(path) => {
            drop(path);
            Ok(true)
        }
        None => Ok(false),
    }
}

// Whether such a way is found, where no rows refute that there is one.
fn has_way_beside(
    alloc: Global,
    walk: &Walk,
    levers: &[u32],
    rows: &[u32],
) -> Result<bool, NoMemory>
    requires walked { IsWalked walk.now }
    requires rows { All (RowFits walk.now.levers) walk.now.rows }
    requires levers { All (IsLever walk.now.levers) levers.now }
    ensures { IfOk result (IsWayFound walk.now levers.now) }
{
    match rows {
        [] => has_way(alloc, walk, levers),
        [_, ..] => Ok(false),
    }
}

// What is found where the walk left it open, by the rows that refute it.
fn finding_by(rows: &[u32]) -> Finding
    ensures { result ≡ finding_by rows.now }
{
    match rows {
        [] => Finding::Open,
        [_, ..] => Finding::Never,
    }
}

// What is found of levers that are reversed together, where the walk left that open: rows may refute it, or a way may
// be found.
#[tactic(auto, using(crate::proofs::ReportLemmas::open_report))]
fn open_pair(alloc: Global, walk: &Walk, levers: &[u32]) -> Result<PairReport, NoMemory>
    requires walked { IsWalked walk.now }
    requires rows { All (RowFits walk.now.levers) walk.now.rows }
    requires levers { All (IsLever walk.now.levers) levers.now }
    requires open { IsFinding walk.now levers.now Open }
    ensures { IfOk result (IsPairReport walk.now levers.now) }
{
    let rows = reasons_of(alloc, walk, levers)?;
    let has_way = has_way_beside(alloc, walk, levers, &rows)?;
    let finding = finding_by(&rows);
    Ok(PairReport {
        finding,
        rows,
        has_way,
    })
}

// What is found of two levers.
fn pair_report(
    alloc: Global,
    walk: &Walk,
    findings: &Findings,
    lever: u32,
    other: u32,
) -> Result<PairReport, NoMemory>
    requires walked { IsWalked walk.now }
    requires rows { All (RowFits walk.now.levers) walk.now.rows }
    requires findings { findings.now ≡ walk.now }
    requires lever { IsLever walk.now.levers lever }
    requires other { IsLever walk.now.levers other }
    ensures { IfOk result (IsPairReport walk.now (lever ∷ other ∷ [])) }
{
    match findings.pair(lever, other) {
        Finding::Open => open_pair(alloc, walk, &[lever, other]),
        Finding::First(at) => Ok(PairReport {
            finding: Finding::First(at),
            rows: Vec::new(alloc),
            has_way: false,
        }),
        Finding::Never => Ok(PairReport {
            finding: Finding::Never,
            rows: Vec::new(alloc),
            has_way: false,
        }),
    }
}

// What is found of a lever and each lever before it.
fn others_of(
    alloc: Global,
    walk: &Walk,
    findings: &Findings,
    lever: u32,
) -> Result<Vec<PairReport>, NoMemory>
    requires walked { IsWalked walk.now }
    requires rows { All (RowFits walk.now.levers) walk.now.rows }
    requires findings { findings.now ≡ walk.now }
    requires lever { IsLever walk.now.levers lever }
    ensures { IfOk result (λ others. AreTogether walk.now lever (lever - 1) others.items) }
{
    let mut others = Vec::new(alloc);
    for k in 1..lever {
        others.push(pair_report(alloc, walk, findings, lever, k)?)?;
    }
    Ok(others)
}

// For each row whether it holds a lever in every state.
fn holding_of(alloc: Global, walk: &Walk, lever: u32) -> Result<Vec<bool>, NoMemory>
    requires walked { IsWalked walk.now }
    requires rows { All (RowFits walk.now.levers) walk.now.rows }
    requires lever { IsLever walk.now.levers lever }
    ensures { IfOk result (λ holding. AreHolding walk.now lever holding.items) }
{
    let mut holding = Vec::new(alloc);
    for row in walk.table().rows() {
        holding.push(holds_always(alloc, walk, row, lever)?)?;
    }
    Ok(holding)
}

// The rows to blame where a lever can never be reversed.
fn to_blame(alloc: Global, walk: &Walk, lever: u32, own: Finding) -> Result<Vec<bool>, NoMemory>
    requires walked { IsWalked walk.now }
    requires rows { All (RowFits walk.now.levers) walk.now.rows }
    requires lever { IsLever walk.now.levers lever }
    ensures { IfOk result (λ holding. AreToBlame walk.now lever own holding.items) }
{
    match own {
        Finding::First(_) => Ok(Vec::new(alloc)),
        Finding::Never => holding_of(alloc, walk, lever),
        Finding::Open => Ok(Vec::new(alloc)),
    }
}

// Whether a way is found on which a lever is reversed, where the walk left that open.
fn own_way(alloc: Global, walk: &Walk, lever: u32, own: Finding) -> Result<bool, NoMemory>
    requires walked { IsWalked walk.now }
    requires rows { All (RowFits walk.now.levers) walk.now.rows }
    requires lever { IsLever walk.now.levers lever }
    ensures { IfOk result (IsWayFound walk.now (lever ∷ [])) }
{
    match own {
        Finding::Open => has_way(alloc, walk, &[lever]),
        Finding::First(_) | Finding::Never => Ok(false),
    }
}

// What is found of a lever.
fn lever_report(
    alloc: Global,
    walk: &Walk,
    findings: &Findings,
    numbers: &[u32],
    lever: u32,
) -> Result<LeverReport, NoMemory>
    requires walked { IsWalked walk.now }
    requires rows { All (RowFits walk.now.levers) walk.now.rows }
    requires findings { findings.now ≡ walk.now }
    requires numbers { length numbers.now ≡ walk.now.levers }
    requires lever { IsLever walk.now.levers lever }
    ensures { IfOk result (IsLeverReport walk.now numbers.now lever) }
{
    let own = findings.lever(lever);
    let has_way = own_way(alloc, walk, lever, own)?;
    let others = others_of(alloc, walk, findings, lever)?;
    let holding = to_blame(alloc, walk, lever, own)?;
    Ok(LeverReport {
        number: numbers[lever as usize - 1],
        own,
        has_way,
        others,
        holding,
    })
}

/// What is found of each lever.
pub fn lever_reports(
    alloc: Global,
    walk: &Walk,
    findings: &Findings,
    numbers: &[u32],
) -> Result<Vec<LeverReport>, NoMemory>
    requires walked { IsWalked walk.now }
    requires rows { All (RowFits walk.now.levers) walk.now.rows }
    requires findings { findings.now ≡ walk.now }
    requires numbers { length numbers.now ≡ walk.now.levers }
    ensures { IfOk result (λ reports. AreLeverReports walk.now numbers.now walk.now.levers reports.items) }
{
    let mut reports = Vec::new(alloc);
    for i in 0..walk.levers() {
        reports.push(lever_report(alloc, walk, findings, numbers, i + 1)?)?;
    }
    Ok(reports)
}

// Whether another row holds all that the row at a place holds.
fn is_in_place(alloc: Global, walk: &Walk, at: usize, other: usize) -> Result<bool, NoMemory>
    requires walked { IsWalked walk.now }
    requires rows { All (RowFits walk.now.levers) walk.now.rows }
    requires at { at < length walk.now.rows }
    requires other { other < length walk.now.rows }
    ensures { IfOk result (λ does. IsTrue does ↔ IsInPlace walk.now at other) }
{
    if other == at {
        return Ok(false);
    }
    let rows = walk.table().rows();
    let does = covers(alloc, walk, &rows[other], &rows[at])?;
    Ok(does)
}

// For each row whether it holds all that the row at a place holds.
fn covering_of(alloc: Global, walk: &Walk, at: usize) -> Result<Vec<bool>, NoMemory>
    requires walked { IsWalked walk.now }
    requires rows { All (RowFits walk.now.levers) walk.now.rows }
    requires at { at < length walk.now.rows }
    ensures { IfOk result (λ covering. AreCovering walk.now at covering.items) }
{
    let mut covering = Vec::new(alloc);
    for other in 0..walk.table().len() {
        covering.push(is_in_place(alloc, walk, at, other)?)?;
    }
    Ok(covering)
}

// The rows that hold as much, where the row at a place is redundant.
fn in_place(alloc: Global, walk: &Walk, at: usize, row_use: RowUse) -> Result<Vec<bool>, NoMemory>
    requires walked { IsWalked walk.now }
    requires rows { All (RowFits walk.now.levers) walk.now.rows }
    requires at { at < length walk.now.rows }
    ensures { IfOk result (λ covering. AreInPlace walk.now at row_use covering.items) }
{
    match row_use {
        RowUse::Needed => Ok(Vec::new(alloc)),
        RowUse::Redundant => covering_of(alloc, walk, at),
        RowUse::Open => Ok(Vec::new(alloc)),
    }
}

/// Whether any row is marked.
pub fn any_marked(marks: &[bool]) -> bool
    ensures { result ≡ any_marked marks.now }
{
    marks.iter().any(|mark| *mark)
}

// The first two rows that together hold all that the row at a place holds, where no single row does.
fn pair_unless(
    alloc: Global,
    walk: &Walk,
    at: usize,
    single: bool,
) -> Result<Option<RowPair>, NoMemory>
    requires walked { IsWalked walk.now }
    requires rows { All (RowFits walk.now.levers) walk.now.rows }
    requires at { at < length walk.now.rows }
    ensures { IfOk result (IsPairUnless walk.now at single) }
{
    if single {
        Ok(None)
    } else {
        pair_in_place(alloc, walk, at)
    }
}

// The same, where the row at a place is redundant; `covering` marks the rows that each hold as much.
fn pair_of(
    alloc: Global,
    walk: &Walk,
    at: usize,
    row_use: RowUse,
    covering: &[bool],
) -> Result<Option<RowPair>, NoMemory>
    requires walked { IsWalked walk.now }
    requires rows { All (RowFits walk.now.levers) walk.now.rows }
    requires at { at < length walk.now.rows }
    ensures { IfOk result (IsPairInPlace walk.now at row_use covering.now) }
{
    match row_use {
        RowUse::Needed => Ok(None),
        RowUse::Redundant => pair_unless(alloc, walk, at, any_marked(covering)),
        RowUse::Open => Ok(None),
    }
}

/// What is found of each row.
pub fn row_reports(alloc: Global, walk: &Walk) -> Result<Vec<RowReport>, NoMemory>
    requires walked { IsWalked walk.now }
    requires rows { All (RowFits walk.now.levers) walk.now.rows }
    ensures { IfOk result (λ reports. AreRowReports walk.now (length walk.now.rows) reports.items) }
{
    let uses = row_uses(alloc, walk)?;
    let mut reports = Vec::new(alloc);
    for (at, row_use) in uses.iter().enumerate() {
        let covering = in_place(alloc, walk, at, *row_use)?;
        let pair = pair_of(alloc, walk, at, *row_use, &covering)?;
        reports.push(RowReport {
            row_use: *row_use,
            covering,
            pair,
        })?;
    }
    Ok(reports)
}
