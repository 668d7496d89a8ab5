//! A line that is watched while it is worked by the scripts of its boxes, up to its journal and the observer's board.

ghost use Rattle.std.specs.Prelude.{◌≡◌, ◌≤◌, [], IfOk, length};
ghost use Rattle.line_watch.specs.Shown.{IsBoardOf};
ghost use Rattle.signalman_seats.specs.Lines.{AreFresh};
ghost use Rattle.text_fetch.specs.Runs.{AreScriptsOf};
ghost use Rattle.line_runs.specs.Watched.{AreRoundsOf, IsFilled};
ghost use Rattle.line_runs.specs.Worked.{AreWorked, IsWorkedLine, lengths_of};

use crate::worked::{WorkedLine, closed_line, lengths_of, merged_line, work_alone};
use instrument_rule::Line;
use line_plan::Plan;
use line_watch::Board;
use line_working::Gate;
use rail_text::NoMemory;
use script_text::Script;
use signalman_seats::{OpenError, Signalman, open_line};
use std::alloc::Global;
use std::sync::Wait;
use std::thread::Threads;
use train_register::Ended;
use watch_working::work_watched;

/// A line that was watched while it was worked, and has ended.
#[derive(Drop)]
pub struct WatchedLine {
    /// Its journal, and the registers of its boxes.
    pub worked: WorkedLine,
    /// What the observer saw of it.
    pub board: Board,
}

// Lets each man of an open line work his script while an observer fills his board, and closes the line.
fn watch_and_close<R: Threads + Wait + Sync, G: Gate>(
    rt: &R,
    alloc: Global,
    plan: &Plan,
    scripts: &[Script],
    line: Line,
    mut men: Vec<Signalman>,
    gate: &G,
    board: &mut Board,
) -> Result<Ended, NoMemory>
    requires scripts { AreScriptsOf plan.now scripts.now }
    requires line { line.table.shared.key ≡ plan.now }
    requires men { AreFresh line.table.shared.table_id plan.now (lengths_of scripts.now) men.items }
    requires left { 1 ≤ board.old.left }
    requires blank { board.old ≡ record {
      boxes = length plan.now.boxes;
      left = board.old.left;
      rounds = [];
    } }
    ensures worked { IfOk result (λ ended. AreWorked plan.now scripts.now ended.registers) }
    ensures filled { IsFilled plan.now board.old.left board.new }
    ensures shown { IfOk result (λ ended. AreRoundsOf plan.now ended.registers board.new.rounds) }
{
    plan.meets_conditions();
    work_watched(rt, alloc, &line, scripts, plan.looks, gate, board, &mut men);
    closed_line(alloc, line, men)
}

// The registers of an open line that is watched for so many rounds while its men work their scripts, and the board.
fn ended_and_board<R: Threads + Wait + Sync, G: Gate>(
    rt: &R,
    alloc: Global,
    plan: &Plan,
    scripts: &[Script],
    rounds: u32,
    line: Line,
    men: Vec<Signalman>,
    gate: &G,
) -> Result<(Ended, Board), NoMemory>
    requires scripts { AreScriptsOf plan.now scripts.now }
    requires rounds { (1 ≤ rounds) × (rounds ≤ 1000) }
    requires line { line.table.shared.key ≡ plan.now }
    requires men { AreFresh line.table.shared.table_id plan.now (lengths_of scripts.now) men.items }
    ensures worked { IfOk result (λ r. AreWorked plan.now scripts.now r.0.registers) }
    ensures filled { IfOk result (λ r. IsFilled plan.now rounds r.1) }
    ensures shown { IfOk result (λ r. AreRoundsOf plan.now r.0.registers r.1.rounds) }
{
    match Board::new(alloc, plan, rounds) {
        Ok(mut board) => {
            match watch_and_close(rt, alloc, plan, scripts, line, men, gate, &mut board) {
                Ok(ended) => Ok((ended, board)),
                Err(NoMemory) => {
                    drop(board);
                    Err(NoMemory)
                }
            }
        }
        Err(NoMemory) => {
            drop(line);
            drop(men);
            Err(NoMemory)
        }
    }
}

// A line that is opened and has its men, watched for so many rounds while they work their scripts.
fn watched_by_men<R: Threads + Wait + Sync, G: Gate>(
    rt: &R,
    alloc: Global,
    plan: &Plan,
    scripts: &[Script],
    rounds: u32,
    line: Line,
    men: Vec<Signalman>,
    gate: &G,
) -> Result<WatchedLine, NoMemory>
    requires scripts { AreScriptsOf plan.now scripts.now }
    requires rounds { (1 ≤ rounds) × (rounds ≤ 1000) }
    requires line { line.table.shared.key ≡ plan.now }
    requires men { AreFresh line.table.shared.table_id plan.now (lengths_of scripts.now) men.items }
    ensures worked { IfOk result (λ watched. IsWorkedLine (record { plan = plan.now; scripts = scripts.now })
        watched.worked.journal.entries watched.worked.ended.registers) }
    ensures filled { IfOk result (λ watched. IsFilled plan.now rounds watched.board) }
    ensures shown { IfOk result
        (λ watched. IsBoardOf plan.now watched.worked.journal.entries watched.board.rounds) }
{
    let (ended, board) = ended_and_board(rt, alloc, plan, scripts, rounds, line, men, gate)?;
    match merged_line(alloc, plan, scripts, ended) {
        Ok(worked) => Ok(WatchedLine { worked, board }),
        Err(NoMemory) => {
            drop(board);
            Err(NoMemory)
        }
    }
}

// A line whose scripts are worked on this thread, where the post of a box was taken: each round shows how its
// instruments stand at the end.
fn watched_alone<G: Gate>(
    alloc: Global,
    plan: &Plan,
    scripts: &[Script],
    rounds: u32,
    gate: &G,
) -> Result<WatchedLine, NoMemory>
    requires scripts { AreScriptsOf plan.now scripts.now }
    requires rounds { (1 ≤ rounds) × (rounds ≤ 1000) }
    ensures worked { IfOk result (λ watched. IsWorkedLine (record { plan = plan.now; scripts = scripts.now })
        watched.worked.journal.entries watched.worked.ended.registers) }
    ensures filled { IfOk result (λ watched. IsFilled plan.now rounds watched.board) }
    ensures shown { IfOk result
        (λ watched. IsBoardOf plan.now watched.worked.journal.entries watched.board.rounds) }
{
    let ended = work_alone(alloc, plan, scripts, gate)?;
    let worked = merged_line(alloc, plan, scripts, ended)?;
    match Board::of_journal(alloc, plan, rounds, &worked.journal) {
        Ok(board) => Ok(WatchedLine { worked, board }),
        Err(NoMemory) => {
            drop(worked);
            Err(NoMemory)
        }
    }
}

/// Works the scripts of a plan's boxes as [`worked_line`](crate::worked_line) does, while an observer watches the
/// instruments for so many rounds, the last of them when all calls are made. Where the post of a box was taken there is
/// no line to watch, and each round shows how the instruments stand after the whole journal.
pub fn watched_line<R: Threads + Wait + Sync, G: Gate>(
    rt: &R,
    alloc: Global,
    plan: &Plan,
    scripts: &[Script],
    rounds: u32,
    gate: &G,
) -> Result<WatchedLine, NoMemory>
    requires scripts { AreScriptsOf plan.now scripts.now }
    requires rounds { (1 ≤ rounds) × (rounds ≤ 1000) }
    ensures worked { IfOk result (λ watched. IsWorkedLine (record { plan = plan.now; scripts = scripts.now })
        watched.worked.journal.entries watched.worked.ended.registers) }
    ensures filled { IfOk result (λ watched. IsFilled plan.now rounds watched.board) }
    ensures shown { IfOk result
        (λ watched. IsBoardOf plan.now watched.worked.journal.entries watched.board.rounds) }
{
    let lengths = lengths_of(alloc, scripts)?;
    let opened = open_line(alloc, plan, &lengths);
    drop(lengths);
    match opened {
        Ok((line, men)) => watched_by_men(rt, alloc, plan, scripts, rounds, line, men, gate),
        Err(OpenError::PostTaken { .. }) => watched_alone(alloc, plan, scripts, rounds, gate),
        Err(OpenError::NoMemory) => Err(NoMemory),
    }
}
