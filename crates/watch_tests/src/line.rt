//! A line that is opened, worked, watched and closed.

ghost use Rattle.std.specs.Prelude.{◌≡◌, ◌≤◌, [], IfOk, length, replicate};
ghost use Rattle.line_maker.specs.MadeCalls.{AreLineScripts};
ghost use Rattle.line_watch.specs.Shown.{IsBoardOf};
ghost use Rattle.signalman_seats.specs.Lines.{AreFresh, AreMen, Closed};

use instrument_rule::Line;
use line_journal::merge;
use line_law::Journal;
use line_plan::Plan;
use line_watch::{Board, print_board};
use line_working::OpenGate;
use rail_text::NoMemory;
use script_text::{MOST_CALLS, Script};
use signalman_seats::{Signalman, close_line, open_line};
use std::alloc::Global;
use std::sync::Wait;
use std::thread::Threads;
use train_register::Ended;
use watch_working::{watched_law, work_watched};

/// A line that was watched while it was worked, and has ended: its board and its journal.
#[derive(Drop)]
pub struct WatchedLine {
    pub board: Board,
    pub journal: Journal,
}

// A line of a plan with its men, each with room for as many entries as a script may have calls.
fn opened(alloc: Global, plan: &Plan) -> Result<(Line, Vec<Signalman>), NoMemory>
    ensures line { IfOk result (λ r. r.0.table.shared.key ≡ plan.now) }
    ensures men { IfOk result (λ r. AreFresh r.0.table.shared.table_id plan.now
        (replicate (length plan.now.boxes) 10000) r.1.items) }
{
    plan.meets_conditions();
    let rooms = vec![in alloc; MOST_CALLS; plan.boxes.len()]?;
    let opened = open_line(alloc, plan, &rooms);
    drop(rooms);
    match opened {
        Ok(opened) => Ok(opened),
        Err(fault) => {
            drop(fault);
            Err(NoMemory)
        }
    }
}

// The registers of a line, which is closed by its men.
fn ended(alloc: Global, line: Line, men: Vec<Signalman>) -> Result<Ended, NoMemory>
    requires { AreMen line.table.shared.table_id line.table.shared.key men.items }
    ensures { IfOk result (λ ended. Closed line.table.shared.key men.items ended.registers) }
{
    match close_line(alloc, line, men) {
        Ok(ended) => Ok(ended),
        Err(refused) => {
            drop(refused);
            Err(NoMemory)
        }
    }
}

// Lets the men of an open line work these scripts, each on a thread of his own, while an observer fills the board; and
// closes the line and merges its registers.
fn work<R: Threads + Wait + Sync>(
    rt: &R,
    alloc: Global,
    plan: &Plan,
    scripts: &[Script],
    board: &mut Board,
    line: Line,
    mut men: Vec<Signalman>,
) -> Result<Journal, NoMemory>
    requires scripts { AreLineScripts plan.now scripts.now }
    requires line { line.table.shared.key ≡ plan.now }
    requires men { AreFresh line.table.shared.table_id plan.now (replicate (length plan.now.boxes) 10000) men.items }
    requires left { 1 ≤ board.old.left }
    requires boxes { board.old.boxes ≡ length plan.now.boxes }
    requires none { board.old.rounds ≡ [] }
    ensures left { board.new.left ≡ 0 }
    ensures boxes { board.new.boxes ≡ length plan.now.boxes }
    ensures rounds { length board.new.rounds ≡ board.old.left }
    ensures shows { IfOk result (λ journal. IsBoardOf plan.now journal.entries board.new.rounds) }
{
    plan.meets_conditions();
    work_watched(
        rt, alloc, &line, scripts, plan.looks, &OpenGate, board, &mut men,
    );
    let ended = ended(alloc, line, men)?;
    let journal = merge(alloc, plan, &ended);
    drop(ended);
    watched_law();
    journal
}

/// Opens the line of a plan, lets the men work these scripts, each on a thread of his own, while an observer fills a
/// board of so many rounds, and closes the line. The board shows the journal.
///
/// # Errors
///
/// `NoMemory` where the line can't be opened or closed, or there is none for the board or the journal.
pub fn watched<R: Threads + Wait + Sync>(
    rt: &R,
    alloc: Global,
    plan: &Plan,
    scripts: &[Script],
    rounds: u32,
) -> Result<WatchedLine, NoMemory>
    requires scripts { AreLineScripts plan.now scripts.now }
    requires rounds { (1 ≤ rounds) × (rounds ≤ 1000) }
    ensures left { IfOk result (λ line. line.board.left ≡ 0) }
    ensures boxes { IfOk result (λ line. line.board.boxes ≡ length plan.now.boxes) }
    ensures rounds { IfOk result (λ line. length line.board.rounds ≡ rounds) }
    ensures shows { IfOk result (λ line. IsBoardOf plan.now line.journal.entries line.board.rounds) }
{
    let (line, men) = opened(alloc, plan)?;
    match Board::new(alloc, plan, rounds) {
        Ok(mut board) => match work(rt, alloc, plan, scripts, &mut board, line, men) {
            Ok(journal) => Ok(WatchedLine { board, journal }),
            Err(NoMemory) => {
                drop(board);
                Err(NoMemory)
            }
        },
        Err(NoMemory) => {
            drop(men);
            drop(line);
            Err(NoMemory)
        }
    }
}

/// The text of the board of a line that is watched so.
///
/// # Errors
///
/// `NoMemory` where the line can't be opened or closed, or there is none for the board, the journal or the text.
pub fn watched_text<R: Threads + Wait + Sync>(
    rt: &R,
    alloc: Global,
    plan: &Plan,
    scripts: &[Script],
    rounds: u32,
) -> Result<Vec<u8>, NoMemory>
    requires scripts { AreLineScripts plan.now scripts.now }
    requires rounds { (1 ≤ rounds) × (rounds ≤ 1000) }
{
    let line = watched(rt, alloc, plan, scripts, rounds)?;
    let text = print_board(alloc, plan, &line.board);
    drop(line);
    text
}
