//! The output of a run that is watched, made whole before any of it is put.

ghost use Rattle.std.specs.Prelude.{◌≡◌, ◌≤◌, ◌∷◌, ◌++◌, ℕ, List, IfOk, IsErrOf, length, string_bytes};
ghost use Rattle.text_fetch.specs.FromTexts.{HasShelfFault, named};
ghost use Rattle.text_fetch.specs.Runs.{AreScriptsOf, run_told, run_told_before};
ghost use Rattle.line_watch.specs.Boards.{board_text};
ghost use Rattle.line_runs.specs.Outputs.{MakesText, output_text};
ghost use Rattle.line_runs.specs.Watched.{IsWatchOf};
ghost use Rattle.line_runs.specs.Worked.{CanBePrinted};

use crate::both::both_made;
use crate::printing::print_output;
use crate::rest::{OutputRest, whole_text};
use crate::watched::{WatchedLine, watched_line};
use line_plan::Plan;
use line_watch::{Board, put_board};
use line_working::Gate;
use rail_text::{NoMemory, Shelf};
use std::alloc::{AllocError, Global};
use std::sync::Wait;
use std::thread::{Threads, join};
use text_fetch::{Inputs, Stop, fetch_inputs};

// The board of a line as it is printed.
fn print_board(alloc: Global, plan: &Plan, board: &Board) -> Result<String, NoMemory>
    requires { board.now.boxes ≡ length plan.now.boxes }
    ensures { IfOk result (λ text. string_bytes text ≡ board_text plan.now board.now.rounds) }
{
    let mut text = String::new(alloc);
    match put_board(&mut text, plan, board) {
        Ok(()) => Ok(text),
        Err(AllocError) => {
            drop(text);
            Err(NoMemory)
        }
    }
}

// What is printed of a line that was watched: the output of its run, up to the lines of its journal's front half, and
// the rest; and the board, which is printed on a thread.
fn print_watch<R: Threads + Sync>(
    rt: &R,
    alloc: Global,
    plan: &Plan,
    watched: &WatchedLine,
) -> Result<((Vec<u8>, OutputRest), String), NoMemory>
    requires printed { CanBePrinted plan.now watched.now.worked.journal.entries watched.now.worked.ended.registers }
    requires board { watched.now.board.boxes ≡ length plan.now.boxes }
    ensures run { IfOk result
        (λ r. r.0.0.items ++ r.0.1 ≡ output_text plan.now watched.now.worked.journal.entries) }
    ensures board { IfOk result (λ r. string_bytes r.1 ≡ board_text plan.now watched.now.board.rounds) }
{
    let run = || -> Result<(Vec<u8>, OutputRest), NoMemory>
        requires { CanBePrinted plan.now watched.now.worked.journal.entries watched.now.worked.ended.registers }
        ensures { IfOk result
            (λ r. r.0.items ++ r.1 ≡ output_text plan.entry.now watched.entry.now.worked.journal.entries) }
    { print_output(rt, alloc, plan, &watched.worked) };
    let board = || -> Result<String, NoMemory>
        requires { watched.now.board.boxes ≡ length plan.now.boxes }
        ensures { IfOk result
            (λ text. string_bytes text ≡ board_text plan.entry.now watched.entry.now.board.rounds) }
    { print_board(alloc, plan, &watched.board) };
    let (run, board) = join(rt, run, board);
    both_made(run, board)
}

// The whole output of a plan and its scripts, watched for so many rounds. It is made one text when nothing else of the
// line is kept.
#[tactic(auto, unfolding(crate::specs::Watched::watch_text))]
fn watch_output<R: Threads + Wait + Sync, G: Gate>(
    rt: &R,
    alloc: Global,
    rounds: u32,
    inputs: &Inputs,
    gate: &G,
) -> Result<Vec<u8>, NoMemory>
    requires scripts { AreScriptsOf inputs.now.plan inputs.now.scripts.items }
    requires rounds { (1 ≤ rounds) × (rounds ≤ 1000) }
    ensures { IfOk result (λ text. IsWatchOf rounds
        (record { plan = inputs.now.plan; scripts = inputs.now.scripts.items }) text.items) }
{
    let watched = watched_line(rt, alloc, &inputs.plan, &inputs.scripts, rounds, gate)?;
    let printed = print_watch(rt, alloc, &inputs.plan, &watched);
    drop(watched);
    let ((front, rest), board) = printed?;
    let text = whole_text(front, rest, board.as_bytes());
    drop(board);
    Ok(text?)
}

/// The output of the run of the named texts, each script worked by its own signalman on a thread of his own, and behind
/// it the board of an observer who watched the line for so many rounds; or why there is none.
pub fn watch_outcome<R: Threads + Wait + Sync, S: Shelf, G: Gate>(
    rt: &R,
    alloc: Global,
    shelf: &mut S,
    rounds: u32,
    plan_name: &str,
    script_names: &[&str],
    gate: &G,
) -> Result<Vec<u8>, Stop>
    requires rounds { (1 ≤ rounds) × (rounds ≤ 1000) }
    ensures told { MakesText (IsWatchOf rounds) (λ text. text.items) result
        (run_told (S.held shelf.old) plan_name.now (named script_names.now)) }
    ensures fault { IsErrOf result Stop.ShelfFault
        → HasShelfFault (S.faults shelf.old) (S.faults shelf.new) (plan_name.now ∷ named script_names.now)
        (run_told_before (S.held shelf.old) plan_name.now (named script_names.now)) }
    ensures same { (n : List ℕ) → S.held shelf.new n ≡ S.held shelf.old n }
{
    let inputs = fetch_inputs(rt, alloc, shelf, plan_name, script_names)?;
    let text = watch_output(rt, alloc, rounds, &inputs, gate);
    drop(inputs);
    match text {
        Ok(text) => Ok(text),
        Err(NoMemory) => Err(Stop::NoMemory),
    }
}
