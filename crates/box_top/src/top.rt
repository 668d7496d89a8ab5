//! The top call.

ghost use Rattle.std.specs.Prelude.{◌≤◌, Some};
ghost use Rattle.command_words.specs.Commands.{Command, bytes_of, command_of};
ghost use Rattle.text_fetch.specs.FromTexts.{named};
ghost use Rattle.box_top.specs.Served.{IsServed};

use crate::desk::serve_desk;
use crate::put::{WORDS_LINE, put_outcome, put_text};
use crate::status::Status;
use command_words::{CommandLine, command_of};
use line_runs::{run_outcome, stress_outcome, watch_outcome};
use line_working::Gate;
use rail_text::{NoMemory, Shelf, Sink};
use std::alloc::Global;
use std::sync::Wait;
use std::thread::Threads;

// Runs the scripts of a plan, each on a thread of its own.
fn serve_run<R: Threads + Wait + Sync, S: Shelf, K: Sink, G: Gate>(
    rt: &R,
    alloc: Global,
    plan: &str,
    scripts: &[&str],
    shelf: &mut S,
    out: &mut K,
    gate: &G,
) -> Status
    ensures { IsServed S.held S.faults K.taken K.faults (Some (Command.Run plan.now (named scripts.now)))
        shelf.old shelf.new out.old out.new result }
{
    let outcome = run_outcome(rt, alloc, shelf, plan, scripts, gate);
    put_outcome(alloc, out, outcome)
}

// Runs the scripts of a plan in the same way, while an observer looks at the line's instruments in so many rounds.
fn serve_watch<R: Threads + Wait + Sync, S: Shelf, K: Sink, G: Gate>(
    rt: &R,
    alloc: Global,
    rounds: u32,
    plan: &str,
    scripts: &[&str],
    shelf: &mut S,
    out: &mut K,
    gate: &G,
) -> Status
    requires low { 1 ≤ rounds }
    requires high { rounds ≤ 1000 }
    ensures { IsServed S.held S.faults K.taken K.faults (Some (Command.Watch rounds plan.now (named scripts.now)))
        shelf.old shelf.new out.old out.new result }
{
    let outcome = watch_outcome(rt, alloc, shelf, rounds, plan, scripts, gate);
    put_outcome(alloc, out, outcome)
}

// Does what the words say.
fn serve<R: Threads + Wait + Sync, S: Shelf, K: Sink, G: Gate>(
    rt: &R,
    alloc: Global,
    words: &[String],
    shelf: &mut S,
    out: &mut K,
    gate: &G,
) -> Status
    ensures { IsServed S.held S.faults K.taken K.faults (command_of (bytes_of words.now)) shelf.old shelf.new
        out.old out.new result }
{
    match command_of(alloc, words) {
        Ok(Some(CommandLine::Run { plan, scripts })) => {
            serve_run(rt, alloc, plan, &scripts, shelf, out, gate)
        }
        Ok(Some(CommandLine::Stress { trains })) => {
            let outcome = stress_outcome(rt, alloc, trains, gate);
            put_outcome(alloc, out, outcome)
        }
        Ok(
            Some(
                CommandLine::Watch {
                    rounds,
                    plan,
                    scripts,
                },
            ),
        ) => serve_watch(rt, alloc, rounds, plan, &scripts, shelf, out, gate),
        Ok(Some(CommandLine::Desk(command))) => serve_desk(alloc, command, shelf, out),
        Ok(None) => put_text(out, WORDS_LINE, Status::Words),
        Err(NoMemory) => Status::NoMemory,
    }
}

/// Does what the words of a command line say, those behind the program's name. `run PLAN SCRIPT..` fetches the plan and
/// one script for each of its boxes, in box order, works the scripts, each call behind the gate, and puts the whole
/// output: the journal, the register of each box, the refused calls, and the most trains that each section held.
/// `watch N PLAN SCRIPT..` does the same while an observer looks at the line's instruments in N rounds, and puts the
/// same and then the board of these rounds. `stress N` makes the line of N trains, works it by its own scripts, each
/// call behind the gate, and puts a summary. Every other command is done as `desk_top` does it.
///
/// - `Done`: what the command prints is put. The journal of a run, and that of a made line, is one legal history of the
///   line, and has exactly each script's calls, in order. Each sight of a board is right after some beginning of the
///   journal, the shortest such beginnings never get shorter from round to round, and the last round is right after the
///   whole.
/// - `Words`: the words are no command. Nothing is asked of the shelf, and `words not understood` is put.
/// - `Refused`: `refused text T line L: CAUSE` is put, for what is wrong first in the order of fetching: the plan as
///   text 1, then for `run` and `watch` at its line 0 the number of scripts, then each script or the journal, from text
///   2 on. A made line is never refused.
/// - `ShelfFault`: the fetch of a text that the words name failed, and nothing before it is refused. Nothing is put.
/// - `SinkFault`: the sink failed, and took only a front part of what was to be put.
/// - `NoMemory`: memory ran out. Nothing is put, since the whole output is built first.
pub fn box_top<R: Threads + Wait + Sync, S: Shelf, K: Sink, G: Gate>(
    rt: &R,
    alloc: Global,
    words: &[String],
    shelf: &mut S,
    out: &mut K,
    gate: &G,
) -> Status
    ensures { IsServed S.held S.faults K.taken K.faults (command_of (bytes_of words.now)) shelf.old shelf.new
        out.old out.new result }
{
    serve(rt, alloc, words, shelf, out, gate)
}
