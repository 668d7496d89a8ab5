//! The scripts of a line, worked while an observer fills his board.

ghost use Rattle.std.specs.Prelude.{◌≡◌, ◌≤◌, ◌<◌, ◌+◌, ◌++◌, ℕ, List, length, slice_index_or};
ghost use Rattle.line_watch.specs.declared.sight.Sight.{Sight};
ghost use Rattle.line_watch.specs.Watching.{RoundsInTurn, Watches};
ghost use Rattle.line_working.specs.Working.{CanWork, DidWork};
ghost use Rattle.script_text.specs.declared.script.Script.{Script};
ghost use Rattle.signalman_seats.specs.Men.{Man};

use instrument_rule::Line;
use line_watch::{Board, Watcher};
use line_working::{Gate, work_line};
use script_text::Script;
use signalman_seats::Signalman;
use std::alloc::Global;
use std::sync::Wait;
use std::thread::{Threads, join_mut};

/// Each signalman works his script, on a thread of his own, as [`work_line`] says; and beside them, on a thread of his
/// own, an observer fills all rounds of his board but the last. Where a thread can't be started the caller does its
/// work, with the same promise. It may wait for the threads that it started.
pub fn work_beside<R: Threads + Wait + Sync, G: Gate>(
    rt: &R,
    alloc: Global,
    line: &Line,
    scripts: &[Script],
    looks: u32,
    gate: &G,
    board: &mut Board,
    watcher: &mut Watcher,
    men: &mut [Signalman],
)
    requires some { 0 < length men.old }
    requires count { length scripts.now ≡ length men.old }
    requires ready { (i : ℕ) (d : Man) (e : Script) → i < length men.old
        → CanWork line.now.table.shared.table_id line.now.table.shared.key (slice_index_or scripts.now i e)
        (slice_index_or men.old i d) }
    requires looks { 1 ≤ looks }
    requires left { 0 < board.old.left }
    requires plan { board.old.boxes ≡ length line.now.table.shared.key.boxes }
    requires line { Watches line.now.table.shared.table_id line.now.table.shared.key watcher.old }
    ensures count { length men.new ≡ length men.old }
    ensures worked { (i : ℕ) (d : Man) (e : Script) → i < length men.old
        → DidWork line.now.table.shared.table_id line.now.table.shared.key (slice_index_or scripts.now i e) looks
        (slice_index_or men.old i d) (slice_index_or men.new i d) }
    ensures line { Watches line.now.table.shared.table_id line.now.table.shared.key watcher.new }
    ensures filled { (rounds : List (List Sight))
        × (board.new ≡ record {
          boxes = board.old.boxes;
          left = 1;
          rounds = board.old.rounds ++ rounds;
        })
        × (length rounds + 1 ≡ board.old.left)
        × RoundsInTurn line.now.table.shared.key rounds watcher.old.view.seen watcher.new.view.seen }
{
    join_mut(
        rt,
        &mut || board.fill_to_last(line, watcher),
        &mut ||
            requires { (0 < length men.now) × (length scripts.now ≡ length men.now) × (1 ≤ looks)
                × ((i : ℕ) (d : Man) (e : Script) → i < length men.now
                → CanWork line.now.table.shared.table_id line.now.table.shared.key (slice_index_or scripts.now i e)
                (slice_index_or men.now i d)) }
            ensures { (length men.exit.now ≡ length men.entry.now)
                × ((i : ℕ) (d : Man) (e : Script) → i < length men.entry.now
                → DidWork line.entry.now.table.shared.table_id line.entry.now.table.shared.key
                (slice_index_or scripts.entry.now i e) looks (slice_index_or men.entry.now i d)
                (slice_index_or men.exit.now i d)) }
        { work_line(rt, alloc, line, men, scripts, looks, gate) },
    );
}
