//! The scripts of a line, worked while an observer watches it, up to the last round of his board.

ghost use Rattle.std.specs.Prelude.{◌≡◌, ◌≤◌, ◌<◌, ◌++◌, ◌∷◌, [], ℕ, List, length, slice_index_or};
ghost use mathlib.Core.List.{IsPrefix};
ghost use Rattle.instrument_rule.specs.Calls.{Sits};
ghost use Rattle.line_law.specs.declared.call.Entry.{Entry};
ghost use Rattle.line_law.specs.History.{part_of};
ghost use Rattle.line_watch.specs.declared.sight.Sight.{Sight};
ghost use Rattle.line_watch.specs.Watching.{Watches};
ghost use Rattle.line_working.specs.Working.{CanWork, DidWork};
ghost use Rattle.script_text.specs.declared.script.Script.{Script};
ghost use Rattle.signalman_seats.specs.Men.{IsOf, Man};
ghost use Rattle.watch_working.specs.Watched.{BeginsWithAll, FirstHasTaken, IsLastRound, IsWatched};

use crate::beside::work_beside;
use instrument_rule::{Line, Post};
use line_watch::{Board, Watcher};
use line_working::Gate;
use script_text::Script;
use signalman_seats::Signalman;
use std::alloc::Global;
use std::sync::Wait;
use std::thread::Threads;

// The first man takes back the observer's post, and then a post lent by each other man. So what he has seen begins with
// what each of them has seen.
fn gather(line: &Line, post: Post, men: &mut [Signalman])
    requires some { 0 < length men.old }
    requires of_line { (b : ℕ) (d : Man) → b < length men.old
        → IsOf line.now.table.shared.table_id line.now.table.shared.key (slice_index_or men.old b d) }
    requires table { post.seat.table_id ≡ line.now.table.shared.table_id }
    requires watch { Sits line.now.table.shared.key post.seat.me.0 × (post.seat.me.0.posts ≡ []) }
    ensures men { FirstHasTaken line.now.table.shared.key men.old men.new }
    ensures post { (d : Man) → IsPrefix post.seat.me.0.seen (slice_index_or men.new 0 d).view.seen }
    ensures gathered { (d : Man)
        → BeginsWithAll (length men.old) men.old (slice_index_or men.new 0 d).view.seen }
{
    men[0].take_watch(line, post);
    for b in 1..men.len() {
        let post = men[b].lend_watch(line);
        men[0].take_watch(line, post);
    }
}

// The last round of a board, filled when the men have ended: from a post that the first man lends once he has gathered
// the others', and takes back after it.
fn fill_last(line: &Line, board: &mut Board, watcher: Watcher, men: &mut [Signalman])
    requires some { 0 < length men.old }
    requires of_line { (b : ℕ) (d : Man) → b < length men.old
        → IsOf line.now.table.shared.table_id line.now.table.shared.key (slice_index_or men.old b d) }
    requires left { board.old.left ≡ 1 }
    requires plan { board.old.boxes ≡ length line.now.table.shared.key.boxes }
    requires line { Watches line.now.table.shared.table_id line.now.table.shared.key watcher }
    ensures men { FirstHasTaken line.now.table.shared.key men.old men.new }
    ensures part { (d : Man) → (slice_index_or men.new 0 d).entries
        ≡ part_of (slice_index_or men.new 0 d).box_no (slice_index_or men.new 0 d).view.seen }
    ensures filled { (round : List Sight)
        × (board.new ≡ record {
          boxes = board.old.boxes;
          left = 0;
          rounds = board.old.rounds ++ round ∷ [];
        })
        × IsLastRound line.now.table.shared.key watcher.view.seen men.old men.new round }
{
    gather(line, watcher.into_post(), men);
    let mut watcher = Watcher::new(men[0].lend_watch(line));
    board.fill(line, &mut watcher);
    men[0].take_watch(line, watcher.into_post());
    // His entries tell what his type keeps: they are his part of what he has then seen.
    let _entries = men[0].entries();
}

/// Each signalman works his script, on a thread of his own, as [`work_line`](line_working::work_line) says, while an
/// observer fills all rounds of his board but the last, as [`work_beside`] says. When the men have ended, the first man
/// takes back the observer's post and a post lent by each other man, and lends the one from which the observer fills
/// the last round.
///
/// So the last round shows the line when all its calls were made: of the journal of the line, once it is closed, the
/// rounds are a board ([`watched_law`](crate::watched_law)).
pub fn work_watched<R: Threads + Wait + Sync, G: Gate>(
    rt: &R,
    alloc: Global,
    line: &Line,
    scripts: &[Script],
    looks: u32,
    gate: &G,
    board: &mut Board,
    men: &mut [Signalman],
)
    requires some { 0 < length men.old }
    requires count { length scripts.now ≡ length men.old }
    requires ready { (i : ℕ) (d : Man) (e : Script) → i < length men.old
        → CanWork line.now.table.shared.table_id line.now.table.shared.key (slice_index_or scripts.now i e)
        (slice_index_or men.old i d) }
    requires looks { 1 ≤ looks }
    requires left { 0 < board.old.left }
    requires plan { board.old.boxes ≡ length line.now.table.shared.key.boxes }
    ensures count { length men.new ≡ length men.old }
    ensures worked { (i : ℕ) (d : Man) (e : Script) → i < length men.old
        → DidWork line.now.table.shared.table_id line.now.table.shared.key (slice_index_or scripts.now i e) looks
        (slice_index_or men.old i d) (slice_index_or men.new i d) }
    ensures watched { (rounds : List (List Sight)) × (log : List Entry)
        × (board.new ≡ record {
          boxes = board.old.boxes;
          left = 0;
          rounds = board.old.rounds ++ rounds;
        })
        × (length rounds ≡ board.old.left)
        × IsWatched line.now.table.shared.key men.new rounds log }
{
    let mut watcher = Watcher::new(men[0].lend_watch(line));
    work_beside(
        rt,
        alloc,
        line,
        scripts,
        looks,
        gate,
        board,
        &mut watcher,
        men,
    );
    fill_last(line, board, watcher, men);
}
