//! The entries of each kind that may keep others back.

ghost use Rattle.std.specs.Prelude.{◌≡◌, ◌↔◌, ◌<◌, ◌≤◌, ◌+◌, ◌*◌, ◌^◌, [], All, IfOk, IfSome, IsTrue, None};
ghost use Rattle.std.specs.Prelude.{length, replicate};
ghost use Rattle.word_laws.specs.Footprint.{way_at};
ghost use Rattle.line_law.specs.Replies.{way_number};
ghost use Rattle.line_journal.specs.Keepers.{
  AreKeepers,
  AreKeepersFrom,
  IsPassed,
  LetsPass,
  TellsFirst,
  first_keeper,
  keeper_count,
  keeper_no,
  keeper_slot,
  kept_by,
  kept_slot,
  other_box,
  slots,
};
ghost use Rattle.line_journal.specs.Halves.{pair_for};
ghost use Rattle.line_journal.specs.Lists.{AreOfBoxes};
ghost use Rattle.line_journal.specs.Order.{list_at};

use crate::keeper::{Keeper, Keepers};
use crate::keeping::{is_kept_at, keeps_back};
use crate::lines::word_of;
use crate::remaining::Remaining;
use block_words::Way;
use line_law::{Entry, Reply};
use line_plan::Plan;
use rail_text::NoMemory;
use std::alloc::Global;

// How many numbers of keepers there are.
const SLOTS: usize = 12;

// The row of an entry's reply in the table of keepers, its kind and the count that it tells, if it may keep others
// back. Most don't.
fn keeper_row(entry: &Entry) -> Option<(usize, u64)>
    ensures some { IfSome result (λ row. (0 < row.0) × (row.0 ≡ keeper_no entry.now.reply)
        × (row.1 ≡ keeper_count entry.now.reply)) }
    ensures none { result ≡ None → keeper_no entry.now.reply ≡ 0 }
{
    match entry.reply {
        Reply::BellBusy { k, code: _ } => Some((1, k)),
        Reply::Silent { k } | Reply::BellNotYet { k, shown: _ } => Some((2, k)),
        Reply::PulledUnder { v }
        | Reply::HeldByInstrument {
            way: _,
            v,
            shown: _,
            spent: _,
        }
        | Reply::Seen { v }
        | Reply::BlockNotYet { v, shown: _ } => Some((3, v)),
        Reply::SectionFull { k } => Some((4, k)),
        Reply::NoTrainAt { j } | Reply::TrainNotYet { j } => Some((5, j)),
        _ => None,
    }
}

// The kind of reply that may keep an entry's one back; 0 for none.
fn kept_by(entry: &Entry) -> usize
    ensures { result ≡ kept_by entry.now.reply }
{
    match entry.reply {
        Reply::Heard { .. } => 1,
        Reply::Rung { .. } => 2,
        Reply::Turned { .. } => 3,
        Reply::Berthed { .. } | Reply::Cleared { .. } => 4,
        Reply::Entered { .. } => 5,
        _ => 0,
    }
}

// The number of a way.
fn way_number(way: Way) -> usize
    ensures { result ≡ way_number way }
{
    match way {
        Way::Up => 0,
        Way::Down => 1,
    }
}

// The way of the word on which an entry's call may be decided.
fn way_of(plan: &Plan, entry: &Entry) -> usize
    requires { entry.now.box_no < length plan.now.boxes }
    ensures { result ≡ way_number (way_at plan.now entry.now.box_no entry.now.call) }
{
    way_number(word_of(plan, entry).1)
}

// The number of an entry as one that may keep others back, by its kind.
fn keeper_slot(plan: &Plan, entry: &Entry, kind: usize) -> usize
    requires entry { entry.now.box_no < length plan.now.boxes }
    requires kind { kind ≡ keeper_no entry.now.reply }
    ensures value { result ≡ keeper_slot plan.now entry.now }
    ensures few { result < slots }
{
    2 * kind + way_of(plan, entry)
}

// The number of the entries that may keep back one that is on a word of this way.
fn kept_slot(entry: &Entry, way: Way) -> usize
    ensures value { result ≡ 2 * kept_by entry.now.reply + way_number way }
    ensures few { result < slots }
{
    2 * kept_by(entry) + way_number(way)
}

// What is told of the first of a box's remaining entries that has this number, if there is one.
fn first_told(
    plan: &Plan,
    left: &Remaining<'_>,
    keepers: &mut Vec<Keepers>,
    other: usize,
    slot: usize,
) -> Option<Keeper>
    requires other { other < length left.now }
    requires some { 2 ≤ slot }
    requires few { slot < slots }
    requires keepers { AreKeepers plan.now left.now keepers.old.items }
    ensures keepers { AreKeepers plan.now left.now keepers.new.items }
    ensures first { TellsFirst plan.now slot (list_at left.now other) result }
{
    keepers[SLOTS * other + slot].cut(left.of_box(other).len())
}

// Whether the first of these entries that may keep one back, if there is one, lets it pass. Its count is asked first,
// which mostly does.
fn lets_pass(plan: &Plan, entry: &Entry, entries: &[Entry], first: Option<Keeper>) -> bool
    requires entry { entry.now.box_no < length plan.now.boxes }
    requires boxes { All (λ x. x.box_no < length plan.now.boxes) entries.now }
    requires first { TellsFirst plan.now (kept_slot plan.now entry.now) entries.now first }
    ensures { IsTrue result ↔ LetsPass plan.now entry.now (first_keeper plan.now entry.now entries.now) }
{
    match first {
        Some(keeper) => {
            !is_kept_at(entry.reply, keeper.count)
                || !keeps_back(plan, entry, &entries[entries.len() - keeper.rest])
        }
        None => true,
    }
}

// Of no entry, for each number.
fn no_keepers(alloc: Global) -> Result<Vec<Keepers>, NoMemory>
    ensures { IfOk result (λ keepers. keepers.items ≡ replicate slots []) }
{
    let mut keepers = Vec::with_capacity(alloc, SLOTS)?;
    for _ in 0..SLOTS {
        keepers.push(Keepers::new(alloc))?;
    }
    Ok(keepers)
}

/// For each number, those of these entries that have it. The numbers of replies that keep none back, which nobody asks
/// for, have none.
pub fn keepers_of(alloc: Global, plan: &Plan, entries: &[Entry]) -> Result<Vec<Keepers>, NoMemory>
    requires { All (λ x. x.box_no < length plan.now.boxes) entries.now }
    ensures { IfOk result (λ keepers. AreKeepersFrom plan.now entries.now 0 keepers.items) }
{
    let mut keepers = no_keepers(alloc)?;
    let mut at = entries.len();
    while at > 0 {
        at -= 1;
        let entry = &entries[at];
        if let Some((kind, count)) = keeper_row(entry) {
            let rest = entries.len() - at;
            keepers[keeper_slot(plan, entry, kind)].add(Keeper { rest, count })?;
        }
    }
    Ok(keepers)
}

// The other box of a pair.
fn other_box(here: usize, pair: usize) -> usize
    requires { here < 2 ^ 32 }
    ensures { result ≡ other_box here pair }
{
    if pair < here { pair } else { here + 1 }
}

/// Whether the first keepers of both neighbours of a box let its entry pass, whose word is that of this pair and way.
/// Most replies are kept back by none, and the others by entries of the one neighbour alone that shares their word.
pub fn is_passed(
    plan: &Plan,
    left: &Remaining<'_>,
    keepers: &mut Vec<Keepers>,
    box_no: usize,
    pair: usize,
    way: Way,
    entry: &Entry,
) -> bool
    requires box_no { box_no < length left.now }
    requires own { entry.now.box_no ≡ box_no }
    requires pair { pair ≡ pair_for plan.now entry.now }
    requires way { way ≡ way_at plan.now entry.now.box_no entry.now.call }
    requires entry { entry.now.box_no < length plan.now.boxes }
    requires boxes { AreOfBoxes plan.now left.now }
    requires keepers { AreKeepers plan.now left.now keepers.old.items }
    ensures keepers { AreKeepers plan.now left.now keepers.new.items }
    ensures passed { IsTrue result ↔ IsPassed plan.now left.now box_no entry.now }
{
    if kept_by(entry) == 0 {
        return true;
    }
    let other = other_box(entry.box_no as usize, pair);
    if other >= left.boxes() {
        return true;
    }
    let first = first_told(plan, left, keepers, other, kept_slot(entry, way));
    lets_pass(plan, entry, left.of_box(other), first)
}
