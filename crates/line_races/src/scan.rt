//! The nearest race for each entry of a journal, one entry after another.

ghost use Rattle.std.specs.Prelude.{◌≡◌, ◌<◌, IfOk, OnOk, All, length, slice_get};
ghost use Rattle.word_laws.specs.Footprint.{way_at};
ghost use Rattle.line_journal.specs.Fits.{position_of};
ghost use Rattle.line_journal.specs.Halves.{pair_for};
ghost use Rattle.line_races.specs.Nearest.{if_unknown, known_then, nearest_before, nearest_of};
ghost use Rattle.line_races.specs.Scans.{IsShownAfter};

use crate::keys::{other_key, own_key};
use crate::known::{Known, later_of};
use crate::last_marks::LastMarks;
use crate::marks::{is_await, is_turned, kept_by, made_by, mark_ended, mark_left, mark_missed};
use crate::shown::Shown;
use block_words::{Position, Way};
use line_journal::word_of;
use line_law::{Act, Entry};
use line_plan::Plan;
use rail_text::NoMemory;
use std::alloc::Global;

/// What is kept of the entries so far: where the marks and the turns stand, the positions of the instruments, and what
/// each man knows.
#[derive(Drop)]
pub struct Scan {
    pub marks: LastMarks,
    pub turns: LastMarks,
    pub shown: Shown,
    pub known: Known,
}

// An entry that was found, if it comes behind all that is known.
fn if_unknown(known: Option<usize>, found: Option<usize>) -> Option<usize>
    ensures { result ≡ if_unknown known found }
{
    match (known, found) {
        (_, None) => None,
        (None, Some(_)) => found,
        (Some(k), Some(i)) => if k < i { found } else { None },
    }
}

// What the man of an entry knows once it is made.
fn known_then(entry: &Entry, known: Option<usize>, maker: Option<usize>) -> Option<usize>
    ensures { result ≡ known_then entry.now known maker }
{
    if is_await(entry.call.act) {
        later_of(known, maker)
    } else {
        known
    }
}

// The nearest race for an entry, of what its man knows, of what made it possible, of what it keeps back and of what it
// missed.
fn nearest_of(
    entry: &Entry,
    known: Option<usize>,
    maker: Option<usize>,
    keeper: Option<usize>,
    missed: Option<usize>,
) -> Option<usize>
    ensures { result ≡ nearest_of entry.now known maker keeper missed }
{
    let met = if_unknown(known_then(entry, known, maker), later_of(maker, keeper));
    later_of(met, if_unknown(known, missed))
}

// The position to which a call turns an instrument.
fn position_of(act: Act) -> Position
    ensures { result ≡ position_of act }
{
    match act {
        Act::Turn { way: _, position } | Act::AwaitBlock { way: _, position } => position,
        _ => Position::Normal,
    }
}

// Turns the instrument of this pair and way as an entry does, if it does.
fn turn(shown: &mut Shown, plan: &Plan, entry: &Entry, pair: usize, way: Way)
    requires pair { pair ≡ pair_for plan.now entry.now }
    requires way { way ≡ way_at plan.now entry.now.box_no entry.now.call }
    requires within { pair < length shown.old.instruments.items }
    ensures width { length shown.new.instruments.items ≡ length shown.old.instruments.items }
    ensures after { IsShownAfter plan.now entry.now shown.old.instruments.items shown.new.instruments.items }
{
    if is_turned(entry.reply) {
        shown.turn(pair, way, position_of(entry.call.act));
    }
}

impl Scan {
    ghost use Rattle.std.specs.Prelude.{◌≡◌, ◌<◌, ◌+◌, IfOk, OnOk, All, List, length, slice_get};
    ghost use Rattle.line_law.specs.declared.call.Entry.{Entry};
    ghost use Rattle.word_laws.specs.Footprint.{way_at};
    ghost use Rattle.line_journal.specs.Halves.{pair_for};
    ghost use Rattle.line_races.specs.Keys.{Key, IsLeft, own_key, position_found};
    ghost use Rattle.line_races.specs.Marks.{is_turned, mark_ended, mark_left};
    ghost use Rattle.line_races.specs.Nearest.{is_above, maker_at, nearest_before};
    ghost use Rattle.line_races.specs.Scans.{IsForBoxes, IsScanned, IsLearnedFrom, IsMarkedBy, shown_at};

    /// Nothing is kept of a journal of which no entry is read.
    pub fn new(alloc: Global, plan: &Plan) -> Result<Scan, NoMemory>
        ensures { IfOk result (λ scan. (es : List Entry) → IsScanned plan.now es 0 scan) }
    {
        let boxes = plan.boxes.len();
        Ok(Scan {
            marks: LastMarks::new(alloc),
            turns: LastMarks::new(alloc),
            shown: Shown::new(alloc, boxes)?,
            known: Known::new(alloc, boxes)?,
        })
    }

    // The nearest race for the entry at a position, which was decided on the word of this pair and way. Its man learns
    // of the entry that made it possible.
    fn look(&mut self, plan: &Plan, entry: &Entry, pair: usize, way: Way) -> Option<usize>
        requires pair { pair ≡ pair_for plan.now entry.now }
        requires way { way ≡ way_at plan.now entry.now.box_no entry.now.call }
        requires box_no { entry.now.box_no < length plan.now.boxes }
        requires boxes { IsForBoxes (length plan.now.boxes) self.old }
        ensures { IsLearnedFrom plan.now entry.now self.old self.new result }
    {
        let box_no = entry.box_no as usize;
        let above = pair == box_no;
        let made = other_key(plan, entry, pair, way, made_by(entry.reply));
        let kept = other_key(plan, entry, pair, way, kept_by(entry.reply));
        let missed = mark_missed(entry.call.act, entry.reply);
        let missed = other_key(plan, entry, pair, way, missed);
        let maker = self.marks.last(made);
        let known = self.known.of(box_no, above);
        self.known.learn(box_no, above, maker);
        nearest_of(
            entry,
            known,
            maker,
            self.marks.last(kept),
            self.turns.last(missed),
        )
    }

    // The entry at a position leaves its marks on its word, that of this pair and way.
    fn leave(
        &mut self,
        plan: &Plan,
        entry: &Entry,
        pair: usize,
        way: Way,
        at: usize,
    ) -> Result<(), NoMemory>
        requires pair { pair ≡ pair_for plan.now entry.now }
        requires way { way ≡ way_at plan.now entry.now.box_no entry.now.call }
        requires within { pair < length self.old.shown.instruments.items }
        ensures { OnOk result (IsMarkedBy plan.now entry.now at self.old self.new) }
    {
        let mark = own_key(plan, entry, pair, way, mark_left(entry.reply));
        self.marks.leave(mark, at)?;
        let ended = mark_ended(self.shown.get(pair, way), entry.reply);
        self.turns
            .leave(own_key(plan, entry, pair, way, ended), at)?;
        turn(&mut self.shown, plan, entry, pair, way);
        Ok(())
    }

    /// The nearest race for the entry at a position of a journal, the entries before which are kept; then it is kept,
    /// too.
    pub fn pass(
        &mut self,
        plan: &Plan,
        entries: &[Entry],
        at: usize,
    ) -> Result<Option<usize>, NoMemory>
        requires within { at < length entries.now }
        requires boxes { All (λ e. e.box_no < length plan.now.boxes) entries.now }
        requires scanned { IsScanned plan.now entries.now at self.old }
        ensures nearest { IfOk result (λ first.
            first ≡ nearest_before plan.now entries.now at (slice_get entries.now at)) }
        ensures scanned { OnOk result (IsScanned plan.now entries.now (at + 1) self.new) }
    {
        let entry = &entries[at];
        let (pair, way) = word_of(plan, entry);
        let first = self.look(plan, entry, pair, way);
        self.leave(plan, entry, pair, way, at)?;
        Ok(first)
    }
}
