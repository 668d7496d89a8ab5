//! The merge of registers into the journal.

ghost use Rattle.std.specs.Prelude.{◌≡◌, ◌↔◌, ◌<◌, ◌+◌, ◌≤◌, ◌∷◌};
ghost use Rattle.std.specs.Prelude.{◌^◌, IfOk, IsTrue, All, true, false, drop, replicate, length, slice_set};
ghost use Rattle.word_laws.specs.Footprint.{way_at};
ghost use Rattle.word_laws.specs.TellsWord.{kind_told};
ghost use Rattle.line_journal.specs.FitTests.{is_word};
ghost use Rattle.line_journal.specs.Keepers.{AreKeepers, IsFirstAwake, IsOpen, IsPlaced};
ghost use Rattle.line_journal.specs.Keepers.{pair_woken};
ghost use Rattle.line_journal.specs.Lists.{AreOfBoxes, HasSpaceFor, HaveEnded};
ghost use Rattle.line_journal.specs.Merging.{AreOfLine, AreTallies, HoldsAt, IsNextOnWord, IsOnWordAt};
ghost use Rattle.line_journal.specs.Order.{IsMergeOf, list_at, lists_of};
ghost use Rattle.line_journal.specs.Walks.{AreTalliesPlaced, IsWalk, walked};
ghost use Rattle.line_journal.specs.Halves.{pair_for};

use crate::fitting::{fits, is_on_word, make};
use crate::keeper::Keepers;
use crate::keepers::{is_passed, keepers_of};
use crate::lines::word_of;
use crate::order::Merged;
use crate::remaining::Remaining;
use block_words::Way;
use line_law::{Entry, Journal, PairState, open_pairs};
use line_plan::{Items, Plan};
use rail_text::NoMemory;
use std::alloc::Global;
use train_register::Ended;

// The lowest box from a number on that is awake, if there is one.
fn next_awake(awake: &[bool], from: usize) -> Option<usize>
    ensures { IsFirstAwake awake.now from result }
{
    for box_no in from..awake.len() {
        if awake[box_no] {
            return Some(box_no);
        }
    }
    None
}

// Wakes both boxes of a pair on which an entry is placed: it may have opened them.
fn wake(awake: &mut Vec<bool>, pair: usize)
    requires { pair + 1 < length awake.old.items }
    ensures { awake.new.items ≡ pair_woken pair awake.old.items }
{
    awake[pair] = true;
    awake[pair + 1] = true;
}

// Lets a box that isn't open fall asleep. The next open one is sought behind it.
fn pass_over(awake: &mut Vec<bool>, from: &mut usize, box_no: usize)
    requires { box_no < length awake.old.items }
    ensures awake { awake.new.items ≡ slice_set awake.old.items box_no false }
    ensures from { from.new ≡ box_no + 1 }
{
    awake[box_no] = false;
    *from = box_no + 1;
}

/// The state of a merge. No box that is asleep is open, nor one below the number from which on it is sought.
#[derive(Drop)]
pub struct MergeState<'a> {
    /// The words of the pairs after what is placed.
    pub pairs: Vec<PairState>,
    /// The entries that remain, box by box.
    pub left: Remaining<'a>,
    /// For each box and each number of keepers, those of its entries that have the number.
    pub keepers: Vec<Keepers>,
    /// Which boxes are awake.
    pub awake: Vec<bool>,
    /// From which box on the next open one is to be sought.
    pub from: usize,
}

impl<'a> MergeState<'a> {
    // Whether the next entry of a box, which was decided on the word of this pair and way, fits that, and the first
    // keepers of both neighbours let it pass.
    fn is_open(&mut self, plan: &Plan, box_no: usize, pair: usize, way: Way, entry: &Entry) -> bool
        requires line { AreOfLine plan.now self.old.pairs.items self.old.left }
        requires keepers { AreKeepers plan.now self.old.left self.old.keepers.items }
        requires box_no { box_no < length self.old.left }
        requires next { list_at self.old.left box_no ≡ entry.now ∷ drop 1 (list_at self.old.left box_no) }
        requires pair { pair ≡ pair_for plan.now entry.now }
        requires way { way ≡ way_at plan.now entry.now.box_no entry.now.call }
        ensures keepers { AreKeepers plan.now self.old.left self.new.keepers.items }
        ensures same { self.new ≡ record self.old { keepers = self.new.keepers } }
        ensures opens { IsTrue result ↔ IsOpen plan.now self.old.pairs.items self.old.left box_no }
    {
        fits(plan, &self.pairs, pair, way, entry)
            && is_passed(
                plan,
                &self.left,
                &mut self.keepers,
                box_no,
                pair,
                way,
                entry,
            )
    }

    // Places the next entry of a box that is awake, which was decided on a word, if it is open: makes of its word what
    // it says, wakes the boxes that it may open, and the next open one is sought from the lower of them on. If it isn't
    // open, the box falls asleep.
    fn place(&mut self, plan: &Plan, box_no: usize) -> bool
        requires line { AreOfLine plan.now self.old.pairs.items self.old.left }
        requires holds { HoldsAt plan.now self.old box_no }
        requires box_no { box_no < length self.old.left }
        requires word { IsNextOnWord self.old.left box_no }
        requires space { IsOpen plan.now self.old.pairs.items self.old.left box_no
            → HasSpaceFor plan.now self.old.pairs.items self.old.left box_no }
        ensures holds { HoldsAt plan.now self.new self.new.from }
        ensures placed { IsPlaced plan.now self.old.pairs.items self.old.left box_no result self.new.pairs.items
            self.new.left self.new.from }
    {
        let Some(entry) = self.left.of_box(box_no).first() else {
            pass_over(&mut self.awake, &mut self.from, box_no);
            return false;
        };
        let (pair, way) = word_of(plan, entry);
        if !self.is_open(plan, box_no, pair, way, entry) {
            pass_over(&mut self.awake, &mut self.from, box_no);
            return false;
        }
        make(plan, &mut self.pairs, pair, way, entry);
        wake(&mut self.awake, pair);
        self.from = pair;
        self.left.place_next(box_no);
        true
    }
}

// How many of these entries, from the first on, were decided on their box's own tally.
fn tallies_in(entries: &[Entry]) -> usize
    ensures within { result ≤ length entries.now }
    ensures each { AreTallies entries.now result }
    ensures word { IsOnWordAt entries.now result }
{
    for (at, entry) in entries.iter().enumerate() {
        if is_on_word(entry) {
            return at;
        }
    }
    entries.len()
}

// Places the next entries of a box as long as they were decided on its own tally: where no lower box is open, one after
// another is the next.
fn place_tallies(
    left: &mut Remaining<'_>,
    boxes: &mut Vec<u8>,
    box_no: usize,
) -> Result<(), NoMemory>
    requires box_no { box_no < length left.old }
    requires few { box_no < 2 ^ 8 }
    ensures { IfOk result (λ done. AreTalliesPlaced box_no boxes.old.items left.old boxes.new.items left.new) }
{
    let many = tallies_in(left.of_box(box_no));
    boxes.resize(boxes.len() + many, box_no as u8)?;
    left.place_some(box_no, many);
    Ok(())
}

// So many boxes that are awake.
fn all_awake(alloc: Global, count: usize) -> Result<Vec<bool>, NoMemory>
    ensures { IfOk result (λ awake. awake.items ≡ replicate count true) }
{
    let mut awake = Vec::new(alloc);
    for _ in 0..count {
        awake.push(true)?;
    }
    Ok(awake)
}

// For each box and each number of keepers, those of the box's entries that have the number.
fn open_keepers(alloc: Global, plan: &Plan, left: &Remaining<'_>) -> Result<Vec<Keepers>, NoMemory>
    requires { AreOfBoxes plan.now left.now }
    ensures { IfOk result (λ keepers. AreKeepers plan.now left.now keepers.items) }
{
    let mut keepers = Vec::new(alloc);
    for box_no in 0..left.boxes() {
        let mut behind = keepers_of(alloc, plan, left.of_box(box_no))?;
        keepers.append(&mut behind)?;
    }
    Ok(keepers)
}

// The boxes of the journal's entries, in its order.
fn merged_boxes(alloc: Global, plan: &Plan, ended: &Ended) -> Result<Vec<u8>, NoMemory>
    requires { HaveEnded plan.now ended.now.registers }
    ensures walk { IfOk result (λ boxes. IsWalk (lists_of ended.now.registers) boxes.items) }
    ensures merge { IfOk result (λ boxes.
        IsMergeOf plan.now ended.now.registers (walked (lists_of ended.now.registers) boxes.items)) }
{
    plan.meets_conditions();
    let pairs = open_pairs(alloc, plan.boxes.len() - 1)?;
    let left = Remaining::new(alloc, ended.registers.as_slice())?;
    let keepers = open_keepers(alloc, plan, &left)?;
    let awake = all_awake(alloc, left.boxes())?;
    let mut boxes = Vec::with_capacity(alloc, left.count())?;
    let mut merge = MergeState {
        pairs,
        left,
        keepers,
        awake,
        from: 0,
    };
    while let Some(box_no) = next_awake(&merge.awake, merge.from) {
        place_tallies(&mut merge.left, &mut boxes, box_no)?;
        if merge.place(plan, box_no) {
            boxes.push(box_no as u8)?;
        }
    }
    Ok(boxes)
}

/// Merges the registers of a line that has ended into its journal, or tells that memory ran out: the entries of the
/// journal, where they stand in the registers. The registers are the parts of one legal history of the line. At each
/// point the next entry is that of the lowest-numbered box whose next entry has the reply that the law gives there, and
/// is kept back by no remaining entry of another box. That never gets stuck: there is such an order, and it is one
/// ([`one_order_law`](crate::one_order_law)). The journal is a legal history of the line, with these registers as its
/// parts, and so in the order of its own parts.
pub fn merged<'a>(alloc: Global, plan: &Plan, ended: &'a Ended) -> Result<Merged<'a>, NoMemory>
    requires { HaveEnded plan.now ended.now.registers }
    ensures { IfOk result (IsMergeOf plan.now ended.now.registers) }
{
    let boxes = merged_boxes(alloc, plan, ended)?;
    Ok(Merged::new(ended.registers.as_slice(), boxes))
}

// The same entries by themselves.
fn copied(alloc: Global, merged: &Merged<'_>) -> Result<Vec<Entry>, NoMemory>
    ensures { IfOk result (λ copied. copied.items ≡ merged.now) }
{
    let mut copied = Vec::with_capacity(alloc, merged.len())?;
    let mut walk = merged.walk(alloc)?;
    while let Some(entry) = walk.next() {
        copied.push(*entry)?;
    }
    Ok(copied)
}

/// The journal into which the registers of a line that has ended are merged, as [`merged`] does it. It is the one in
/// the order of their entries: [`one_order_law`](crate::one_order_law) tells that there is one, and no other.
pub fn merge(alloc: Global, plan: &Plan, ended: &Ended) -> Result<Journal, NoMemory>
    requires { HaveEnded plan.now ended.now.registers }
    ensures { IfOk result (λ journal. IsMergeOf plan.now ended.now.registers journal.entries) }
{
    let merged = merged(alloc, plan, ended)?;
    Ok(Journal {
        entries: Items::from_vec(copied(alloc, &merged)?),
    })
}
