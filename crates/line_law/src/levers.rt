//! Where the levers stand; pulling a lever, and putting it back.

ghost use Rattle.std.specs.Prelude.{◌≡◌, ◌<◌, ℕ, All, IsTrue, length, option_map};
ghost use Rattle.block_words.specs.declared.Way.{Way};
ghost use Rattle.locking_table.specs.Meaning.{holder_of};
ghost use Rattle.locking_table.specs.Places.{IsLever};
ghost use Rattle.line_plan.specs.Frames.{BoxFields, frame_size, leads_to};
ghost use Rattle.line_law.specs.declared.state.BoxState.{BoxState};
ghost use Rattle.line_law.specs.declared.state.PairState.{PairState};
ghost use Rattle.line_law.specs.Decisions.{Here, on_pair, or_later};
ghost use Rattle.line_law.specs.Law.{at_moment};
ghost use Rattle.line_law.specs.LeverEnds.{first_reversed, is_off, is_pulled};
ghost use Rattle.line_law.specs.Levers.{is_unspent_clear, lever_link, lock_refusal, pull, pull_refusal, pulled};
ghost use Rattle.line_law.specs.Levers.{pulled_under, put, put_back, put_refusal, starter_way};
ghost use Rattle.line_law.specs.Lines.{HasFrame, RowsHold};
ghost use Rattle.line_law.specs.Links.{way_of};
ghost use Rattle.line_law.specs.Sound.{IsSound};

use crate::call::Reply;
use crate::state::{Block, BoxState, PairState};
use crate::tracks::first_standing;
use block_words::{Position, Way};
use line_plan::{BoxPlan, Kind, Signal, To};
use locking_table::{End, Holder, end_of};

/// Whether a lever is reversed; one that there isn't is not.
pub fn is_pulled(ends: &[End], lever: u32) -> bool
    ensures { result ≡ is_pulled ends.now lever }
{
    match ends.get(lever.saturating_sub(1) as usize) {
        Some(end) => *end == End::Reversed,
        None => false,
    }
}

/// Whether a lever's arm is off; of one that there isn't it is not.
pub fn is_off(off: &[bool], lever: u32) -> bool
    ensures { result ≡ is_off off.now lever }
{
    match off.get(lever.saturating_sub(1) as usize) {
        Some(is_off) => *is_off,
        None => false,
    }
}

/// The first of these levers that is reversed.
pub fn first_reversed(ends: &[End], levers: &[u32]) -> Option<u32>
    requires { All (IsLever (length ends.now)) levers.now }
    ensures { result ≡ first_reversed ends.now levers.now }
{
    for lever in levers {
        if end_of(ends, *lever) == End::Reversed {
            return Some(*lever);
        }
    }
    None
}

/// The outgoing line into whose section a signal leads, if there is a signal and it is a starter.
pub fn starter_way(signal: Option<&Signal>) -> Option<Way>
    ensures { result ≡ starter_way (option_map (λ signal. signal.now) signal.entry) }
{
    match signal?.to {
        To::Section(way) => Some(way),
        To::Place(_) | To::Away => None,
    }
}

impl Block {
    /// Whether the instrument shows Line Clear unspent.
    pub fn is_unspent_clear(self) -> bool
        ensures { result ≡ is_unspent_clear self }
    {
        self.position == Position::LineClear && !self.spent
    }

    /// What the pull of the starter of that line is answered, which reaches this instrument.
    pub fn pull_reply(self, way: Way) -> Reply
        ensures { (here after : BoxState) → (pulled_under here after way self).reply ≡ result }
    {
        if self.is_unspent_clear() {
            Reply::PulledUnder { v: self.turns }
        } else {
            Reply::HeldByInstrument {
                way,
                v: self.turns,
                shown: self.position,
                spent: self.spent,
            }
        }
    }
}

impl BoxState {
    // The row that holds a lever. Where every row holds, only those that may hold the lever are read.
    fn holder(&self, plan: &BoxPlan, lever: u32, steady: bool) -> Option<Holder>
        requires sound { IsSound plan.now }
        requires frame { HasFrame plan.now self.now }
        requires lever { IsLever (frame_size plan.now.levers) lever }
        requires rows { IsTrue steady → RowsHold plan.now self.now }
        ensures { result ≡ holder_of self.now.ends lever plan.now.rows }
    {
        if steady {
            plan.table
                .holder_among_its_rows(self.ends.as_slice(), lever)
        } else {
            plan.table.named_holder(self.ends.as_slice(), lever)
        }
    }

    // What keeps a lever where it stands: the row that holds it, or a train on a place that locks it.
    fn lock_refusal(&self, plan: &BoxPlan, lever: u32, steady: bool) -> Option<Reply>
        requires sound { IsSound plan.now }
        requires frame { HasFrame plan.now self.now }
        requires lever { IsLever (frame_size plan.now.levers) lever }
        requires rows { IsTrue steady → RowsHold plan.now self.now }
        ensures { result ≡ lock_refusal plan.now self.now lever }
    {
        if let Some(holder) = self.holder(plan, lever, steady) {
            return Some(Reply::HeldByLever {
                lever: holder.lever,
                row: holder.row,
            });
        }
        let there = first_standing(self.places.as_slice(), plan.track(lever))?;
        Some(Reply::HeldByTrack {
            place: there.place,
            train: there.train,
        })
    }

    // What a pull is refused for whatever the locking says.
    fn needless_pull(&self, plan: &BoxPlan, lever: u32) -> Option<Reply>
        requires { IsLever (length self.now.ends) lever }
        ensures { pull_refusal plan.now self.now lever ≡ or_later result (lock_refusal plan.now self.now lever) }
    {
        if end_of(self.ends.as_slice(), lever) == End::Reversed {
            return Some(Reply::AlreadyReversed);
        }
        if plan.kind(lever) == Some(Kind::Spare) {
            return Some(Reply::Spare);
        }
        None
    }

    // What putting a lever back is refused for whatever the locking says.
    fn needless_put(&self, lever: u32) -> Option<Reply>
        requires { IsLever (length self.now.ends) lever }
        ensures { (box_plan : BoxFields)
            → put_refusal box_plan self.now lever ≡ or_later result (lock_refusal box_plan self.now lever) }
    {
        if end_of(self.ends.as_slice(), lever) == End::Normal {
            return Some(Reply::AlreadyNormal);
        }
        None
    }

    // What a pull is refused for in the box; steady where every row holds.
    fn pull_refusal(&self, plan: &BoxPlan, lever: u32, steady: bool) -> Option<Reply>
        requires sound { IsSound plan.now }
        requires frame { HasFrame plan.now self.now }
        requires lever { IsLever (frame_size plan.now.levers) lever }
        requires rows { IsTrue steady → RowsHold plan.now self.now }
        ensures { result ≡ pull_refusal plan.now self.now lever }
    {
        if let Some(reply) = self.needless_pull(plan, lever) {
            return Some(reply);
        }
        self.lock_refusal(plan, lever, steady)
    }

    // What putting a lever back is refused for; steady where every row holds.
    fn put_refusal(&self, plan: &BoxPlan, lever: u32, steady: bool) -> Option<Reply>
        requires sound { IsSound plan.now }
        requires frame { HasFrame plan.now self.now }
        requires lever { IsLever (frame_size plan.now.levers) lever }
        requires rows { IsTrue steady → RowsHold plan.now self.now }
        ensures { result ≡ put_refusal plan.now self.now lever }
    {
        if let Some(reply) = self.needless_put(lever) {
            return Some(reply);
        }
        self.lock_refusal(plan, lever, steady)
    }

    /// Reverses a lever, and lets its arm go off if it has one.
    pub fn reverse(&mut self, lever: u32, signal: Option<&Signal>)
        requires lever { IsLever (length self.old.ends) lever }
        requires arms { length self.old.off ≡ length self.old.ends }
        ensures { self.new ≡ pulled self.old lever (option_map (λ signal. signal.now) signal.entry) }
    {
        self.ends.set(lever as usize - 1, End::Reversed);
        if signal.is_some() {
            self.off.set(lever as usize - 1, true);
        }
    }

    /// What a pull is answered; steady where every row holds.
    pub(crate) fn pull_reply(
        &self,
        pair: &PairState,
        plan: &BoxPlan,
        lever: u32,
        steady: bool,
    ) -> Reply
        requires sound { IsSound plan.now }
        requires frame { HasFrame plan.now self.now }
        requires lever { IsLever (frame_size plan.now.levers) lever }
        requires rows { IsTrue steady → RowsHold plan.now self.now }
        ensures { (moment : ℕ) → (on_pair (way_of (lever_link plan.now lever))
            (pull plan.now (at_moment self.now moment) lever) pair.now).reply ≡ result }
    {
        if let Some(reply) = self.pull_refusal(plan, lever, steady) {
            return reply;
        }
        let Some(way) = starter_way(plan.signal(lever)) else {
            return Reply::Pulled;
        };
        pair.blocks.get(way).pull_reply(way)
    }

    /// Pulls a lever; the pull of a starter reaches its instrument, and leaves it spent. Steady where every row holds.
    pub(crate) fn pull(
        &mut self,
        pair: &mut PairState,
        plan: &BoxPlan,
        lever: u32,
        steady: bool,
    ) -> Reply
        requires sound { IsSound plan.now }
        requires frame { HasFrame plan.now self.old }
        requires lever { IsLever (frame_size plan.now.levers) lever }
        requires rows { IsTrue steady → RowsHold plan.now self.old }
        ensures { on_pair (way_of (lever_link plan.now lever)) (pull plan.now self.old lever) pair.old
            ≡ record { reply = result; here = self.new; word = pair.new } }
    {
        if let Some(reply) = self.pull_refusal(plan, lever, steady) {
            return reply;
        }
        let signal = plan.signal(lever);
        let Some(way) = starter_way(signal) else {
            self.reverse(lever, signal);
            return Reply::Pulled;
        };
        let block = pair.blocks.get(way);
        pair.blocks.set(
            way,
            Block {
                spent: true,
                ..block
            },
        );
        if block.is_unspent_clear() {
            self.reverse(lever, signal);
        }
        block.pull_reply(way)
    }

    /// What putting a lever back is answered; steady where every row holds.
    pub(crate) fn put_reply(&self, plan: &BoxPlan, lever: u32, steady: bool) -> Reply
        requires sound { IsSound plan.now }
        requires frame { HasFrame plan.now self.now }
        requires lever { IsLever (frame_size plan.now.levers) lever }
        requires rows { IsTrue steady → RowsHold plan.now self.now }
        ensures { (moment : ℕ) (way : Way) (pair : PairState)
            → (on_pair way (put plan.now (at_moment self.now moment) lever) pair).reply ≡ result }
    {
        if let Some(reply) = self.put_refusal(plan, lever, steady) {
            return reply;
        }
        Reply::Put
    }

    /// Puts a lever back, with its arm at danger. Steady where every row holds.
    pub(crate) fn put(&mut self, plan: &BoxPlan, lever: u32, steady: bool) -> Reply
        requires sound { IsSound plan.now }
        requires frame { HasFrame plan.now self.old }
        requires lever { IsLever (frame_size plan.now.levers) lever }
        requires rows { IsTrue steady → RowsHold plan.now self.old }
        ensures { put plan.now self.old lever ≡ Here result self.new }
    {
        if let Some(reply) = self.put_refusal(plan, lever, steady) {
            return reply;
        }
        self.ends.set(lever as usize - 1, End::Normal);
        self.off.set(lever as usize - 1, false);
        Reply::Put
    }
}
