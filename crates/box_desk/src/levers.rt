//! Pulling a lever, and putting it back.

ghost use Rattle.std.specs.Prelude.{◌≡◌, ◌<◌, ◌%◌, All, None, length};
ghost use Rattle.block_words.specs.declared.Way.{Way};
ghost use Rattle.locking_table.specs.Places.{IsLever};
ghost use Rattle.line_plan.specs.Frames.{frame_size, signal_of};
ghost use Rattle.line_law.specs.declared.state.Block.{Block};
ghost use Rattle.line_law.specs.Decisions.{Here};
ghost use Rattle.line_law.specs.Levers.{pull, pull_refusal, pulled, pulled_under, put};
ghost use Rattle.line_law.specs.Sound.{IsSound};
ghost use Rattle.word_laws.specs.WordNumbers.{block_number};
ghost use Rattle.box_desk.specs.Boxes.{IsFitted, here_of};
ghost use Rattle.box_desk.specs.LeverReplies.{refusal_of};
ghost use Rattle.box_desk.specs.Steps.{IsTold, Locally};

use crate::equipment::Equipment;
use crate::words::block_of;
use block_words::Way;
use lever_frame::{LeverReply, answer_law, frame_law};
use line_law::{Reply, starter_way};
use line_plan::BoxPlan;

// What a call is refused for, by what the frame answers; `there` where the lever stands at its end already.
fn refusal_of(answer: LeverReply, there: Reply) -> Option<Reply>
    ensures { result ≡ refusal_of there answer }
{
    match answer {
        LeverReply::Free => None,
        LeverReply::AlreadyThere => Some(there),
        LeverReply::Spare => Some(Reply::Spare),
        LeverReply::HeldByLever { lever, row } => Some(Reply::HeldByLever { lever, row }),
        LeverReply::HeldByTrack { place, train } => Some(Reply::HeldByTrack { place, train }),
    }
}

impl Equipment {
    /// What a pull is refused for in the box.
    pub(crate) fn pull_refusal(&self, plan: &BoxPlan, lever: u32) -> Option<Reply>
        requires sound { IsSound plan.now }
        requires fitted { IsFitted plan.now self.now }
        requires lever { IsLever (frame_size plan.now.levers) lever }
        ensures { result ≡ pull_refusal plan.now (here_of self.now) lever }
    {
        answer_law();
        refusal_of(
            self.frame.pull_test(lever, &self.tracks),
            Reply::AlreadyReversed,
        )
    }

    // Reverses a lever that nothing in the box holds; its arm, if it has one, goes off.
    fn reverse(&mut self, plan: &BoxPlan, lever: u32)
        requires sound { IsSound plan.now }
        requires fitted { IsFitted plan.now self.old }
        requires lever { IsLever (frame_size plan.now.levers) lever }
        requires free { pull_refusal plan.now (here_of self.old) lever ≡ None }
        ensures here { here_of self.new ≡ pulled (here_of self.old) lever (signal_of plan.now lever) }
        ensures fitted { IsFitted plan.now self.new }
    {
        answer_law();
        frame_law();
        self.frame.reverse(lever);
    }

    /// Pulls a lever, where that is decided in the box alone; a starter that nothing in the box holds stays, since its
    /// pull is decided at its instrument.
    pub(crate) fn pull_locally(&mut self, plan: &BoxPlan, lever: u32) -> Option<Reply>
        requires sound { IsSound plan.now }
        requires fitted { IsFitted plan.now self.old }
        requires lever { IsLever (frame_size plan.now.levers) lever }
        ensures told { Locally (pull plan.now (here_of self.old) lever) (here_of self.old) result (here_of self.new) }
        ensures fitted { IsFitted plan.now self.new }
    {
        let refusal = self.pull_refusal(plan, lever);
        if refusal.is_some() || starter_way(plan.signal(lever)).is_some() {
            return refusal;
        }
        self.reverse(plan, lever);
        Some(Reply::Pulled)
    }

    /// Pulls a starter's lever that nothing in the box holds, by the word of its instrument.
    pub(crate) fn pull_under(&mut self, plan: &BoxPlan, lever: u32, way: Way, word: u64) -> Reply
        requires sound { IsSound plan.now }
        requires fitted { IsFitted plan.now self.old }
        requires lever { IsLever (frame_size plan.now.levers) lever }
        requires free { pull_refusal plan.now (here_of self.old) lever ≡ None }
        requires word { word % 4 < 3 }
        ensures told { (block : Block) → block_number block ≡ word
            → IsTold Block (pulled_under (here_of self.old)
            (pulled (here_of self.old) lever (signal_of plan.now lever)) way block) result (here_of self.new) }
        ensures fitted { IsFitted plan.now self.new }
    {
        let block = block_of(word);
        if block.is_unspent_clear() {
            self.reverse(plan, lever);
        }
        block.pull_reply(way)
    }

    /// Puts a lever back, with its arm at danger.
    pub(crate) fn put(&mut self, plan: &BoxPlan, lever: u32) -> Reply
        requires sound { IsSound plan.now }
        requires fitted { IsFitted plan.now self.old }
        requires lever { IsLever (frame_size plan.now.levers) lever }
        ensures told { put plan.now (here_of self.old) lever ≡ Here result (here_of self.new) }
        ensures fitted { IsFitted plan.now self.new }
    {
        answer_law();
        frame_law();
        let answer = self.frame.put_local(lever, &self.tracks);
        match refusal_of(answer, Reply::AlreadyNormal) {
            Some(reply) => reply,
            None => Reply::Put,
        }
    }
}
