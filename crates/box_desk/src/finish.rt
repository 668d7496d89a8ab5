//! The second step of a call, by the word that the deciding operation met.

ghost use Rattle.std.specs.Prelude.{◌≡◌, ◌<◌, Some, length};
ghost use Rattle.line_plan.specs.Plans.{PlanFields};
ghost use Rattle.line_law.specs.declared.link.Link.TheVariants.{In};
ghost use Rattle.line_law.specs.Arrivals.{berth as berth_whole, berth_part, clear_portion};
ghost use Rattle.line_law.specs.Instruments.{turn};
ghost use Rattle.line_law.specs.Law.{decide, link_of};
ghost use Rattle.line_law.specs.Levers.{lever_link, pull, starter_link, starter_way};
ghost use Rattle.line_law.specs.Sound.{BerthFits, IsSound, SignalFits};
ghost use Rattle.line_law.specs.Ways.{of_way};
ghost use Rattle.locking_table.specs.Places.{IsLever};
ghost use Rattle.line_plan.specs.Frames.{BoxFields, frame_size};
ghost use Rattle.box_desk.specs.Boxes.{AreFew, IsFitted, here_of};
ghost use Rattle.box_desk.specs.IncomingLines.{Suits};
ghost use Rattle.box_desk.specs.Steps.{Finishes, WordAgrees};
ghost use Rattle.box_desk.specs.TrainMoves.{move_signal};
ghost use Rattle.box_desk.specs.Desks.{FitsLever};

use crate::equipment::Equipment;
use block_words::{Position, Way};
use line_law::{Act, Reply, starter_way};
use line_plan::{Berth, BoxPlan, Signal, To};
use train_moves::plan_move;

impl Equipment {
    // A turn that the box doesn't refuse.
    fn finish_turn(&mut self, berth: &Berth, way: Way, position: Position, word: u64) -> Reply
        requires few { AreFew (here_of self.old) }
        requires suits { Suits berth.now.permissive (of_way self.old.lines way).control }
        requires agrees { WordAgrees (turn (Some berth.now) (here_of self.old) way position) (In way)
            (here_of self.old) word }
        ensures told { Finishes (turn (Some berth.now) (here_of self.old) way position) (In way) (here_of self.old)
            word result (here_of self.new) }
        ensures fitted { (box_plan : BoxFields) → IsFitted box_plan self.old → IsFitted box_plan self.new }
    {
        self.turn(way, position)
    }

    // The pull of a starter's lever that the box doesn't refuse.
    fn finish_pull(&mut self, plan: &BoxPlan, lever: u32, word: u64) -> Reply
        requires sound { IsSound plan.now }
        requires fitted { IsFitted plan.now self.old }
        requires lever { IsLever (frame_size plan.now.levers) lever }
        requires agrees { WordAgrees (pull plan.now (here_of self.old) lever) (lever_link plan.now lever)
            (here_of self.old) word }
        ensures told { Finishes (pull plan.now (here_of self.old) lever) (lever_link plan.now lever) (here_of self.old)
            word result (here_of self.new) }
        ensures fitted { IsFitted plan.now self.new }
    {
        match starter_way(plan.signal(lever)) {
            Some(way) => self.pull_under(plan, lever, way, word),
            None => Reply::Pulled,
        }
    }

    // A train that the box doesn't refuse passes a starter or overruns it.
    fn finish_move(&mut self, plan: &BoxPlan, signal: &Signal, overrun: bool, word: u64) -> Reply
        requires fitted { IsFitted plan.now self.old }
        requires signal { SignalFits (length self.old.frame.ends) (length self.old.tracks) signal.now }
        requires few { AreFew (here_of self.old) }
        requires agrees { WordAgrees (move_signal overrun signal.now plan.now (here_of self.old))
            (starter_link (starter_way (Some signal.now))) (here_of self.old) word }
        ensures told { Finishes (move_signal overrun signal.now plan.now (here_of self.old))
            (starter_link (starter_way (Some signal.now))) (here_of self.old) word result (here_of self.new) }
        ensures fitted { IsFitted plan.now self.new }
    {
        match signal.to {
            To::Section(way) => self.enter(plan, signal, way, word),
            To::Place(_) | To::Away => Reply::NoTrain,
        }
    }

    // The arrival of a whole train that the box doesn't refuse.
    fn finish_berth(&mut self, berth: &Berth, way: Way, word: u64) -> Reply
        requires few { AreFew (here_of self.old) }
        requires place { berth.now.place < length self.old.tracks }
        requires agrees { WordAgrees (berth_whole (Some berth.now) (here_of self.old) way) (In way) (here_of self.old)
            word }
        ensures told { Finishes (berth_whole (Some berth.now) (here_of self.old) way) (In way) (here_of self.old) word
            result (here_of self.new) }
        ensures fitted { (box_plan : BoxFields) → IsFitted box_plan self.old → IsFitted box_plan self.new }
    {
        self.berth(way, berth.place, word)
    }

    // The arrival of a train that leaves a portion behind.
    fn finish_part(&mut self, berth: &Berth, way: Way, word: u64) -> Reply
        requires few { AreFew (here_of self.old) }
        requires place { berth.now.place < length self.old.tracks }
        requires agrees { WordAgrees (berth_part (Some berth.now) (here_of self.old) way) (In way) (here_of self.old)
            word }
        ensures told { Finishes (berth_part (Some berth.now) (here_of self.old) way) (In way) (here_of self.old) word
            result (here_of self.new) }
        ensures fitted { (box_plan : BoxFields) → IsFitted box_plan self.old → IsFitted box_plan self.new }
    {
        self.berth_part(way, berth.place, word)
    }

    // A left portion that is there is cleared away.
    fn finish_clear(&mut self, way: Way, word: u64) -> Reply
        requires few { AreFew (here_of self.old) }
        requires agrees { WordAgrees (clear_portion (here_of self.old) way) (In way) (here_of self.old) word }
        ensures told { Finishes (clear_portion (here_of self.old) way) (In way) (here_of self.old) word result
            (here_of self.new) }
        ensures fitted { (box_plan : BoxFields) → IsFitted box_plan self.old → IsFitted box_plan self.new }
    {
        self.clear_portion(way, word)
    }

    /// What the law makes of a call that is decided on a shared word, by that word as it stood before.
    pub(crate) fn decide_by_word(&mut self, plan: &BoxPlan, act: Act, word: u64) -> Reply
        requires sound { IsSound plan.now }
        requires fitted { IsFitted plan.now self.old }
        requires few { AreFew (here_of self.old) }
        requires lever { FitsLever plan.now act }
        requires agrees { (line : PlanFields) × WordAgrees (decide line plan.now act (here_of self.old))
            (link_of plan.now act) (here_of self.old) word }
        ensures told { (line : PlanFields) → Finishes (decide line plan.now act (here_of self.old))
            (link_of plan.now act) (here_of self.old) word result (here_of self.new) }
        ensures fitted { IsFitted plan.now self.new }
    {
        match act {
            Act::Ring { side, code: _ } => self.ring(side, word),
            Act::Hear { side } => self.hear(side.opposite(), word),
            Act::AwaitBell { side, code } => self.await_bell(side.opposite(), code, word),
            Act::Turn { way, position } => match plan.berth(way) {
                Some(berth) => self.finish_turn(berth, way, position, word),
                None => unreachable!(),
            },
            Act::AwaitBlock { way: _, position } => self.await_block(position, word),
            Act::Pull { lever } => self.finish_pull(plan, lever, word),
            Act::Pass { lever } => match plan_move(plan, lever) {
                Some(signal) => self.finish_move(plan, signal, false, word),
                None => unreachable!(),
            },
            Act::Overrun { lever } => match plan_move(plan, lever) {
                Some(signal) => self.finish_move(plan, signal, true, word),
                None => unreachable!(),
            },
            Act::AwaitTrain { way } => self.await_train(way, word),
            Act::Berth { way } => match plan.berth(way) {
                Some(berth) => self.finish_berth(berth, way, word),
                None => unreachable!(),
            },
            Act::BerthPart { way } => match plan.berth(way) {
                Some(berth) => self.finish_part(berth, way, word),
                None => unreachable!(),
            },
            Act::ClearPortion { way } => self.finish_clear(way, word),
            Act::Put { lever: _ }
            | Act::Bring { train: _ }
            | Act::Wind { way: _ }
            | Act::Release { way: _ } => unreachable!(),
        }
    }
}
