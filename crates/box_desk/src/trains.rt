//! The moves of trains in a box, and into a section.

ghost use Rattle.std.specs.Prelude.{◌≡◌, ℕ, ◌<◌, ◌-◌, ◌^◌, IsSome, List, Some, length, option_map};
ghost use Rattle.line_plan.specs.declared.signal.To.TheVariants.{Section};
ghost use Rattle.line_plan.specs.Frames.{BoxFields, entered_by};
ghost use Rattle.line_law.specs.declared.link.Link.TheVariants.{Out};
ghost use Rattle.line_law.specs.declared.state.Passage.{Passage};
ghost use Rattle.line_law.specs.Decisions.{Here};
ghost use Rattle.line_law.specs.Sound.{SignalFits};
ghost use Rattle.line_law.specs.Tracks.{train_on};
ghost use Rattle.line_law.specs.Trains.{bring, enter, is_berth_at, left_by, line_left};
ghost use Rattle.line_law.specs.Ways.{of_way};
ghost use Rattle.train_moves.specs.Standings.{AreEmpty};
ghost use Rattle.word_laws.specs.WordNumbers.{PlainLineAgrees, plain_line_number};
ghost use Rattle.box_desk.specs.Boxes.{IsFitted, here_of};
ghost use Rattle.box_desk.specs.Steps.{IsTold, Locally};
ghost use Rattle.box_desk.specs.TrainMoves.{MayGo, gone_to, move_signal};

use crate::equipment::Equipment;
use block_words::{Way, lane};
use line_law::Reply;
use line_plan::{Berth, BoxPlan, Signal, To};
use train_moves::{BringReply, MoveTest, go, move_test};

// Whether a berth is at a place.
fn is_berth_at(berth: Option<&Berth>, place: u32) -> bool
    ensures { result ≡ is_berth_at (option_map (λ berth. berth.now) berth.entry) place }
{
    match berth {
        Some(berth) => berth.place == place,
        None => false,
    }
}

impl Equipment {
    /// Brings a train to its own place.
    pub(crate) fn bring(&mut self, train: u32, place: u32) -> Reply
        requires low { 0 < train }
        requires train { train - 1 < length self.old.trains.brought }
        requires place { place < length self.old.tracks }
        ensures told { bring (here_of self.old) train place ≡ Here result (here_of self.new) }
        ensures fitted { (box_plan : BoxFields) → IsFitted box_plan self.old → IsFitted box_plan self.new }
    {
        match self.trains.bring(&mut self.tracks, place, train) {
            BringReply::Brought => Reply::Brought,
            BringReply::AlreadyBrought => Reply::AlreadyBrought,
            BringReply::Occupied { place, train } => Reply::Occupied { place, train },
        }
    }

    // A train has left a place; the control of a line is told where that is its berth.
    fn leave_berths(&mut self, plan: &BoxPlan, place: u32)
        requires { IsFitted plan.now self.old }
        ensures here { here_of self.new ≡ record (here_of self.old) {
          incoming = record {
            up = line_left plan.now.berth_up place (here_of self.old).incoming.up;
            down = line_left plan.now.berth_down place (here_of self.old).incoming.down;
          };
        } }
        ensures fitted { IsFitted plan.now self.new }
    {
        if is_berth_at(plan.berth_up.as_ref(), place) {
            self.lines.up.leave();
        }
        if is_berth_at(plan.berth_down.as_ref(), place) {
            self.lines.down.leave();
        }
    }

    // Lets the train at a signal go where the signal leads, with the arm at danger behind it; gives the train.
    fn go(&mut self, plan: &BoxPlan, signal: &Signal) -> u32
        requires fitted { IsFitted plan.now self.old }
        requires signal { SignalFits (length self.old.frame.ends) (length self.old.tracks) signal.now }
        requires train { IsSome (train_on self.old.tracks signal.now.from) }
        requires free { AreEmpty self.old.tracks (entered_by signal.now) }
        ensures train { train_on self.old.tracks signal.now.from ≡ Some result }
        ensures here { here_of self.new
            ≡ gone_to signal.now.to result (left_by plan.now (here_of self.old) signal.now) }
        ensures fitted { IsFitted plan.now self.new }
    {
        let train = go(&mut self.tracks, signal);
        self.frame.passed(signal.lever);
        self.leave_berths(plan, signal.from);
        train
    }

    // Lets a train go that may, where that is decided in the box alone; one at a starter stays, since its move is
    // decided at the section.
    fn go_locally(
        &mut self,
        plan: &BoxPlan,
        signal: &Signal,
        overrun: bool,
        train: u32,
    ) -> Option<Reply>
        requires fitted { IsFitted plan.now self.old }
        requires signal { SignalFits (length self.old.frame.ends) (length self.old.tracks) signal.now }
        requires free { MayGo overrun signal.now train (here_of self.old) }
        ensures told { Locally (move_signal overrun signal.now plan.now (here_of self.old)) (here_of self.old) result
            (here_of self.new) }
        ensures fitted { IsFitted plan.now self.new }
    {
        match signal.to {
            To::Section(_) => None,
            To::Place(_) | To::Away => {
                self.go(plan, signal);
                Some(Reply::Passed { train })
            }
        }
    }

    /// A train passes a signal or overruns it, where that is decided in the box alone.
    pub(crate) fn move_locally(
        &mut self,
        plan: &BoxPlan,
        signal: &Signal,
        overrun: bool,
    ) -> Option<Reply>
        requires fitted { IsFitted plan.now self.old }
        requires signal { SignalFits (length self.old.frame.ends) (length self.old.tracks) signal.now }
        ensures told { Locally (move_signal overrun signal.now plan.now (here_of self.old)) (here_of self.old) result
            (here_of self.new) }
        ensures fitted { IsFitted plan.now self.new }
    {
        let arm_off = self.frame.arm_off(signal.lever);
        match move_test(&self.tracks, signal, arm_off, overrun) {
            MoveTest::Free { train } => self.go_locally(plan, signal, overrun, train),
            MoveTest::NoTrain => Some(Reply::NoTrain),
            MoveTest::AtDanger => Some(Reply::AtDanger),
            MoveTest::ArmOff => Some(Reply::ArmOff),
            MoveTest::Occupied { place, train } => Some(Reply::Occupied { place, train }),
        }
    }

    /// A train that may go enters the section of a line, by the word of that: unless its lane is taken.
    pub(crate) fn enter(&mut self, plan: &BoxPlan, signal: &Signal, way: Way, word: u64) -> Reply
        requires fitted { IsFitted plan.now self.old }
        requires signal { SignalFits (length self.old.frame.ends) (length self.old.tracks) signal.now }
        requires train { IsSome (train_on self.old.tracks signal.now.from) }
        requires free { AreEmpty self.old.tracks (entered_by signal.now) }
        requires to { signal.now.to ≡ Section way }
        requires few { of_way self.old.sent way < 2 ^ 32 }
        ensures told { (train : ℕ) (line : List Passage) → train_on self.old.tracks signal.now.from ≡ Some train
            → PlainLineAgrees (Out way) (here_of self.old) line → plain_line_number line ≡ word
            → IsTold (List Passage)
            (enter (here_of self.old) (left_by plan.now (here_of self.old) signal.now) way train line)
            result (here_of self.new) }
        ensures fitted { IsFitted plan.now self.new }
    {
        let k = self.sent.get(way) + 1;
        if lane(word, k) != 0 {
            return Reply::SectionFull { k };
        }
        let train = self.go(plan, signal);
        self.sent.set(way, k);
        Reply::Entered { k, train }
    }
}
