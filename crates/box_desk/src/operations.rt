//! The operations on shared words that a call asks for.

ghost use Rattle.std.specs.Prelude.{◌≡◌, IsSome, Some};
ghost use Rattle.line_law.specs.Tracks.{train_on};
ghost use Rattle.line_law.specs.Levers.{starter_way};
ghost use Rattle.word_laws.specs.Operations.{enter_op, first_by, look_op, pull_op, second_by, train_or_none};
ghost use Rattle.box_desk.specs.Boxes.{AreFew, here_of};
ghost use Rattle.box_desk.specs.Steps.{awaits_of};
ghost use Rattle.box_desk.specs.TrainMoves.{HasItsTrain};

use crate::ask::WordAsk;
use crate::equipment::Equipment;
use block_words::{Way, WordOp, bell_word, block_word, lane_bits, lane_mask};
use line_law::{Act, Call, starter_way};
use line_plan::{BoxPlan, Signal, To};
use train_moves::plan_move;

// A starter's pull marks its instrument as spent; any other is the box's own.
fn pull_op(starter: Option<Way>) -> WordOp
    ensures { result ≡ pull_op starter }
{
    match starter {
        Some(way) => WordOp::Pull { way },
        None => WordOp::Local,
    }
}

// Whether a call looks until it is satisfied.
fn awaits(act: Act) -> bool
    ensures { result ≡ awaits_of act }
{
    match act {
        Act::AwaitBell { side: _, code: _ }
        | Act::AwaitBlock {
            way: _,
            position: _,
        }
        | Act::AwaitTrain { way: _ } => true,
        _ => false,
    }
}

impl Equipment {
    // A train at a starter looks at the section, and then enters its lane, once that is empty; any other move is the
    // box's own.
    fn move_ops(&self, signal: &Signal) -> (WordOp, Option<WordOp>)
        requires few { AreFew (here_of self.now) }
        requires stands { IsSome (train_on self.now.tracks signal.now.from) }
        ensures first { result.0 ≡ look_op (starter_way (Some signal.now)) }
        ensures second { result.1 ≡ enter_op (here_of self.now)
            (train_or_none (train_on self.now.tracks signal.now.from)) (starter_way (Some signal.now)) }
    {
        match signal.to {
            To::Section(way) => {
                let train = self.tracks.occupant(signal.from).unwrap();
                let bits = lane_bits(self.sent.get(way) + 1, train as u16);
                let enter = WordOp::Enter { way, bits };
                (WordOp::LookSection { way }, Some(enter))
            }
            To::Place(_) | To::Away => (WordOp::Local, None),
        }
    }

    // The operations of a call, past what its box refuses: the first, and the second one, if it may have one.
    fn ops(&self, plan: &BoxPlan, act: Act) -> (WordOp, Option<WordOp>)
        requires few { AreFew (here_of self.now) }
        requires stands { HasItsTrain plan.now act (here_of self.now) }
        ensures first { result.0 ≡ first_by plan.now act (here_of self.now) }
        ensures second { result.1 ≡ second_by plan.now act (here_of self.now) }
    {
        match act {
            Act::Ring { side, code } => {
                let k = self.rung.get(side);
                let (expect, new) = (bell_word(k, 0), bell_word(k + 1, code));
                (WordOp::Ring { side, expect, new }, None)
            }
            Act::Hear { side } => (WordOp::Hear { side }, None),
            Act::AwaitBell { side, code: _ } => {
                (WordOp::LookBell { side }, Some(WordOp::Hear { side }))
            }
            Act::Turn { way, position } => {
                let new = block_word(self.lines.get(way).turns + 1, false, position);
                (WordOp::Turn { way, new }, None)
            }
            Act::AwaitBlock { way, position: _ } => (WordOp::LookBlock { way }, None),
            Act::Pull { lever } => (pull_op(starter_way(plan.signal(lever))), None),
            Act::Pass { lever } | Act::Overrun { lever } => match plan_move(plan, lever) {
                Some(signal) => self.move_ops(signal),
                None => (WordOp::Local, None),
            },
            Act::AwaitTrain { way } | Act::BerthPart { way } => {
                (WordOp::LookSection { way }, None)
            }
            Act::Berth { way } | Act::ClearPortion { way } => {
                let mask = lane_mask(self.next_number(way));
                (WordOp::TakeOut { way, mask }, None)
            }
            Act::Put { lever: _ }
            | Act::Bring { train: _ }
            | Act::Wind { way: _ }
            | Act::Release { way: _ } => (WordOp::Local, None),
        }
    }

    /// What a call asks for that is decided on a shared word.
    pub(crate) fn ask(&self, plan: &BoxPlan, call: &Call) -> WordAsk
        requires few { AreFew (here_of self.now) }
        requires stands { HasItsTrain plan.now call.now.act (here_of self.now) }
        ensures { result ≡ record {
          call = call.now;
          first = first_by plan.now call.now.act (here_of self.now);
          second = second_by plan.now call.now.act (here_of self.now);
          awaits = awaits_of call.now.act;
        } }
    {
        let (first, second) = self.ops(plan, call.act);
        WordAsk {
            call: *call,
            first,
            second,
            awaits: awaits(call.act),
        }
    }
}
