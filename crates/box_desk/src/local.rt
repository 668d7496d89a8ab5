//! The first step of a call: what the box decides alone.

ghost use Rattle.std.specs.Prelude.{◌≡◌, ◌<◌, ◌+◌, ◌^◌, length};
ghost use Rattle.line_plan.specs.Plans.{PlanFields};
ghost use Rattle.line_law.specs.Law.{decide};
ghost use Rattle.line_law.specs.Sound.{IsSound};
ghost use Rattle.box_desk.specs.Boxes.{IsFitted, here_of};
ghost use Rattle.box_desk.specs.Desks.{FitsLever, FitsTrain, IsKeptOf};
ghost use Rattle.box_desk.specs.Steps.{Locally};

use crate::equipment::Equipment;
use line_law::{Act, Reply};
use line_plan::BoxPlan;
use train_moves::plan_move;

impl Equipment {
    /// What a call makes of its box alone: the law's reply, or nothing where it is decided on a shared word.
    pub(crate) fn decide_locally(
        &mut self,
        plan: &BoxPlan,
        train_places: &[u32],
        delay: u32,
        act: Act,
    ) -> Option<Reply>
        requires sound { IsSound plan.now }
        requires fitted { IsFitted plan.now self.old }
        requires lever { FitsLever plan.now act }
        requires train { FitsTrain plan.now train_places.now act }
        requires brought { length self.old.trains.brought ≡ length train_places.now }
        requires few { self.old.moment + delay < 2 ^ 32 }
        ensures told { (line : PlanFields) → IsKeptOf line train_places.now delay
            → Locally (decide line plan.now act (here_of self.old)) (here_of self.old) result (here_of self.new) }
        ensures fitted { IsFitted plan.now self.new }
    {
        match act {
            Act::Turn { way, position } => match plan.berth(way) {
                Some(berth) => self.turn_refusal(berth, way, position),
                None => Some(Reply::AlreadyThere),
            },
            Act::Pull { lever } => self.pull_locally(plan, lever),
            Act::Put { lever } => Some(self.put(plan, lever)),
            Act::Bring { train } => Some(self.bring(train, train_places[train as usize - 1])),
            Act::Pass { lever } => match plan_move(plan, lever) {
                Some(signal) => self.move_locally(plan, signal, false),
                None => Some(Reply::NoTrain),
            },
            Act::Overrun { lever } => match plan_move(plan, lever) {
                Some(signal) => self.move_locally(plan, signal, true),
                None => Some(Reply::NoTrain),
            },
            Act::Berth { way } | Act::BerthPart { way } => match plan.berth(way) {
                Some(berth) => self.berth_refusal(way, berth),
                None => Some(Reply::BerthOccupied { train: 0 }),
            },
            Act::ClearPortion { way } => self.clear_portion_refusal(way),
            Act::Wind { way } => Some(self.wind(way, delay)),
            Act::Release { way } => Some(self.release(way)),
            // a code that is rung or heard, and a look, are decided on a word
            _ => None,
        }
    }
}
