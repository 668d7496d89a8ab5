//! The first step of a call: decided in its box alone, or asking for a shared word.

ghost use Rattle.std.specs.Prelude.{◌≡◌, ◌<◌, ◌+◌, ◌^◌, length};
ghost use Rattle.line_plan.specs.Plans.{PlanFields};
ghost use Rattle.line_law.specs.Law.{at_moment, decide};
ghost use Rattle.line_law.specs.Sound.{IsSound};
ghost use Rattle.box_desk.specs.Boxes.{AreFew, IsFitted, here_of};
ghost use Rattle.box_desk.specs.Desks.{FitsLever, FitsTrain, IsKeptOf};
ghost use Rattle.box_desk.specs.Steps.{Prepares, ask_of};

use crate::ask::Step;
use crate::equipment::Equipment;
use line_law::Call;
use line_plan::BoxPlan;

impl Equipment {
    /// The first step of a call at its moment.
    pub(crate) fn prepare(
        &mut self,
        plan: &BoxPlan,
        train_places: &[u32],
        delay: u32,
        call: &Call,
    ) -> Step
        requires sound { IsSound plan.now }
        requires fitted { IsFitted plan.now self.old }
        requires few { AreFew (here_of self.old) }
        requires lever { FitsLever plan.now call.now.act }
        requires train { FitsTrain plan.now train_places.now call.now.act }
        requires brought { length self.old.trains.brought ≡ length train_places.now }
        requires moment { call.now.moment + delay < 2 ^ 32 }
        requires kept { (line : PlanFields) × IsKeptOf line train_places.now delay }
        ensures told { (line : PlanFields) → IsKeptOf line train_places.now delay
            → Prepares (decide line plan.now call.now.act (at_moment (here_of self.old) call.now.moment))
            (ask_of line plan.now call.now (at_moment (here_of self.old) call.now.moment))
            (at_moment (here_of self.old) call.now.moment) result (here_of self.new) }
        ensures fitted { IsFitted plan.now self.new }
    {
        self.moment = call.moment;
        match self.decide_locally(plan, train_places, delay, call.act) {
            Some(reply) => Step::Local(reply),
            None => Step::NeedsWord(self.ask(plan, call)),
        }
    }
}
