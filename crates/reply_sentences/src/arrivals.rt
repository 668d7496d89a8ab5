//! What is said of trains on their way.

ghost use Rattle.std.specs.Prelude.{◌<◌, IsTrue, OnOk, length};
ghost use Rattle.line_plan.specs.Plans.{is_train};
ghost use Rattle.script_text.specs.Replies.{is_stand};

use crate::sentence::Sentence;
use line_plan::Plan;
use std::alloc::AllocError;

impl Sentence {
    /// A train stands in the way: `occupied`.
    pub fn say_occupied(
        &mut self,
        plan: &Plan,
        box_no: u32,
        place: u32,
        train: u32,
    ) -> Result<(), AllocError>
        requires at { box_no < length plan.now.boxes }
        requires stand { IsTrue (is_stand plan.now box_no place train) }
        ensures { OnOk result (length self.old < length self.new) }
    {
        self.say_standing(plan, box_no, place, train)?;
        self.say(", and no other train can come there")
    }

    /// The section has no room: `section_full`.
    pub fn say_section_full(&mut self, k: u64) -> Result<(), AllocError>
        ensures { OnOk result (length self.old < length self.new) }
    {
        self.say_count("the plain line has no room for train number ", k)?;
        self.say(" of the section: four are on it")
    }

    /// The next train isn't on the plain line: `not_yet` and `no_train`.
    pub fn say_no_train_at(&mut self, j: u64) -> Result<(), AllocError>
        ensures { OnOk result (length self.old < length self.new) }
    {
        self.say_count("train number ", j)?;
        self.say(" of the section is not on the plain line")
    }

    /// A train stands in the berth: `occupied`.
    pub fn say_berth_occupied(&mut self, plan: &Plan, train: u32) -> Result<(), AllocError>
        requires { IsTrue (is_train plan.now.trains train) }
        ensures { OnOk result (length self.old < length self.new) }
    {
        self.say_train(plan, "train ", train)?;
        self.say(" stands in the berth")
    }

    /// A portion is left: `portion_ahead`.
    pub fn say_portion_ahead(&mut self, plan: &Plan, train: u32) -> Result<(), AllocError>
        requires { IsTrue (is_train plan.now.trains train) }
        ensures { OnOk result (length self.old < length self.new) }
    {
        self.say_train(plan, "a portion of train ", train)?;
        self.say(" is left on the plain line, and has to be cleared away first")
    }
}
