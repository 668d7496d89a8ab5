//! What is said of bells.

ghost use Rattle.std.specs.Prelude.{◌<◌, ◌≤◌, IsTrue, OnOk, length};
ghost use Rattle.line_law.specs.Known.{is_code_no};
ghost use Rattle.script_text.specs.Replies.{shows_code};

use crate::sentence::Sentence;
use bell_codes::CodeNo;
use block_words::Way;
use line_law::Act;
use line_plan::Plan;
use std::alloc::AllocError;

// The neighbour of a box on a side, if the line has it.
fn neighbour(plan: &Plan, box_no: u32, side: Way) -> Option<&str> {
    let at = match side {
        Way::Up => (box_no as usize).checked_sub(1)?,
        Way::Down => box_no as usize + 1,
    };
    let box_plan = plan.boxes.as_slice().get(at)?;
    Some(box_plan.name.as_str())
}

impl Sentence {
    // Says which bell a call is at, by its neighbour.
    fn say_bell(&mut self, plan: &Plan, box_no: u32, act: Act) -> Result<(), AllocError>
        ensures { OnOk result (length self.old < length self.new) }
    {
        let (words, side) = match act {
            Act::Ring { side, .. } => ("the bell to ", side),
            Act::Hear { side } | Act::AwaitBell { side, .. } => ("the bell from ", side),
            _ => return self.say("the bell"),
        };
        match neighbour(plan, box_no, side) {
            Some(name) => {
                self.say(words)?;
                self.say(name)
            }
            None => self.say("the bell"),
        }
    }

    /// The bell holds a code: `bell_busy`.
    pub fn say_bell_busy(
        &mut self,
        plan: &Plan,
        box_no: u32,
        act: Act,
        code: CodeNo,
    ) -> Result<(), AllocError>
        requires { IsTrue (is_code_no plan.now code) }
        ensures { OnOk result (length self.old < length self.new) }
    {
        self.say_bell(plan, box_no, act)?;
        self.say_code(plan, " holds ", code)?;
        self.say(", which nobody has heard")
    }

    /// The bell holds no code: `silent`.
    pub fn say_silent(&mut self, plan: &Plan, box_no: u32, act: Act) -> Result<(), AllocError>
        ensures { OnOk result (length self.old < length self.new) }
    {
        self.say_bell(plan, box_no, act)?;
        self.say(" holds no code")
    }

    /// The bell doesn't hold the code that is waited for: `not_yet`.
    pub fn say_bell_not_yet(
        &mut self,
        plan: &Plan,
        box_no: u32,
        act: Act,
        shown: Option<CodeNo>,
    ) -> Result<(), AllocError>
        requires { IsTrue (shows_code plan.now shown) }
        ensures { OnOk result (length self.old < length self.new) }
    {
        match shown {
            Some(code) => self.say_bell_busy(plan, box_no, act, code),
            None => self.say_silent(plan, box_no, act),
        }
    }
}
