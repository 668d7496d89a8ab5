//! The names of things of a plan, said in a sentence.

ghost use Rattle.std.specs.Prelude.{◌≡◌, ◌+◌, ◌≤◌, ◌<◌, IsTrue, OnOk, length};
ghost use Rattle.line_law.specs.Known.{is_code_no};
ghost use Rattle.line_plan.specs.Plans.{is_train};
ghost use Rattle.script_text.specs.Moments.{hundred_hours};
ghost use Rattle.script_text.specs.Replies.{is_place, is_row, is_stand};
ghost use Rattle.reply_sentences.specs.Names.{position_name};

use crate::sentence::Sentence;
use bell_codes::CodeNo;
use block_words::Position;
use line_plan::Plan;
use locking_table::{Row, put_row};
use script_text::put_moment;
use std::alloc::{AllocError, Global};

/// A position as the railway names it.
pub fn position_name(position: Position) -> &'static str
    ensures { result.now ≡ position_name position }
{
    match position {
        Position::Normal => "Normal",
        Position::LineClear => "Line Clear",
        Position::TrainOnLine => "Train on Line",
    }
}

impl Sentence {
    /// Says these words and a train's name.
    pub fn say_train(&mut self, plan: &Plan, words: &str, train: u32) -> Result<(), AllocError>
        requires { IsTrue (is_train plan.now.trains train) }
        ensures { OnOk result (length self.old + length words.now ≤ length self.new) }
    {
        self.say(words)?;
        self.say(plan.train(train).name.as_str())
    }

    /// Says these words and a place's name.
    pub fn say_place(
        &mut self,
        plan: &Plan,
        box_no: u32,
        words: &str,
        place: u32,
    ) -> Result<(), AllocError>
        requires at { box_no < length plan.now.boxes }
        requires place { IsTrue (is_place plan.now box_no place) }
        ensures { OnOk result (length self.old + length words.now ≤ length self.new) }
    {
        self.say(words)?;
        let here = &plan.boxes.as_slice()[box_no as usize];
        self.say(here.places.name_of(place))
    }

    /// Says that a train stands at a place.
    pub fn say_standing(
        &mut self,
        plan: &Plan,
        box_no: u32,
        place: u32,
        train: u32,
    ) -> Result<(), AllocError>
        requires at { box_no < length plan.now.boxes }
        requires stand { IsTrue (is_stand plan.now box_no place train) }
        ensures { OnOk result (length self.old < length self.new) }
    {
        self.say_train(plan, "train ", train)?;
        self.say_place(plan, box_no, " stands at ", place)
    }

    /// Says these words and a code of the plan's code table.
    pub fn say_code(&mut self, plan: &Plan, words: &str, code: CodeNo) -> Result<(), AllocError>
        requires { IsTrue (is_code_no plan.now code) }
        ensures { OnOk result (length self.old + length words.now ≤ length self.new) }
    {
        self.say(words)?;
        let code = plan.codes.code(code);
        for (at, beats) in code.groups().iter().enumerate() {
            if at > 0 {
                self.say("-")?;
            }
            self.say_number(u64::from(*beats))?;
        }
        Ok(())
    }

    /// Says these words and a moment below 100 hours.
    pub fn say_moment(
        &mut self,
        alloc: Global,
        version: u8,
        words: &str,
        moment: u32,
    ) -> Result<(), AllocError>
        requires { moment < hundred_hours version }
        ensures { OnOk result (length self.old + length words.now ≤ length self.new) }
    {
        self.say(words)?;
        let mut text = String::new(alloc);
        put_moment(&mut text, version, moment)?;
        self.say(text.as_str())
    }

    /// Says these words and a row of a locking table, as the table prints it.
    pub fn say_row(&mut self, alloc: Global, words: &str, row: &Row) -> Result<(), AllocError>
        ensures { OnOk result (length self.old + length words.now ≤ length self.new) }
    {
        self.say(words)?;
        let mut text = String::new(alloc);
        put_row(&mut text, row)?;
        self.say(text.as_str())
    }
}
