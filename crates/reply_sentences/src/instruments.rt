//! What is said of block instruments.

ghost use Rattle.std.specs.Prelude.{◌<◌, IsTrue, OnOk, length};
ghost use Rattle.script_text.specs.Replies.{is_stand};

use crate::names::position_name;
use crate::sentence::Sentence;
use block_words::{Position, Way, WelwynState};
use line_plan::{Plan, way_word};
use std::alloc::AllocError;

impl Sentence {
    /// A home of the berth is reversed: `home_reversed`.
    pub fn say_home_reversed(&mut self, lever: u32) -> Result<(), AllocError>
        ensures { OnOk result (length self.old < length self.new) }
    {
        self.say_lever("home lever ", lever)?;
        self.say(" is reversed: it has to be normal before Line Clear is given")
    }

    /// A train stands on the berth or on a clearing place: `track_occupied`.
    pub fn say_track_occupied(
        &mut self,
        plan: &Plan,
        box_no: u32,
        place: u32,
        train: u32,
    ) -> Result<(), AllocError>
        requires at { box_no < length plan.now.boxes }
        requires stand { IsTrue (is_stand plan.now box_no place train) }
        ensures { OnOk result (length self.old < length self.new) }
    {
        self.say_standing(plan, box_no, place, train)?;
        self.say(", which has to be clear before Line Clear is given")
    }

    /// Welwyn control holds the commutator: `welwyn_holds`.
    pub fn say_welwyn_holds(&mut self, state: WelwynState) -> Result<(), AllocError>
        ensures { OnOk result (length self.old < length self.new) }
    {
        match state {
            WelwynState::Ready => self.say("Welwyn control is ready"),
            WelwynState::Given => {
                self.say("Welwyn control holds the commutator: Line Clear was given, and ")?;
                self.say("no train has come to the berth since")
            }
            WelwynState::Berthed => {
                self.say("Welwyn control holds the commutator: a train came to the berth, ")?;
                self.say("and has not left it")
            }
        }
    }

    /// The permissive line is full: `count_full`.
    pub fn say_count_full(&mut self, out: u32) -> Result<(), AllocError>
        ensures { OnOk result (length self.old < length self.new) }
    {
        self.say_count(
            "as many trains as the permissive line may hold are out on it: ",
            u64::from(out),
        )
    }

    // Says how often an instrument has been turned.
    fn say_turn(&mut self, v: u64) -> Result<(), AllocError>
        ensures { OnOk result (length self.old < length self.new) }
    {
        if v == 0 {
            return self.say(", and has never been turned");
        }
        self.say_count(", at its turn ", v)
    }

    /// The instrument shows another position than the one that is waited for: `not_yet`.
    pub fn say_block_not_yet(&mut self, shown: Position, v: u64) -> Result<(), AllocError>
        ensures { OnOk result (length self.old < length self.new) }
    {
        self.say("the instrument shows ")?;
        self.say(position_name(shown))?;
        self.say_turn(v)
    }

    /// The instrument holds a starter: `held_by_instrument`.
    pub fn say_held_by_instrument(
        &mut self,
        held: u32,
        way: Way,
        shown: Position,
        spent: bool,
        v: u64,
    ) -> Result<(), AllocError>
        ensures { OnOk result (length self.old < length self.new) }
    {
        self.say_lever("lever ", held)?;
        self.say(" is held by the instrument of the ")?;
        self.say(way_word(way))?;
        self.say(" line, which shows ")?;
        self.say(position_name(shown))?;
        if spent {
            self.say(", spent by an earlier pull")?;
        }
        self.say_turn(v)
    }
}
