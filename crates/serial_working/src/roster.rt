//! What each signalman has still to do.

use crate::turns::{NumberedCall, next_call, take_call};
use line_law::Call;
use script_text::Script;
use std::alloc::{AllocError, Global};
use std::marker::Model;

/// The scripts of a line, and how many calls of each are made. Contracts see the calls that each box has left.
#[derive(Drop)]
pub struct Roster<'a> {
    scripts: &'a [Script],
    made: Vec<usize>,
}

impl<'a> Model for Roster<'a> {
    ghost use Rattle.std.specs.Prelude.{List};
    ghost use Rattle.line_law.specs.declared.call.Call.{Call};
    ghost use Rattle.serial_working.specs.Rosters.{IsRoster, calls_of_scripts, left_of};

    ghost Value = { List (List Call) };

    ghost view = { λ r. left_of (calls_of_scripts r.scripts.now) r.made.items };

    ghost invariant = { λ r. IsRoster r.scripts.now r.made.items };
}

impl<'a> Roster<'a> {
    ghost use Rattle.std.specs.Prelude.{◌≡◌, ◌<◌, IfOk, length, option_map};
    ghost use Rattle.line_law.specs.Serial.{calls_left};
    ghost use Rattle.serial_working.specs.Rosters.{AreFewCalls, TakesCall, calls_of_scripts, head_of};

    /// Nothing is made.
    #[tactic(auto, using(crate::proofs::LeftOf::roster_rules))]
    pub fn new(alloc: Global, scripts: &'a [Script]) -> Result<Roster<'a>, AllocError>
        requires { AreFewCalls scripts.now }
        ensures { IfOk result (λ roster. roster ≡ calls_of_scripts scripts.now) }
    {
        let made = vec![in alloc; 0usize; scripts.len()]?;
        Ok(Roster { scripts, made })
    }

    /// How many boxes there are.
    #[tactic(auto, using(crate::proofs::LeftOf::roster_rules))]
    pub fn boxes(&self) -> usize
        ensures { result ≡ length self.now }
    {
        self.scripts.len()
    }

    /// The next call of a box, if it has one left.
    #[tactic(auto, using(crate::proofs::LeftOf::roster_rules))]
    pub fn next_of(&self, box_no: usize) -> Option<&'a Call>
        requires { box_no < length self.now }
        ensures { option_map (λ call. call.now) result ≡ head_of (calls_left self.now box_no) }
    {
        next_call(self.scripts, &self.made, box_no)
    }

    /// Takes the next call of a box, which has one left, with its number in the script, from 1.
    #[tactic(auto, using(crate::proofs::LeftOf::roster_rules))]
    pub fn take(&mut self, box_no: usize) -> NumberedCall
        requires box_no { box_no < length self.old }
        requires left { 0 < length (calls_left self.old box_no) }
        ensures { TakesCall self.old self.new box_no result.call }
    {
        take_call(self.scripts, &mut self.made, box_no)
    }
}
