//! What each box has still to do by its script.

use line_law::Call;
use line_plan::Items;
use std::alloc::{AllocError, Global};
use std::marker::Model;

/// A script of which some calls are made. Contracts see the calls that are left.
#[derive(Drop)]
pub struct Left {
    calls: Items<Call>,
    made: usize,
}

impl Model for Left {
    ghost use Rattle.std.specs.Prelude.{◌≤◌, List, drop, length};
    ghost use Rattle.line_law.specs.declared.call.Call.{Call};

    ghost Value = { List Call };

    ghost view = { λ l. drop l.made l.calls };

    ghost invariant = { λ l. l.made ≤ length l.calls };
}

impl Left {
    ghost use Rattle.std.specs.Prelude.{◌≡◌, ◌<◌, ◌∷◌, [], length, option_map};
    ghost use Rattle.serial_working.specs.Rosters.{head_of};

    /// No call is left. It takes no memory.
    fn none(alloc: Global) -> Left
        ensures { result ≡ [] }
    {
        Left::all(Items::new(alloc))
    }

    /// All of these calls are left.
    fn all(calls: Items<Call>) -> Left
        ensures { result ≡ calls }
    {
        Left { calls, made: 0 }
    }

    /// How many calls are left.
    #[tactic(auto, using(crate::proofs::Lefts::left_count))]
    fn count(&self) -> usize
        ensures { result ≡ length self.now }
    {
        self.calls.len() - self.made
    }

    /// The next call, if one is left.
    #[tactic(auto, using(crate::proofs::Lefts::left_next))]
    fn next(&self) -> Option<&Call>
        ensures { option_map (λ call. call.now) result ≡ head_of self.now }
    {
        self.calls.as_slice().get(self.made)
    }

    /// Takes the next call.
    #[tactic(auto, using(crate::proofs::Lefts::left_count, crate::proofs::Lefts::left_taken))]
    fn take(&mut self) -> Call
        requires { 0 < length self.old }
        ensures { self.old ≡ result ∷ self.new }
    {
        let call = self.calls.as_slice()[self.made];
        self.made += 1;
        call
    }
}

/// What is left of the script of each box. Contracts see the calls that each box has left.
#[derive(Drop)]
pub struct Roster {
    boxes: Vec<Left>,
}

impl Model for Roster {
    ghost use Rattle.std.specs.Prelude.{List};
    ghost use Rattle.line_law.specs.declared.call.Call.{Call};

    ghost Value = { List (List Call) };

    ghost view = { λ r. r.boxes.items };
}

impl Roster {
    ghost use Rattle.std.specs.Prelude.{◌≡◌, ◌<◌, ◌^◌, [], IfOk, length, option_map, replicate, slice_set};
    ghost use Rattle.line_law.specs.Serial.{calls_left, count_left};
    ghost use Rattle.serial_working.specs.Rosters.{TakesCall, head_of};

    /// So many boxes without a script.
    pub fn none(alloc: Global, count: usize) -> Result<Roster, AllocError>
        ensures { IfOk result (λ roster. roster ≡ replicate count []) }
    {
        let mut boxes = Vec::new(alloc);
        for _ in 0..count {
            boxes.push(Left::none(alloc))?;
        }
        Ok(Roster { boxes })
    }

    /// How many boxes there are.
    pub fn boxes(&self) -> usize
        ensures { result ≡ length self.now }
    {
        self.boxes.len()
    }

    /// How many calls a box has left.
    pub fn count_of(&self, box_no: usize) -> usize
        requires { box_no < length self.now }
        ensures { result ≡ length (calls_left self.now box_no) }
    {
        self.boxes[box_no].count()
    }

    /// How many calls are left in all.
    pub fn count(&self) -> usize
        requires { count_left self.now < 2 ^ 32 }
        ensures { result ≡ count_left self.now }
    {
        let mut count = 0;
        for left in &self.boxes {
            count += left.count();
        }
        count
    }

    /// The next call of a box, if it has one left.
    pub fn next_of(&self, box_no: usize) -> Option<&Call>
        requires { box_no < length self.now }
        ensures { option_map (λ call. call.now) result ≡ head_of (calls_left self.now box_no) }
    {
        self.boxes[box_no].next()
    }

    /// Takes the next call of a box, which has one left.
    pub fn take(&mut self, box_no: usize) -> Call
        requires box_no { box_no < length self.old }
        requires left { 0 < length (calls_left self.old box_no) }
        ensures { TakesCall self.old self.new box_no result }
    {
        self.boxes[box_no].take()
    }

    /// Gives a box these calls, in the place of what it had left.
    pub fn give(&mut self, box_no: usize, calls: Items<Call>)
        requires { box_no < length self.old }
        ensures { self.new ≡ slice_set self.old box_no calls }
    {
        self.boxes[box_no] = Left::all(calls);
    }
}
