//! A line in one hand: every box and every pair, worked one call at a time.

ghost use Rattle.std.specs.Prelude.{◌≡◌, ◌<◌, ◌^◌, ◌+◌, ◌↔◌, IfOk, IsTrue, length, map, replicate};
ghost use Rattle.line_plan.specs.Sections.{IsSection};
ghost use Rattle.line_law.specs.History.{Performs};
ghost use Rattle.line_law.specs.Law.{MayCall, pair_of, box_plan_of, step};
ghost use Rattle.line_law.specs.Lines.{IsLineOf, RowsHold};
ghost use Rattle.line_law.specs.Ready.{IsReady};
ghost use Rattle.line_law.specs.Sections.{count_of, held_by};
ghost use Rattle.line_law.specs.Tracks.{train_on};
ghost use Rattle.line_law.specs.States.{box_at, opening_box, opening_pair, opening_state, pair_at};

use crate::answer::answer_on;
use crate::call::{Call, Reply};
use crate::known::knows;
use crate::link::Link;
use crate::state::{BoxState, PairState};
use crate::step::perform_on;
use crate::tracks::train_on;
use line_plan::{BoxPlan, Plan, Section};
use rail_text::NoMemory;
use std::alloc::Global;
use std::marker::Model;

/// A line that one hand works, call by call. Contracts see its state, and how many calls were made.
#[derive(Drop)]
pub struct Plain {
    boxes: Vec<BoxState>,
    pairs: Vec<PairState>,
    calls: u64,
}

impl Model for Plain {
    ghost use Rattle.line_law.specs.Lines.{PlainState};

    ghost Value = { PlainState };

    ghost view = { λ plain. record {
      line = record { boxes = plain.boxes.items; pairs = plain.pairs.items };
      calls = plain.calls;
    } };
}

// The boxes of a line that opens.
fn open_boxes(alloc: Global, boxes: &[BoxPlan], trains: usize) -> Result<Vec<BoxState>, NoMemory>
    ensures { IfOk result (λ opened. opened.items ≡ map (λ box_plan. opening_box trains box_plan) boxes.now) }
{
    let mut opened = Vec::new(alloc);
    for box_plan in boxes {
        opened.push(BoxState::open(alloc, box_plan, trains)?)?;
    }
    Ok(opened)
}

/// So many pairs of a line that opens. The error is want of memory.
pub fn open_pairs(alloc: Global, count: usize) -> Result<Vec<PairState>, NoMemory>
    ensures { IfOk result (λ pairs. pairs.items ≡ replicate count opening_pair) }
{
    let mut pairs = Vec::new(alloc);
    for _ in 0..count {
        pairs.push(PairState::open())?;
    }
    Ok(pairs)
}

impl Plain {
    // The line as it opens.
    #[tactic(auto, unfolding(crate::specs::States::opening_state))]
    fn opened(alloc: Global, plan: &Plan) -> Result<Plain, NoMemory>
        ensures { IfOk result (λ plain. plain ≡ record { line = opening_state plan.now; calls = 0 }) }
    {
        Ok(Plain {
            boxes: open_boxes(alloc, plan.boxes.as_slice(), plan.trains.len())?,
            pairs: open_pairs(alloc, plan.boxes.len() - 1)?,
            calls: 0,
        })
    }

    /// The line of a plan as it opens, with no call made.
    #[tactic(auto, using(crate::proofs::Opens::opens))]
    pub fn open(alloc: Global, plan: &Plan) -> Result<Plain, NoMemory>
        ensures opening { IfOk result (λ plain. plain ≡ record { line = opening_state plan.now; calls = 0 }) }
        ensures line { IfOk result (λ plain. IsLineOf plan.now plain) }
    {
        Plain::opened(alloc, plan)
    }

    // The moment of a box's last call, or 0.
    fn last_moment(&self, box_no: u32) -> u32
        requires { box_no < length self.now.line.boxes }
        ensures { result ≡ (box_at self.now.line box_no).moment }
    {
        self.boxes[box_no as usize].moment
    }

    /// Whether a call may be made now: the plan knows it, and its moment isn't below that of the box's last call.
    pub fn may_call(&self, plan: &Plan, box_no: u32, call: &Call) -> bool
        requires { IsLineOf plan.now self.now }
        ensures { IsTrue result ↔ MayCall plan.now self.now.line box_no call.now }
    {
        knows(plan, box_no, call) && self.last_moment(box_no) <= call.moment
    }

    // The reply that a call would get, where the states are ready for it.
    fn answer_here(&self, plan: &Plan, box_no: u32, call: &Call) -> Reply
        requires plan_box { box_no < length plan.now.boxes }
        requires here { box_no < length self.now.line.boxes }
        requires pair { pair_of plan.now box_no call.now < length self.now.line.pairs }
        requires ready { IsReady plan.now (box_plan_of plan.now box_no) call.now (box_at self.now.line box_no)
            (pair_at self.now.line (pair_of plan.now box_no call.now)) }
        requires rows { RowsHold (box_plan_of plan.now box_no) (box_at self.now.line box_no) }
        ensures { result ≡ (step plan.now self.now.line box_no call.now).reply }
    {
        answer_on(&self.boxes, &self.pairs, plan, box_no, call)
    }

    /// The reply that a call would get, with nothing changed.
    pub fn answer(&self, plan: &Plan, box_no: u32, call: &Call) -> Reply
        requires line { IsLineOf plan.now self.now }
        requires call { MayCall plan.now self.now.line box_no call.now }
        requires few { self.now.calls < 2 ^ 32 }
        ensures { result ≡ (step plan.now self.now.line box_no call.now).reply }
    {
        plan.meets_conditions();
        self.answer_here(plan, box_no, call)
    }

    // One call, where the states are ready for it.
    fn step(&mut self, plan: &Plan, box_no: u32, call: &Call) -> Reply
        requires plan_box { box_no < length plan.now.boxes }
        requires here { box_no < length self.old.line.boxes }
        requires pair { pair_of plan.now box_no call.now < length self.old.line.pairs }
        requires ready { IsReady plan.now (box_plan_of plan.now box_no) call.now (box_at self.old.line box_no)
            (pair_at self.old.line (pair_of plan.now box_no call.now)) }
        requires rows { RowsHold (box_plan_of plan.now box_no) (box_at self.old.line box_no) }
        requires few { self.old.calls < 2 ^ 32 }
        ensures told { step plan.now self.old.line box_no call.now ≡ record { reply = result; after = self.new.line } }
        ensures calls { self.new.calls ≡ self.old.calls + 1 }
    {
        self.calls += 1;
        perform_on(&mut self.boxes, &mut self.pairs, plan, box_no, call)
    }

    /// One call of a box: its reply, and what it changes, are those of the law. It takes no memory.
    pub fn perform(&mut self, plan: &Plan, box_no: u32, call: &Call) -> Reply
        requires line { IsLineOf plan.now self.old }
        requires call { MayCall plan.now self.old.line box_no call.now }
        requires few { self.old.calls < 2 ^ 32 }
        ensures told { step plan.now self.old.line box_no call.now ≡ record { reply = result; after = self.new.line } }
        ensures calls { self.new.calls ≡ self.old.calls + 1 }
        ensures line { IsLineOf plan.now self.new }
        ensures performed { Performs plan.now self.old (record { box_no = box_no; call = call.now; reply = result })
            self.new }
    {
        plan.meets_conditions();
        self.step(plan, box_no, call)
    }

    // How many trains stand in a section's berth, by the place of that.
    fn in_berth(&self, box_no: u32, place: u32) -> u32
        requires here { box_no < length self.now.line.boxes }
        requires place { place < length (box_at self.now.line box_no).places }
        ensures { result ≡ count_of (train_on (box_at self.now.line box_no).places place) }
    {
        match train_on(self.boxes[box_no as usize].places.as_slice(), place) {
            Some(_) => 1,
            None => 0,
        }
    }

    /// How many trains a section holds: those on its plain line, and the one in its berth.
    pub fn held(&self, plan: &Plan, section: Section) -> u32
        requires line { IsLineOf plan.now self.now }
        requires section { IsSection plan.now section }
        ensures { result ≡ held_by plan.now self.now.line section }
    {
        plan.meets_conditions();
        let pair = &self.pairs[Link::Out(section.way).pair_no(section.rear as usize)];
        let on_line = pair.plain_line(section.way).len() as u32;
        match section.berth(plan) {
            Some(berth) => on_line + self.in_berth(section.advance(plan), berth.place),
            None => on_line,
        }
    }

    /// The boxes as they stand, in their order.
    pub fn boxes(&self) -> &[BoxState]
        ensures { result.now ≡ self.now.line.boxes }
    {
        &self.boxes
    }

    /// What neighbours share, pair by pair.
    pub fn pairs(&self) -> &[PairState]
        ensures { result.now ≡ self.now.line.pairs }
    {
        &self.pairs
    }

    /// How many calls were made since the line opened.
    pub fn calls(&self) -> u64
        ensures { result ≡ self.now.calls }
    {
        self.calls
    }
}
