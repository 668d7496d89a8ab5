//! What a signalman keeps of the line's plan beside his desk, to tell which calls it knows.

ghost use Rattle.std.specs.Prelude.{◌≡◌, ◌==◌, IfOk, map};
ghost use Rattle.signalman_seats.specs.Notes.{AreNotesOf, notes_know, notes_know_act, notes_know_berth};
ghost use Rattle.signalman_seats.specs.Notes.{notes_know_code, notes_know_train};

use bell_codes::CodeNo;
use block_words::Way;
use line_law::{Act, Call, moments_of};
use line_plan::{BoxPlan, Plan, TrainPlan, comes_in, has_neighbour, leaves};
use rail_text::NoMemory;
use std::alloc::Global;

/// A few numbers of a line's plan, and which of its trains are brought at one box.
#[derive(Drop)]
pub struct PlanNotes {
    /// How many boxes the line has.
    pub boxes: u32,
    /// How many codes are in its table.
    pub codes: usize,
    /// How many moments a day has.
    pub moments: u32,
    /// Whether each train is brought at the box, that of train 1 first.
    pub brought_here: Vec<bool>,
}

// Whether each train is brought at a box.
fn brought_here(alloc: Global, trains: &[TrainPlan], box_no: u32) -> Result<Vec<bool>, NoMemory>
    ensures { IfOk result (λ here. here.items ≡ map (λ train. train.box_no == box_no) trains.now) }
{
    let mut here = Vec::new(alloc);
    for train in trains {
        here.push(train.box_no == box_no)?;
    }
    Ok(here)
}

impl PlanNotes {
    /// The notes for a box of a plan.
    pub fn of_plan(alloc: Global, plan: &Plan, box_no: u32) -> Result<PlanNotes, NoMemory>
        ensures { IfOk result (λ notes. AreNotesOf plan.now box_no notes) }
    {
        plan.meets_conditions();
        let brought_here = brought_here(alloc, plan.trains.as_slice(), box_no)?;
        Ok(PlanNotes {
            boxes: plan.boxes.len() as u32,
            codes: plan.codes.len(),
            moments: moments_of(plan.version),
            brought_here,
        })
    }

    // Whether a code number is one of the line's code table.
    fn knows_code(&self, code: CodeNo) -> bool
        ensures { result ≡ notes_know_code self.now code }
    {
        1 <= code && (code as usize) <= self.codes
    }

    // Whether the line of that way comes into a box from a neighbour and has a berth there.
    fn knows_berth(&self, box_plan: &BoxPlan, box_no: u32, way: Way) -> bool
        ensures { result ≡ notes_know_berth self.now box_plan.now box_no way }
    {
        comes_in(self.boxes, box_no, way) && box_plan.berth(way).is_some()
    }

    // Whether a train is one that is brought at the box.
    fn knows_train(&self, train: u32) -> bool
        ensures { result ≡ notes_know_train self.now train }
    {
        0 < train
            && ((train - 1) as usize) < self.brought_here.len()
            && self.brought_here[(train - 1) as usize]
    }

    // The conditions of a call of the box, by what it does.
    fn knows_act(&self, box_plan: &BoxPlan, box_no: u32, act: Act) -> bool
        ensures { result ≡ notes_know_act self.now box_plan.now box_no act }
    {
        match act {
            Act::Ring { side, code } | Act::AwaitBell { side, code } => {
                has_neighbour(self.boxes, box_no, side) && self.knows_code(code)
            }
            Act::Hear { side } => has_neighbour(self.boxes, box_no, side),
            Act::AwaitBlock { way, position: _ } => leaves(self.boxes, box_no, way),
            Act::Pull { lever } | Act::Put { lever } => box_plan.lever(lever).is_some(),
            Act::Pass { lever } | Act::Overrun { lever } => {
                box_plan.lever(lever).is_some() && box_plan.signal(lever).is_some()
            }
            Act::Bring { train } => self.knows_train(train),
            Act::Turn { way, position: _ }
            | Act::AwaitTrain { way }
            | Act::Berth { way }
            | Act::BerthPart { way }
            | Act::ClearPortion { way }
            | Act::Wind { way }
            | Act::Release { way } => self.knows_berth(box_plan, box_no, way),
        }
    }

    /// Whether the plan knows a call of the box that has this plan.
    pub fn knows(&self, box_plan: &BoxPlan, box_no: u32, call: &Call) -> bool
        ensures { result ≡ notes_know self.now box_plan.now box_no call.now }
    {
        box_no < self.boxes
            && call.moment < self.moments
            && self.knows_act(box_plan, box_no, call.act)
    }
}
