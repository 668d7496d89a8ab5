//! The desk of one box.

ghost use Rattle.std.specs.Prelude.{◌≡◌, ℕ, ◌<◌, ◌≤◌, ◌+◌, ◌^◌, not, IfOk, length};
ghost use Rattle.line_plan.specs.Plans.{PlanFields};
ghost use Rattle.line_law.specs.Known.{KnowsCall};
ghost use Rattle.line_law.specs.Law.{at_moment, box_plan_of, decide, link_of};
ghost use Rattle.line_law.specs.States.{opening_box};
ghost use Rattle.box_desk.specs.Desks.{Answers, IsAsked, IsDeskOf, IsMet, WordMeets, moved_to};
ghost use Rattle.word_laws.specs.Operations.{met_by};
ghost use Rattle.box_desk.specs.Steps.{Finishes, ask_of};

use crate::ask::{Step, WordAsk};
use crate::equipment::Equipment;
use crate::opening::places_of_trains;
use line_law::{Call, Reply};
use line_plan::{BoxPlan, Plan};
use rail_text::NoMemory;
use std::alloc::Global;
use std::marker::Model;

/// One box's state apart from the line: its lever frame with the bridles that are compiled of its locking table, its
/// track circuits, its commutators with their controls, and its counts. The levers stand where the frame's stand.
///
/// Each call takes two steps. `prepare` decides it in the box alone, or asks for operations on one shared word of the
/// line. The caller does these, with `met` between two looks, and `finish` then decides the call by the word as it
/// stood before the deciding operation. After opening nothing takes memory.
///
/// Contracts see it as the plan of the box, what it keeps of the line's plan, the law's box state, and how many calls
/// were made.
#[derive(Drop)]
pub struct Desk {
    plan: BoxPlan,
    // The place of each train of the line, that of train 1 first.
    train_places: Vec<u32>,
    delay: u32,
    equipment: Equipment,
    calls: u64,
}

impl Model for Desk {
    ghost use Rattle.box_desk.specs.Boxes.{here_of};
    ghost use Rattle.box_desk.specs.Desks.{DeskFields, IsDesk};

    ghost Value = { DeskFields };

    ghost view = { λ d. record {
      box_plan = d.plan;
      train_places = d.train_places.items;
      delay = d.delay;
      here = here_of d.equipment;
      calls = d.calls;
    } };

    ghost invariant = { λ d. IsDesk d.plan d.train_places.items d.delay d.equipment d.calls };
}

impl Desk {
    /// The desk of box `box_no` as the line opens.
    ///
    /// # Errors
    ///
    /// `NoMemory` where memory runs out.
    pub fn open(alloc: Global, plan: &Plan, box_no: u32) -> Result<Desk, NoMemory>
        requires { box_no < length plan.now.boxes }
        ensures desk { IfOk result (λ desk. IsDeskOf plan.now box_no desk) }
        ensures here { IfOk result (λ desk. desk.here
            ≡ opening_box (length plan.now.trains) (box_plan_of plan.now box_no)) }
        ensures calls { IfOk result (λ desk. desk.calls ≡ 0) }
    {
        plan.meets_conditions();
        let box_plan = &plan.boxes.as_slice()[box_no as usize];
        let train_places = places_of_trains(alloc, plan)?;
        let equipment = Equipment::open(alloc, plan, box_no, box_plan)?;
        Ok(Desk {
            plan: box_plan.copy(alloc)?,
            train_places,
            delay: plan.delay,
            equipment,
            calls: 0,
        })
    }

    /// The first step of a call that the plan knows, at a moment not below that of the last. A call that is decided in
    /// the box alone is answered, and counted; any other asks for its word, and nothing has changed but the moment of
    /// the last call.
    pub fn prepare(&mut self, call: &Call) -> Step
        requires known { (plan : PlanFields) × (b : ℕ) × IsDeskOf plan b self.old × KnowsCall plan b call.now }
        requires later { self.old.here.moment ≤ call.now.moment }
        requires few { self.old.calls < 2 ^ 32 }
        ensures { (plan : PlanFields) (b : ℕ) → IsDeskOf plan b self.old
            → Answers (decide plan (box_plan_of plan b) call.now.act (at_moment self.old.here call.now.moment))
            (ask_of plan (box_plan_of plan b) call.now (at_moment self.old.here call.now.moment))
            (moved_to self.old call.now.moment) result self.new }
    {
        let step = self
            .equipment
            .prepare(&self.plan, &self.train_places, self.delay, call);
        if let Step::Local(_) = step {
            self.calls += 1;
        }
        step
    }

    /// Whether a shown word satisfies a call that looks, or has the room that a train needs which would leave; then the
    /// second operation is due, if the call has one. The law's reply at that word tells that the call fell short
    /// exactly where the answer is no.
    pub fn met(&self, ask: &WordAsk, shown: u64) -> bool
        requires asked { (plan : PlanFields) × (b : ℕ) × IsAsked plan b self.now ask.now
            × WordMeets plan b self.now ask.now shown }
        requires few { self.now.calls < 2 ^ 32 }
        ensures short { (plan : PlanFields) (b : ℕ) → IsAsked plan b self.now ask.now
            → IsMet plan b self.now ask.now.call.act shown result }
        ensures met { result ≡ met_by self.now.box_plan ask.now.call.act self.now.here shown }
    {
        self.equipment.met(&self.plan, ask.call.act, shown)
    }

    /// The second step of a call that `prepare` asked a word for, by that word as it stood before the deciding
    /// operation: the law's reply, with the law's box state, in every pair of neighbours that has this word and agrees
    /// with the box. The call is counted.
    pub fn finish(&mut self, ask: WordAsk, old_word: u64) -> Reply
        requires asked { (plan : PlanFields) × (b : ℕ) × IsAsked plan b self.old ask
            × WordMeets plan b self.old ask old_word }
        requires few { self.old.calls < 2 ^ 32 }
        ensures told { (plan : PlanFields) (b : ℕ) → IsDeskOf plan b self.old
            → Finishes (decide plan (box_plan_of plan b) ask.call.act self.old.here)
            (link_of (box_plan_of plan b) ask.call.act) self.old.here old_word result self.new.here }
        ensures kept { self.new ≡ record self.old { here = self.new.here; calls = self.old.calls + 1 } }
    {
        self.calls += 1;
        self.equipment
            .decide_by_word(&self.plan, ask.call.act, old_word)
    }

    /// The moment of the last call, or 0.
    pub fn moment(&self) -> u32
        ensures { result ≡ self.now.here.moment }
    {
        self.equipment.moment
    }

    /// The plan of its box.
    pub fn box_plan(&self) -> &BoxPlan
        ensures { result.now ≡ self.now.box_plan }
    {
        &self.plan
    }

    /// How many calls were answered since the line opened.
    pub fn calls(&self) -> u64
        ensures { result ≡ self.now.calls }
    {
        self.calls
    }
}
