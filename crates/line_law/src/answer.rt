//! The reply that a call would get, with nothing changed.

ghost use Rattle.std.specs.Prelude.{◌≡◌, ◌<◌, ◌^◌, ℕ, Some, length};
ghost use Rattle.block_words.specs.declared.Way.{Way};
ghost use Rattle.locking_table.specs.Places.{IsLever};
ghost use Rattle.line_plan.specs.Frames.{frame_size};
ghost use Rattle.line_law.specs.Arrivals.{await_train, berth as berth_whole, berth_part, clear_portion};
ghost use Rattle.line_law.specs.Decisions.{OnPlainLine, on_pair};
ghost use Rattle.line_law.specs.Instruments.{turn};
ghost use Rattle.line_law.specs.Law.{at_moment, pair_of, box_plan_of, step, step_at};
ghost use Rattle.line_law.specs.Levers.{lever_link, pull, put, starter_link, starter_way};
ghost use Rattle.line_law.specs.Lines.{HasFrame, RowsHold};
ghost use Rattle.line_law.specs.Links.{way_of};
ghost use Rattle.line_law.specs.Ready.{IsReady};
ghost use Rattle.line_law.specs.Sound.{BerthFits, IsSound, SignalFits};
ghost use Rattle.line_law.specs.States.{box_at, pair_at};
ghost use Rattle.line_law.specs.declared.state.PairState.{PairState};
ghost use Rattle.line_law.specs.Trains.{enter, go, left_by, overrun, overrun_signal, pass, pass_signal};
ghost use Rattle.line_law.specs.Ways.{of_way};

use crate::call::{Act, Call, Reply};
use crate::levers::starter_way;
use crate::plain_line::PlainLine;
use crate::state::{BoxState, PairState, Passage};
use crate::step::link_of;
use crate::tracks::train_on;
use block_words::{Position, Way};
use line_plan::{Berth, BoxPlan, Plan, Signal, To};

impl PairState {
    /// The plain line of a way.
    pub fn plain_line(&self, way: Way) -> &PlainLine
        ensures { result.now ≡ of_way self.now.lines way }
    {
        match way {
            Way::Up => &self.lines.up,
            Way::Down => &self.lines.down,
        }
    }
}

impl BoxState {
    // What a turn is answered.
    fn turn_reply(&self, pair: &PairState, berth: &Berth, way: Way, position: Position) -> Reply
        requires berth { BerthFits (length self.now.ends) (length self.now.places) berth.now }
        requires few { (way : Way) → (of_way pair.now.blocks way).turns < 2 ^ 32 }
        ensures { (moment : ℕ) → (on_pair way (turn (Some berth.now) (at_moment self.now moment) way position)
            pair.now).reply ≡ result }
    {
        if let Some(reply) = self.turn_refusal(berth, way, position) {
            return reply;
        }
        Reply::Turned {
            v: pair.blocks.get(way).turns + 1,
        }
    }

    // What a train is answered that enters a section.
    fn enter_reply(
        &self,
        line: &PlainLine,
        plan: &BoxPlan,
        signal: &Signal,
        way: Way,
        train: u32,
    ) -> Reply
        requires { of_way self.now.sent way < 2 ^ 32 }
        ensures { (moment : ℕ) → (enter (at_moment self.now moment)
            (left_by plan.now (at_moment self.now moment) signal.now) way train line.now).reply ≡ result }
    {
        let k = self.sent.get(way) + 1;
        match line.entry_refusal(k) {
            Some(reply) => reply,
            None => Reply::Entered { k, train },
        }
    }

    // What a train is answered that goes where a signal leads.
    fn go_reply(&self, pair: &PairState, plan: &BoxPlan, signal: &Signal, train: u32) -> Reply
        requires { (way : Way) → of_way self.now.sent way < 2 ^ 32 }
        ensures { (moment : ℕ) → (on_pair (way_of (starter_link (starter_way (Some signal.now))))
            (go (at_moment self.now moment) (left_by plan.now (at_moment self.now moment) signal.now) train
            signal.now.to) pair.now).reply ≡ result }
    {
        match signal.to {
            To::Place(_) | To::Away => Reply::Passed { train },
            To::Section(way) => self.enter_reply(pair.plain_line(way), plan, signal, way, train),
        }
    }

    // What a train is answered that passes a signal.
    fn pass_reply(&self, pair: &PairState, plan: &BoxPlan, signal: &Signal) -> Reply
        requires signal { SignalFits (length self.now.ends) (length self.now.places) signal.now }
        requires arms { length self.now.off ≡ length self.now.ends }
        requires few { (way : Way) → of_way self.now.sent way < 2 ^ 32 }
        ensures { (moment : ℕ) → (on_pair (way_of (starter_link (starter_way (Some signal.now))))
            (pass_signal (Some signal.now) plan.now (at_moment self.now moment)) pair.now).reply ≡ result }
    {
        let Some(train) = train_on(self.places.as_slice(), signal.from) else {
            return Reply::NoTrain;
        };
        if let Some(reply) = self.pass_refusal(signal) {
            return reply;
        }
        self.go_reply(pair, plan, signal, train)
    }

    // What a train is answered that overruns a signal.
    fn overrun_reply(&self, pair: &PairState, plan: &BoxPlan, signal: &Signal) -> Reply
        requires signal { SignalFits (length self.now.ends) (length self.now.places) signal.now }
        requires arms { length self.now.off ≡ length self.now.ends }
        requires few { (way : Way) → of_way self.now.sent way < 2 ^ 32 }
        ensures { (moment : ℕ) → (on_pair (way_of (starter_link (starter_way (Some signal.now))))
            (overrun_signal (Some signal.now) plan.now (at_moment self.now moment)) pair.now).reply ≡ result }
    {
        let Some(train) = train_on(self.places.as_slice(), signal.from) else {
            return Reply::NoTrain;
        };
        if let Some(reply) = self.overrun_refusal(signal) {
            return reply;
        }
        self.go_reply(pair, plan, signal, train)
    }

    // What passing the signal of a lever is answered.
    fn pass_lever_reply(&self, pair: &PairState, plan: &BoxPlan, lever: u32) -> Reply
        requires sound { IsSound plan.now }
        requires frame { HasFrame plan.now self.now }
        requires few { (way : Way) → of_way self.now.sent way < 2 ^ 32 }
        ensures { (moment : ℕ) → (on_pair (way_of (lever_link plan.now lever))
            (pass plan.now (at_moment self.now moment) lever) pair.now).reply ≡ result }
    {
        match plan.signal(lever) {
            Some(signal) => self.pass_reply(pair, plan, signal),
            None => Reply::NoTrain,
        }
    }

    // What overrunning the signal of a lever is answered.
    fn overrun_lever_reply(&self, pair: &PairState, plan: &BoxPlan, lever: u32) -> Reply
        requires sound { IsSound plan.now }
        requires frame { HasFrame plan.now self.now }
        requires few { (way : Way) → of_way self.now.sent way < 2 ^ 32 }
        ensures { (moment : ℕ) → (on_pair (way_of (lever_link plan.now lever))
            (overrun plan.now (at_moment self.now moment) lever) pair.now).reply ≡ result }
    {
        match plan.signal(lever) {
            Some(signal) => self.overrun_reply(pair, plan, signal),
            None => Reply::NoTrain,
        }
    }

    // What a train is answered that comes whole into the berth.
    fn berth_reply(&self, pair: &PairState, berth: &Berth, way: Way) -> Reply
        requires place { berth.now.place < length self.now.places }
        requires few { (way : Way) → (of_way self.now.incoming way).taken < 2 ^ 32 }
        ensures { (moment : ℕ) → (on_pair way (berth_whole (Some berth.now) (at_moment self.now moment) way)
            pair.now).reply ≡ result }
    {
        if let Some(reply) = self.berth_refusal(way, berth) {
            return reply;
        }
        match self.next_train(pair.plain_line(way), way) {
            Ok(Passage { number: j, train }) => Reply::Berthed { j, train },
            Err(reply) => reply,
        }
    }

    // What a train is answered that comes into the berth and leaves a portion behind.
    fn part_reply(&self, pair: &PairState, berth: &Berth, way: Way) -> Reply
        requires place { berth.now.place < length self.now.places }
        requires few { (way : Way) → (of_way self.now.incoming way).taken < 2 ^ 32 }
        ensures { (moment : ℕ) → (on_pair way (berth_part (Some berth.now) (at_moment self.now moment) way)
            pair.now).reply ≡ result }
    {
        if let Some(reply) = self.berth_refusal(way, berth) {
            return reply;
        }
        match self.next_train(pair.plain_line(way), way) {
            Ok(Passage { number: j, train }) => Reply::PartBerthed { j, train },
            Err(reply) => reply,
        }
    }

    // What clearing the left portion away is answered.
    fn clear_reply(&self, pair: &PairState, way: Way) -> Reply
        requires few { (way : Way) → (of_way self.now.incoming way).taken < 2 ^ 32 }
        ensures { (moment : ℕ) → (on_pair way (clear_portion (at_moment self.now moment) way) pair.now).reply ≡ result }
    {
        if self.incoming.get(way).portion.is_none() {
            return Reply::NoPortion;
        }
        match self.next_train(pair.plain_line(way), way) {
            Ok(Passage { number: j, train }) => Reply::Cleared { j, train },
            Err(reply) => reply,
        }
    }
}

// The reply that a call on a bell or an instrument would get, or one that is always decided in the box alone.
fn answer_at(
    here: &BoxState,
    pair: &PairState,
    plan: &Plan,
    box_plan: &BoxPlan,
    call: &Call,
) -> Reply
    requires ready { IsReady plan.now box_plan.now call.now here.now pair.now }
    requires rows { RowsHold box_plan.now here.now }
    ensures { (step_at plan.now box_plan.now call.now here.now pair.now).reply ≡ result }
{
    match call.act {
        Act::Ring { side, code: _ } => pair.bells.get(side).ring_reply(),
        Act::Hear { side } => pair.bells.get(side.opposite()).hear(),
        Act::AwaitBell { side, code } => pair.bells.get(side.opposite()).await_code(code),
        Act::Turn { way, position } => match box_plan.berth(way) {
            Some(berth) => here.turn_reply(pair, berth, way, position),
            None => Reply::AlreadyThere,
        },
        Act::AwaitBlock { way, position } => pair.look_block(way, position),
        Act::Pull { lever } => here.pull_reply(pair, box_plan, lever, true),
        Act::Put { lever } => here.put_reply(box_plan, lever, true),
        Act::Bring { train } => {
            match here.bring_refusal(train, plan.train(train).place) {
                Some(reply) => reply,
                None => Reply::Brought,
            }
        }
        Act::Pass { lever } => here.pass_lever_reply(pair, box_plan, lever),
        Act::Overrun { lever } => here.overrun_lever_reply(pair, box_plan, lever),
        Act::AwaitTrain { way } => here.look_plain_line(pair, way),
        Act::Berth { way } => match box_plan.berth(way) {
            Some(berth) => here.berth_reply(pair, berth, way),
            None => Reply::BerthOccupied { train: 0 },
        },
        Act::BerthPart { way } => match box_plan.berth(way) {
            Some(berth) => here.part_reply(pair, berth, way),
            None => Reply::BerthOccupied { train: 0 },
        },
        Act::ClearPortion { way } => here.clear_reply(pair, way),
        Act::Wind { way } => match here.incoming.get(way).wind_refusal() {
            Some(reply) => reply,
            None => Reply::Winding {
                ready_at: call.moment + plan.delay,
            },
        },
        Act::Release { way } => match here.incoming.get(way).release_refusal(call.moment) {
            Some(reply) => reply,
            None => Reply::Released,
        },
    }
}

/// The reply that a call of box `box_no` would get, in the states of all boxes and pairs, where every row of the box
/// holds.
#[tactic(auto, unfolding(crate::specs::Law::step))]
pub fn answer_on(
    boxes: &[BoxState],
    pairs: &[PairState],
    plan: &Plan,
    box_no: u32,
    call: &Call,
) -> Reply
    requires plan_box { box_no < length plan.now.boxes }
    requires here { box_no < length boxes.now }
    requires pair { pair_of plan.now box_no call.now < length pairs.now }
    requires ready { IsReady plan.now (box_plan_of plan.now box_no) call.now
        (box_at (record { boxes = boxes.now; pairs = pairs.now }) box_no)
        (pair_at (record { boxes = boxes.now; pairs = pairs.now }) (pair_of plan.now box_no call.now)) }
    requires rows { RowsHold (box_plan_of plan.now box_no)
        (box_at (record { boxes = boxes.now; pairs = pairs.now }) box_no) }
    ensures { result ≡ (step plan.now (record { boxes = boxes.now; pairs = pairs.now }) box_no call.now).reply }
{
    let at = box_no as usize;
    let box_plan = &plan.boxes.as_slice()[at];
    let pair = &pairs[link_of(box_plan, call.act).pair_no(at)];
    answer_at(&boxes[at], pair, plan, box_plan, call)
}
