//! The moves of trains in a box, and into a section.

ghost use Rattle.std.specs.Prelude.{◌≡◌, ◌<◌, ◌^◌, ◌-◌, Some, length, option_map};
ghost use Rattle.block_words.specs.declared.Way.{Way};
ghost use Rattle.line_plan.specs.Frames.{signal_of};
ghost use Rattle.line_law.specs.Decisions.{Here, OnPlainLine, on_pair};
ghost use Rattle.line_law.specs.Levers.{lever_link, starter_link, starter_way};
ghost use Rattle.line_law.specs.Lines.{HasFrame, HasRoom};
ghost use Rattle.line_law.specs.Links.{way_of};
ghost use Rattle.line_law.specs.Sound.{IsSound, SignalFits};
ghost use Rattle.line_law.specs.Trains.{bring, bring_refusal, enter, entry_refusal, go, left_by, line_left, overrun};
ghost use Rattle.line_law.specs.Trains.{overrun_refusal, overrun_signal, pass, pass_refusal, pass_signal, way_refusal};
ghost use Rattle.line_law.specs.Ways.{of_way};

use crate::call::Reply;
use crate::plain_line::PlainLine;
use crate::state::{BoxState, Incoming, PairState, Passage};
use crate::tracks::{first_standing, train_on};
use block_words::Way;
use line_plan::{Berth, BoxPlan, Signal, To};

// An incoming line after a train has left a place, where that is its berth.
fn line_left(berth: Option<&Berth>, place: u32, line: Incoming) -> Incoming
    ensures { result ≡ line_left (option_map (λ berth. berth.now) berth.entry) place line }
{
    match berth {
        Some(berth) => {
            if berth.place == place {
                Incoming {
                    control: line.control.left(),
                    ..line
                }
            } else {
                line
            }
        }
        None => line,
    }
}

impl PlainLine {
    /// What the train that would enter as the `k`th is refused for: the plain line is full.
    pub(crate) fn entry_refusal(&self, k: u64) -> Option<Reply>
        ensures { result ≡ entry_refusal self.now k }
    {
        if self.holds(k) {
            Some(Reply::SectionFull { k })
        } else {
            None
        }
    }
}

impl BoxState {
    /// What bringing a train to its own place is refused for.
    pub fn bring_refusal(&self, train: u32, place: u32) -> Option<Reply>
        requires low { 0 < train }
        requires train { train - 1 < length self.now.brought }
        requires place { place < length self.now.places }
        ensures { result ≡ bring_refusal self.now train place }
    {
        if self.brought.as_slice()[(train - 1) as usize] {
            return Some(Reply::AlreadyBrought);
        }
        let train = train_on(self.places.as_slice(), place)?;
        Some(Reply::Occupied { place, train })
    }

    /// Brings a train to its own place.
    pub fn bring(&mut self, train: u32, place: u32) -> Reply
        requires low { 0 < train }
        requires train { train - 1 < length self.old.brought }
        requires place { place < length self.old.places }
        ensures { bring self.old train place ≡ Here result self.new }
    {
        if let Some(reply) = self.bring_refusal(train, place) {
            return reply;
        }
        self.places.set(place as usize, Some(train));
        self.brought.set((train - 1) as usize, true);
        Reply::Brought
    }

    // What stands in the way of a train that moves past a signal.
    fn way_refusal(&self, signal: &Signal) -> Option<Reply>
        requires { SignalFits (length self.now.ends) (length self.now.places) signal.now }
        ensures { result ≡ way_refusal self.now signal.now }
    {
        if let Some(there) = first_standing(self.places.as_slice(), signal.over.as_slice()) {
            return Some(Reply::Occupied {
                place: there.place,
                train: there.train,
            });
        }
        match signal.to {
            To::Place(place) => {
                let train = train_on(self.places.as_slice(), place)?;
                Some(Reply::Occupied { place, train })
            }
            To::Section(_) | To::Away => None,
        }
    }

    /// What passing a signal is refused for in the box, where a train stands at it.
    pub fn pass_refusal(&self, signal: &Signal) -> Option<Reply>
        requires signal { SignalFits (length self.now.ends) (length self.now.places) signal.now }
        requires arms { length self.now.off ≡ length self.now.ends }
        ensures { result ≡ pass_refusal self.now signal.now }
    {
        if !self.off.as_slice()[(signal.lever - 1) as usize] {
            return Some(Reply::AtDanger);
        }
        self.way_refusal(signal)
    }

    /// What overrunning a signal is refused for in the box, where a train stands at it.
    pub fn overrun_refusal(&self, signal: &Signal) -> Option<Reply>
        requires signal { SignalFits (length self.now.ends) (length self.now.places) signal.now }
        requires arms { length self.now.off ≡ length self.now.ends }
        ensures { result ≡ overrun_refusal self.now signal.now }
    {
        if self.off.as_slice()[(signal.lever - 1) as usize] {
            return Some(Reply::ArmOff);
        }
        self.way_refusal(signal)
    }

    /// A train leaves the place of a signal, whose arm goes to danger.
    pub fn leave(&mut self, plan: &BoxPlan, signal: &Signal)
        requires signal { SignalFits (length self.old.ends) (length self.old.places) signal.now }
        requires arms { length self.old.off ≡ length self.old.ends }
        ensures { self.new ≡ left_by plan.now self.old signal.now }
    {
        self.off.set((signal.lever - 1) as usize, false);
        self.places.set(signal.from as usize, None);
        self.incoming.up = line_left(plan.berth_up.as_ref(), signal.from, self.incoming.up);
        self.incoming.down = line_left(plan.berth_down.as_ref(), signal.from, self.incoming.down);
    }

    // A train enters a section, unless the plain line is full.
    fn enter(
        &mut self,
        line: &mut PlainLine,
        plan: &BoxPlan,
        signal: &Signal,
        way: Way,
        train: u32,
    ) -> Reply
        requires signal { SignalFits (length self.old.ends) (length self.old.places) signal.now }
        requires arms { length self.old.off ≡ length self.old.ends }
        requires few { of_way self.old.sent way < 2 ^ 32 }
        requires room { HasRoom (of_way self.old.sent way) line.old }
        ensures { enter self.old (left_by plan.now self.old signal.now) way train line.old
            ≡ record { reply = result; here = self.new; word = line.new } }
    {
        let k = self.sent.get(way) + 1;
        if let Some(reply) = line.entry_refusal(k) {
            return reply;
        }
        line.push(Passage { number: k, train });
        self.leave(plan, signal);
        self.sent.set(way, k);
        Reply::Entered { k, train }
    }

    // A train enters the section of an outgoing line, unless its plain line is full.
    fn enter_on(
        &mut self,
        pair: &mut PairState,
        plan: &BoxPlan,
        signal: &Signal,
        way: Way,
        train: u32,
    ) -> Reply
        requires signal { SignalFits (length self.old.ends) (length self.old.places) signal.now }
        requires arms { length self.old.off ≡ length self.old.ends }
        requires few { of_way self.old.sent way < 2 ^ 32 }
        requires room { HasRoom (of_way self.old.sent way) (of_way pair.old.lines way) }
        ensures { on_pair way (OnPlainLine (enter self.old (left_by plan.now self.old signal.now) way train)) pair.old
            ≡ record { reply = result; here = self.new; word = pair.new } }
    {
        match way {
            Way::Up => self.enter(&mut pair.lines.up, plan, signal, Way::Up, train),
            Way::Down => self.enter(&mut pair.lines.down, plan, signal, Way::Down, train),
        }
    }

    // A train goes where a signal leads.
    fn go(&mut self, pair: &mut PairState, plan: &BoxPlan, signal: &Signal, train: u32) -> Reply
        requires signal { SignalFits (length self.old.ends) (length self.old.places) signal.now }
        requires arms { length self.old.off ≡ length self.old.ends }
        requires few { (way : Way) → of_way self.old.sent way < 2 ^ 32 }
        requires room { (way : Way) → starter_way (Some signal.now) ≡ Some way
            → HasRoom (of_way self.old.sent way) (of_way pair.old.lines way) }
        ensures { on_pair (way_of (starter_link (starter_way (Some signal.now))))
            (go self.old (left_by plan.now self.old signal.now) train signal.now.to) pair.old
            ≡ record { reply = result; here = self.new; word = pair.new } }
    {
        match signal.to {
            To::Place(place) => {
                self.leave(plan, signal);
                self.places.set(place as usize, Some(train));
                Reply::Passed { train }
            }
            To::Away => {
                self.leave(plan, signal);
                Reply::Passed { train }
            }
            To::Section(way) => self.enter_on(pair, plan, signal, way, train),
        }
    }

    // A train passes a signal.
    fn pass_signal(&mut self, pair: &mut PairState, plan: &BoxPlan, signal: &Signal) -> Reply
        requires signal { SignalFits (length self.old.ends) (length self.old.places) signal.now }
        requires arms { length self.old.off ≡ length self.old.ends }
        requires few { (way : Way) → of_way self.old.sent way < 2 ^ 32 }
        requires room { (way : Way) → starter_way (Some signal.now) ≡ Some way
            → HasRoom (of_way self.old.sent way) (of_way pair.old.lines way) }
        ensures { on_pair (way_of (starter_link (starter_way (Some signal.now))))
            (pass_signal (Some signal.now) plan.now self.old) pair.old
            ≡ record { reply = result; here = self.new; word = pair.new } }
    {
        let Some(train) = train_on(self.places.as_slice(), signal.from) else {
            return Reply::NoTrain;
        };
        if let Some(reply) = self.pass_refusal(signal) {
            return reply;
        }
        self.go(pair, plan, signal, train)
    }

    // A train overruns a signal.
    fn overrun_signal(&mut self, pair: &mut PairState, plan: &BoxPlan, signal: &Signal) -> Reply
        requires signal { SignalFits (length self.old.ends) (length self.old.places) signal.now }
        requires arms { length self.old.off ≡ length self.old.ends }
        requires few { (way : Way) → of_way self.old.sent way < 2 ^ 32 }
        requires room { (way : Way) → starter_way (Some signal.now) ≡ Some way
            → HasRoom (of_way self.old.sent way) (of_way pair.old.lines way) }
        ensures { on_pair (way_of (starter_link (starter_way (Some signal.now))))
            (overrun_signal (Some signal.now) plan.now self.old) pair.old
            ≡ record { reply = result; here = self.new; word = pair.new } }
    {
        let Some(train) = train_on(self.places.as_slice(), signal.from) else {
            return Reply::NoTrain;
        };
        if let Some(reply) = self.overrun_refusal(signal) {
            return reply;
        }
        self.go(pair, plan, signal, train)
    }

    /// A train passes the signal of a lever.
    pub fn pass(&mut self, pair: &mut PairState, plan: &BoxPlan, lever: u32) -> Reply
        requires sound { IsSound plan.now }
        requires frame { HasFrame plan.now self.old }
        requires few { (way : Way) → of_way self.old.sent way < 2 ^ 32 }
        requires room { (way : Way) → starter_way (signal_of plan.now lever) ≡ Some way
            → HasRoom (of_way self.old.sent way) (of_way pair.old.lines way) }
        ensures { on_pair (way_of (lever_link plan.now lever)) (pass plan.now self.old lever) pair.old
            ≡ record { reply = result; here = self.new; word = pair.new } }
    {
        match plan.signal(lever) {
            Some(signal) => self.pass_signal(pair, plan, signal),
            None => Reply::NoTrain,
        }
    }

    /// A train overruns the signal of a lever.
    pub fn overrun(&mut self, pair: &mut PairState, plan: &BoxPlan, lever: u32) -> Reply
        requires sound { IsSound plan.now }
        requires frame { HasFrame plan.now self.old }
        requires few { (way : Way) → of_way self.old.sent way < 2 ^ 32 }
        requires room { (way : Way) → starter_way (signal_of plan.now lever) ≡ Some way
            → HasRoom (of_way self.old.sent way) (of_way pair.old.lines way) }
        ensures { on_pair (way_of (lever_link plan.now lever)) (overrun plan.now self.old lever) pair.old
            ≡ record { reply = result; here = self.new; word = pair.new } }
    {
        match plan.signal(lever) {
            Some(signal) => self.overrun_signal(pair, plan, signal),
            None => Reply::NoTrain,
        }
    }
}
