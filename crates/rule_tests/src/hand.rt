//! A signalman's hand on the bells of a line: a post that holds one box, and what he knows of it.
ghost use Rattle.std.specs.Prelude.{◌≡◌, ◌<◌, ◌≤◌, [], true, IfSome, if◌then◌else◌, ◌==◌};
ghost use Rattle.block_words.specs.Bells.{bell_word};
ghost use Rattle.line_law.specs.Known.{KnowsCall};
ghost use Rattle.instrument_rule.specs.Calls.{Sits};
ghost use Rattle.instrument_rule.specs.Views.{caller_of};
ghost use Rattle.rule_tests.specs.Hands.{Knows, rung_after};

use bell_codes::CodeNo;
use block_words::{Way, WordOp, bell_code, bell_count, bell_word};
use instrument_rule::{Line, Post};
use line_law::{Act, Call, knows};
use line_plan::Plan;

/// The most calls of a hand.
pub const MOST_CALLS: u32 = 10_000;

/// What a call answers that may not be made.
pub const NO_CALL: u64 = u64::MAX;

/// A post that holds one box. Its signalman makes all calls at 00:00, and rings towards the down side alone.
#[derive(Drop)]
pub struct Hand {
    pub post: Post,
    pub box_no: u32,
    /// How many codes he has rung.
    pub rung: u64,
    /// How many calls were decided.
    pub calls: u32,
}

// How many codes were rung, once a ring has met this word.
fn rung_after(rung: u64, met: u64, silent: u64) -> u64
    requires few { rung < 10000 }
    requires silent { silent ≡ bell_word rung 0 }
    ensures { result ≡ rung_after rung met }
{
    if met == silent { rung + 1 } else { rung }
}

impl Hand {
    /// Draws the post of a box, for a post that has seen nothing.
    pub fn take(mut post: Post, line: &Line, plan: &Plan, box_no: u32) -> Option<Hand>
        requires line { (post.seat.table_id ≡ line.now.table.shared.table_id) × (line.now.table.shared.key ≡ plan.now) }
        requires free { Sits plan.now post.seat.me.0 × (post.seat.me.0.posts ≡ []) × (post.seat.me.0.seen ≡ []) }
        ensures same { IfSome result (λ hand. hand.post.seat.table_id ≡ line.now.table.shared.table_id) }
        ensures knows { IfSome result (λ hand. Knows plan.now hand.post.seat.me.0 hand.rung hand.calls) }
        ensures whose { IfSome result (λ hand. caller_of hand.post.seat.me.0.posts ≡ hand.box_no) }
    {
        if (box_no as usize) >= plan.boxes.len() {
            drop(post);
            return None;
        }
        let found = post.take(line, box_no);
        if found != box_no as u64 {
            drop(post);
            return None;
        }
        Some(Hand {
            post,
            box_no,
            rung: 0,
            calls: 0,
        })
    }

    // Whether the plan knows a call of this box, and there is room for its entry.
    fn may(&self, plan: &Plan, call: &Call) -> bool
        ensures { result ≡ true → (self.now.calls < 10000) × KnowsCall plan.now self.now.box_no call.now }
    {
        self.calls < MOST_CALLS && knows(plan, self.box_no, call)
    }

    /// Rings a code towards the down side, and gives the word as it was.
    pub fn ring(&mut self, line: &Line, plan: &Plan, code: CodeNo) -> u64
        requires line { (self.old.post.seat.table_id ≡ line.now.table.shared.table_id)
            × (line.now.table.shared.key ≡ plan.now) }
        requires knows { Knows plan.now self.old.post.seat.me.0 self.old.rung self.old.calls }
        requires whose { caller_of self.old.post.seat.me.0.posts ≡ self.old.box_no }
        ensures same { self.new.post.seat.table_id ≡ self.old.post.seat.table_id }
        ensures knows { Knows plan.now self.new.post.seat.me.0 self.new.rung self.new.calls }
        ensures whose { caller_of self.new.post.seat.me.0.posts ≡ self.new.box_no }
    {
        let side = Way::Down;
        let call = Call {
            moment: 0,
            act: Act::Ring { side, code },
        };
        if !self.may(plan, &call) {
            return NO_CALL;
        }
        let silent = bell_word(self.rung, 0);
        let rung = bell_word(self.rung + 1, code);
        let op = WordOp::Ring {
            side,
            expect: silent,
            new: rung,
        };
        let met = self.post.step(line, &call, op, true);
        self.rung = rung_after(self.rung, met, silent);
        self.calls += 1;
        met
    }

    /// Hears the bell from a side, and gives the word as it was.
    pub fn hear(&mut self, line: &Line, plan: &Plan, side: Way) -> u64
        requires line { (self.old.post.seat.table_id ≡ line.now.table.shared.table_id)
            × (line.now.table.shared.key ≡ plan.now) }
        requires knows { Knows plan.now self.old.post.seat.me.0 self.old.rung self.old.calls }
        requires whose { caller_of self.old.post.seat.me.0.posts ≡ self.old.box_no }
        ensures same { self.new.post.seat.table_id ≡ self.old.post.seat.table_id }
        ensures knows { Knows plan.now self.new.post.seat.me.0 self.new.rung self.new.calls }
        ensures whose { caller_of self.new.post.seat.me.0.posts ≡ self.new.box_no }
    {
        let call = Call {
            moment: 0,
            act: Act::Hear { side },
        };
        if !self.may(plan, &call) {
            return NO_CALL;
        }
        let met = self.post.step(line, &call, WordOp::Hear { side }, true);
        self.calls += 1;
        met
    }

    /// Looks at the bell from a side for a code, and gives the word as it is.
    pub fn look(&mut self, line: &Line, plan: &Plan, side: Way, code: CodeNo, last: bool) -> u64
        requires line { (self.old.post.seat.table_id ≡ line.now.table.shared.table_id)
            × (line.now.table.shared.key ≡ plan.now) }
        requires knows { Knows plan.now self.old.post.seat.me.0 self.old.rung self.old.calls }
        requires whose { caller_of self.old.post.seat.me.0.posts ≡ self.old.box_no }
        ensures same { self.new.post.seat.table_id ≡ self.old.post.seat.table_id }
        ensures knows { Knows plan.now self.new.post.seat.me.0 self.new.rung self.new.calls }
        ensures whose { caller_of self.new.post.seat.me.0.posts ≡ self.new.box_no }
    {
        let call = Call {
            moment: 0,
            act: Act::AwaitBell { side, code },
        };
        if !self.may(plan, &call) {
            return NO_CALL;
        }
        let met = self.post.step(line, &call, WordOp::LookBell { side }, last);
        if last && bell_code(met) != code {
            self.calls += 1;
        }
        met
    }
}

/// What a hand has heard.
#[derive(Drop)]
pub struct Listener {
    pub hand: Hand,
    /// How many codes were heard.
    pub heard: u64,
    /// The number of the last of them on its bell.
    pub last: u64,
    /// Whether the numbers rose.
    pub is_rising: bool,
}

/// Makes so many rings, with the codes 1 to 10 in turn.
pub fn ring_all(mut hand: Hand, line: &Line, plan: &Plan, rounds: u32) -> Hand
    requires line { (hand.post.seat.table_id ≡ line.now.table.shared.table_id)
        × (line.now.table.shared.key ≡ plan.now) }
    requires knows { Knows plan.now hand.post.seat.me.0 hand.rung hand.calls }
    requires whose { caller_of hand.post.seat.me.0.posts ≡ hand.box_no }
    ensures same { result.post.seat.table_id ≡ line.now.table.shared.table_id }
    ensures knows { Knows plan.now result.post.seat.me.0 result.rung result.calls }
    ensures whose { caller_of result.post.seat.me.0.posts ≡ result.box_no }
{
    for _ in 0..rounds {
        let code = 1 + (hand.rung % 10) as u8;
        hand.ring(line, plan, code);
    }
    hand
}

impl Listener {
    /// Hears the bell from the up side once more.
    pub fn hear(&mut self, line: &Line, plan: &Plan)
        requires line { (self.old.hand.post.seat.table_id ≡ line.now.table.shared.table_id)
            × (line.now.table.shared.key ≡ plan.now) }
        requires knows { Knows plan.now self.old.hand.post.seat.me.0 self.old.hand.rung self.old.hand.calls }
        requires whose { caller_of self.old.hand.post.seat.me.0.posts ≡ self.old.hand.box_no }
        ensures same { self.new.hand.post.seat.table_id ≡ self.old.hand.post.seat.table_id }
        ensures knows { Knows plan.now self.new.hand.post.seat.me.0 self.new.hand.rung self.new.hand.calls }
        ensures whose { caller_of self.new.hand.post.seat.me.0.posts ≡ self.new.hand.box_no }
    {
        let met = self.hand.hear(line, plan, Way::Up);
        if bell_code(met) != 0 {
            self.is_rising &= self.last < bell_count(met);
            self.last = bell_count(met);
            self.heard = self.heard.wrapping_add(1);
        }
    }
}

/// Hears so many times.
pub fn hear_all(mut listener: Listener, line: &Line, plan: &Plan, rounds: u32) -> Listener
    requires line { (listener.hand.post.seat.table_id ≡ line.now.table.shared.table_id)
        × (line.now.table.shared.key ≡ plan.now) }
    requires knows { Knows plan.now listener.hand.post.seat.me.0 listener.hand.rung listener.hand.calls }
    requires whose { caller_of listener.hand.post.seat.me.0.posts ≡ listener.hand.box_no }
    ensures same { result.hand.post.seat.table_id ≡ line.now.table.shared.table_id }
    ensures knows { Knows plan.now result.hand.post.seat.me.0 result.hand.rung result.hand.calls }
    ensures whose { caller_of result.hand.post.seat.me.0.posts ≡ result.hand.box_no }
{
    for _ in 0..rounds {
        listener.hear(line, plan);
    }
    listener
}
