//! Two boxes on two threads.
ghost use Rattle.std.specs.Prelude.{◌≡◌};
ghost use Rattle.instrument_rule.specs.Views.{caller_of};
ghost use Rattle.rule_tests.specs.Hands.{Knows};

use crate::hand::{Hand, Listener, hear_all, ring_all};
use crate::tests::desk::{hold, two_boxes};
use instrument_rule::{Line, open_words};
use line_plan::Plan;
use std::thread;
use std::thread::Threads;

// How often each box calls beside the other.
const ROUNDS: u32 = 9_990;

// Ash rings and Beech hears, each on a thread of its own; in the end Beech hears once more. Each code that was rung is
// then heard, in order, and none twice.
fn hears_each_code_once(
    rt: &impl Threads,
    ash: Hand,
    beech: Listener,
    line: &Line,
    plan: &Plan,
) -> bool
    requires plan { line.now.table.shared.key ≡ plan.now }
    requires ash { (ash.post.seat.table_id ≡ line.now.table.shared.table_id)
        × Knows plan.now ash.post.seat.me.0 ash.rung ash.calls
        × (caller_of ash.post.seat.me.0.posts ≡ ash.box_no) }
    requires beech { (beech.hand.post.seat.table_id ≡ line.now.table.shared.table_id)
        × Knows plan.now beech.hand.post.seat.me.0 beech.hand.rung beech.hand.calls
        × (caller_of beech.hand.post.seat.me.0.posts ≡ beech.hand.box_no) }
{
    let (ash, mut beech) = thread::join(
        rt,
        move || -> Hand
            requires { (line.now.table.shared.key ≡ plan.now)
                × (ash.post.seat.table_id ≡ line.now.table.shared.table_id)
                × Knows plan.now ash.post.seat.me.0 ash.rung ash.calls
                × (caller_of ash.post.seat.me.0.posts ≡ ash.box_no) }
        { ring_all(ash, line, plan, ROUNDS) },
        move || -> Listener
            requires { (line.now.table.shared.key ≡ plan.now)
                × (beech.hand.post.seat.table_id ≡ line.now.table.shared.table_id)
                × Knows plan.now beech.hand.post.seat.me.0 beech.hand.rung beech.hand.calls
                × (caller_of beech.hand.post.seat.me.0.posts ≡ beech.hand.box_no) }
            ensures { (result.hand.post.seat.table_id ≡ line.entry.now.table.shared.table_id)
                × Knows plan.entry.now result.hand.post.seat.me.0 result.hand.rung result.hand.calls
                × (caller_of result.hand.post.seat.me.0.posts ≡ result.hand.box_no) }
        { hear_all(beech, line, plan, ROUNDS) },
    );
    beech.hear(line, plan);
    let is_so = (ash.rung == beech.heard)
        & beech.is_rising
        & (beech.last == ash.rung)
        & (ash.rung > 0);
    drop(ash);
    drop(beech);
    is_so
}

#[test]
fn two_threads_lose_no_code(rt: HostRuntime) {
    let plan = two_boxes(&rt, rt.alloc());
    let (line, mut post) = open_words(rt.alloc(), &plan).expect(&rt, "memory");
    let other = post.split(&line);
    let ash = Hand::take(post, &line, &plan, 0).expect(&rt, "the post of Ash");
    let hand = Hand::take(other, &line, &plan, 1).expect(&rt, "the post of Beech");
    let beech = Listener {
        hand,
        heard: 0,
        last: 0,
        is_rising: true,
    };
    let is_so = hears_each_code_once(&rt, ash, beech, &line, &plan);
    drop(line);
    drop(plan);
    hold(&rt, "each code is heard once", is_so);
}
