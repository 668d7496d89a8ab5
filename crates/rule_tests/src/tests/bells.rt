//! A bell, worked by hand.
ghost use Rattle.std.specs.Prelude.{◌≡◌};
ghost use Rattle.instrument_rule.specs.Views.{caller_of};
ghost use Rattle.rule_tests.specs.Hands.{Knows};

use crate::hand::Hand;
use crate::tests::desk::{hold, two_boxes};
use block_words::Way;
use instrument_rule::{Line, open_words};
use line_plan::Plan;

// Ash rings, Beech hears, and each word is as the code table says it: a ring meets the bell silent and doesn't change
// one on which a code stands; a look changes nothing.
fn are_worked_numbers(ash: &mut Hand, beech: &mut Hand, line: &Line, plan: &Plan) -> bool
    requires plan { line.now.table.shared.key ≡ plan.now }
    requires ash { (ash.old.post.seat.table_id ≡ line.now.table.shared.table_id)
        × Knows plan.now ash.old.post.seat.me.0 ash.old.rung ash.old.calls
        × (caller_of ash.old.post.seat.me.0.posts ≡ ash.old.box_no) }
    requires beech { (beech.old.post.seat.table_id ≡ line.now.table.shared.table_id)
        × Knows plan.now beech.old.post.seat.me.0 beech.old.rung beech.old.calls
        × (caller_of beech.old.post.seat.me.0.posts ≡ beech.old.box_no) }
{
    let first = ash.ring(line, plan, 1) == 0;
    let busy = ash.ring(line, plan, 2) == 257;
    let heard = beech.hear(line, plan, Way::Up) == 257;
    let silent = beech.hear(line, plan, Way::Up) == 256;
    let second = ash.ring(line, plan, 3) == 256;
    let seen = beech.look(line, plan, Way::Up, 2, false) == 515;
    let not_yet = beech.look(line, plan, Way::Up, 2, true) == 515;
    let shown = beech.look(line, plan, Way::Up, 3, true) == 515;
    let taken = beech.hear(line, plan, Way::Up) == 515;
    let after = beech.look(line, plan, Way::Up, 3, false) == 512;
    let unknown = ash.ring(line, plan, 11) == u64::MAX;
    first & busy & heard & silent & second & seen & not_yet & shown & taken & after & unknown
}

#[test]
fn bells_show_their_worked_numbers(rt: HostRuntime) {
    let plan = two_boxes(&rt, rt.alloc());
    let (line, mut post) = open_words(rt.alloc(), &plan).expect(&rt, "memory");
    let other = post.split(&line);
    let mut ash = Hand::take(post, &line, &plan, 0).expect(&rt, "the post of Ash");
    let mut beech = Hand::take(other, &line, &plan, 1).expect(&rt, "the post of Beech");
    let are_so = are_worked_numbers(&mut ash, &mut beech, &line, &plan);
    let entries = (ash.calls == 3) & (beech.calls == 4) & (ash.rung == 2);
    drop(ash);
    drop(beech);
    drop(line);
    drop(plan);
    hold(&rt, "the bell's words and the entries", are_so & entries);
}
