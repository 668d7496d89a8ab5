//! Posts that take in others.
ghost use Rattle.std.specs.Prelude.{◌≡◌, []};
ghost use Rattle.instrument_rule.specs.Calls.{Sits};
ghost use Rattle.instrument_rule.specs.Views.{caller_of};
ghost use Rattle.rule_tests.specs.Instruments.{Fresh};

use crate::instrument::{draw, give_line_clear, pull_starter};
use crate::joined::{take_beside, take_over};
use crate::tests::desk::{hold, two_boxes};
use instrument_rule::{Line, Post, open_words};
use line_plan::Plan;

// An idle post takes in that of Beech and gives Line Clear for it; that of Ash takes in both, and pulls its starter
// under what they gave.
fn call_after_joins(ash: &mut Post, mut idle: Post, beech: Post, line: &Line, plan: &Plan) -> bool
    requires line { (ash.old.seat.table_id ≡ line.now.table.shared.table_id)
        × (idle.seat.table_id ≡ line.now.table.shared.table_id)
        × (beech.seat.table_id ≡ line.now.table.shared.table_id)
        × (line.now.table.shared.key ≡ plan.now) }
    requires ash { Fresh plan.now ash.old.seat.me.0 × (caller_of ash.old.seat.me.0.posts ≡ 0) }
    requires idle { Sits plan.now idle.seat.me.0 × (idle.seat.me.0.posts ≡ []) }
    requires beech { Fresh plan.now beech.seat.me.0 × (caller_of beech.seat.me.0.posts ≡ 1) }
{
    take_over(&mut idle, line, beech);
    let Some(normal) = give_line_clear(&mut idle, line, plan, 1) else {
        drop(idle);
        return false;
    };
    take_beside(ash, line, idle);
    let Some(clear) = pull_starter(ash, line, plan, 0, 1) else {
        return false;
    };
    (normal == 0) & (clear == 9)
}

// The same, once the posts of both boxes are drawn.
fn work(ash: &mut Post, idle: Post, mut beech: Post, line: &Line, plan: &Plan) -> bool
    requires line { (ash.old.seat.table_id ≡ line.now.table.shared.table_id)
        × (idle.seat.table_id ≡ line.now.table.shared.table_id)
        × (beech.seat.table_id ≡ line.now.table.shared.table_id)
        × (line.now.table.shared.key ≡ plan.now) }
    requires ash { Sits plan.now ash.old.seat.me.0 × (ash.old.seat.me.0.posts ≡ [])
        × (ash.old.seat.me.0.seen ≡ []) }
    requires idle { Sits plan.now idle.seat.me.0 × (idle.seat.me.0.posts ≡ []) }
    requires beech { Sits plan.now beech.seat.me.0 × (beech.seat.me.0.posts ≡ []) × (beech.seat.me.0.seen ≡ []) }
{
    let are_drawn = draw(ash, line, plan, 0);
    if !are_drawn || !draw(&mut beech, line, plan, 1) {
        drop(idle);
        drop(beech);
        return false;
    }
    call_after_joins(ash, idle, beech, line, plan)
}

#[test]
fn joined_posts_call_for_their_first_box(rt: HostRuntime) {
    let plan = two_boxes(&rt, rt.alloc());
    let (line, mut ash) = open_words(rt.alloc(), &plan).expect(&rt, "memory");
    let idle = ash.split(&line);
    let beech = ash.split(&line);
    let are_so = work(&mut ash, idle, beech, &line, &plan);
    drop(ash);
    drop(line);
    drop(plan);
    hold(&rt, "the words that joined posts met", are_so);
}
