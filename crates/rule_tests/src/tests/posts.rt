//! Posts that are drawn, and a glance.
ghost use Rattle.std.specs.Prelude.{◌≡◌, []};
ghost use Rattle.instrument_rule.specs.Calls.{Sits};

use crate::instrument::watch;
use crate::tests::desk::{hold, two_boxes};
use instrument_rule::{Line, Post, open_words};
use line_plan::Plan;

// The post of Ash is drawn already: this post loses that draw, and draws the post of Beech.
fn loses_then_draws(post: &mut Post, line: &Line, plan: &Plan) -> bool
    requires plan { line.now.table.shared.key ≡ plan.now }
    requires post { (post.old.seat.table_id ≡ line.now.table.shared.table_id)
        × Sits plan.now post.old.seat.me.0 × (post.old.seat.me.0.posts ≡ []) }
{
    if plan.boxes.len() != 2 {
        return false;
    }
    let lost = post.take(line, 0);
    if lost == 0 {
        return false;
    }
    let drawn = post.take(line, 1);
    (lost == 1) & (drawn == 1)
}

#[test]
fn a_post_is_drawn_once(rt: HostRuntime) {
    let plan = two_boxes(&rt, rt.alloc());
    let (line, mut post) = open_words(rt.alloc(), &plan).expect(&rt, "memory");
    let mut other = post.split(&line);
    let mut idle = post.split(&line);
    let drawn = post.take(&line, 0) == 0;
    let next = loses_then_draws(&mut other, &line, &plan);
    let normal = watch(&mut idle, &line, &plan) == 0;
    drop(post);
    drop(other);
    drop(idle);
    drop(line);
    drop(plan);
    hold(&rt, "the count of posts drawn", drawn & next & normal);
}
