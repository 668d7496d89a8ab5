//! The word of a section, worked by hand.
ghost use Rattle.std.specs.Prelude.{◌≡◌, ◌<◌, ◌+◌, ◌*◌, true, []};
ghost use Rattle.instrument_rule.specs.Calls.{Sits};
ghost use Rattle.instrument_rule.specs.Views.{caller_of};
ghost use Rattle.rule_tests.specs.Instruments.{Fresh};
ghost use Rattle.rule_tests.specs.Sections.{IsStarter, IsWaiting};

use crate::instrument::draw;
use crate::section::{bring, is_starter, look, may_send, send, take_in};
use crate::tests::desk::{hold, two_boxes};
use instrument_rule::{Line, Post, open_words};
use line_plan::Plan;

// The next train is brought to its starter at Ash and passes it at danger. The section's word is the same at the look
// and at the entry.
fn sends(post: &mut Post, line: &Line, plan: &Plan, place: u32, sent: u32, wanted: u64) -> bool
    requires line { (post.old.seat.table_id ≡ line.now.table.shared.table_id)
        × (line.now.table.shared.key ≡ plan.now) }
    requires few { sent < 1000 }
    requires starter { IsStarter plan.now 0 1 place }
    requires waiting { IsWaiting plan.now post.old.seat.me.0 place sent (2 * sent) }
    requires whose { caller_of post.old.seat.me.0.posts ≡ 0 }
    ensures same { post.new.seat.table_id ≡ line.now.table.shared.table_id }
    ensures waiting { result ≡ true → IsWaiting plan.now post.new.seat.me.0 place (sent + 1) (2 * (sent + 1)) }
    ensures whose { caller_of post.new.seat.me.0.posts ≡ 0 }
{
    if bring(post, line, plan, 0, place, sent).is_none() {
        return false;
    }
    match send(post, line, plan, 0, 1, place, sent) {
        Some((shown, met)) => (shown == wanted) & (met == wanted),
        None => false,
    }
}

// Ash sends two trains into the section; Beech takes out the first, and looks at what is left.
fn are_worked_numbers(ash: &mut Post, beech: &mut Post, line: &Line, plan: &Plan) -> bool
    requires plan { line.now.table.shared.key ≡ plan.now }
    requires ash { (ash.old.seat.table_id ≡ line.now.table.shared.table_id)
        × Fresh plan.now ash.old.seat.me.0 × (caller_of ash.old.seat.me.0.posts ≡ 0) }
    requires beech { (beech.old.seat.table_id ≡ line.now.table.shared.table_id)
        × Fresh plan.now beech.old.seat.me.0 × (caller_of beech.old.seat.me.0.posts ≡ 1) }
{
    if plan.boxes.len() != 2 {
        return false;
    }
    if !is_starter(plan, 0, 1, 0) {
        return false;
    }
    if !may_send(ash, plan, 0, 0) {
        return false;
    }
    if !sends(ash, line, plan, 0, 0, 0) {
        return false;
    }
    if !sends(ash, line, plan, 0, 1, 65_536) {
        return false;
    }
    let Some(met) = take_in(beech, line, plan, 1) else {
        return false;
    };
    let Some(left) = look(beech, line, plan, 1) else {
        return false;
    };
    (met == 8_590_000_128) & (left == 8_589_934_592)
}

// The same, once both posts are drawn.
fn work(ash: &mut Post, beech: &mut Post, line: &Line, plan: &Plan) -> bool
    requires plan { line.now.table.shared.key ≡ plan.now }
    requires ash { (ash.old.seat.table_id ≡ line.now.table.shared.table_id) × Sits plan.now ash.old.seat.me.0
        × (ash.old.seat.me.0.posts ≡ []) × (ash.old.seat.me.0.seen ≡ []) }
    requires beech { (beech.old.seat.table_id ≡ line.now.table.shared.table_id) × Sits plan.now beech.old.seat.me.0
        × (beech.old.seat.me.0.posts ≡ []) × (beech.old.seat.me.0.seen ≡ []) }
{
    if !draw(ash, line, plan, 0) {
        return false;
    }
    if !draw(beech, line, plan, 1) {
        return false;
    }
    are_worked_numbers(ash, beech, line, plan)
}

#[test]
fn sections_show_their_worked_numbers(rt: HostRuntime) {
    let plan = two_boxes(&rt, rt.alloc());
    let (line, mut ash) = open_words(rt.alloc(), &plan).expect(&rt, "memory");
    let mut beech = ash.split(&line);
    let are_so = work(&mut ash, &mut beech, &line, &plan);
    drop(ash);
    drop(beech);
    drop(line);
    drop(plan);
    hold(&rt, "the section's words", are_so);
}
