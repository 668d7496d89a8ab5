//! The instrument of a section, worked by hand.
ghost use Rattle.std.specs.Prelude.{◌≡◌, []};
ghost use Rattle.instrument_rule.specs.Calls.{Sits};
ghost use Rattle.instrument_rule.specs.Views.{caller_of};
ghost use Rattle.rule_tests.specs.Instruments.{Fresh};

use crate::instrument::{draw, give_line_clear, pull_starter, put_train_on_line, watch};
use crate::tests::desk::{hold, two_boxes};
use instrument_rule::{Line, Post, open_words};
use line_plan::Plan;

// Beech gives Line Clear, Ash pulls its starter under it, and Beech puts Train on Line; a third post watches.
fn are_worked_numbers(
    ash: &mut Post,
    beech: &mut Post,
    third: &mut Post,
    line: &Line,
    plan: &Plan,
) -> bool
    requires plan { line.now.table.shared.key ≡ plan.now }
    requires ash { (ash.old.seat.table_id ≡ line.now.table.shared.table_id)
        × Fresh plan.now ash.old.seat.me.0 × (caller_of ash.old.seat.me.0.posts ≡ 0) }
    requires beech { (beech.old.seat.table_id ≡ line.now.table.shared.table_id)
        × Fresh plan.now beech.old.seat.me.0 × (caller_of beech.old.seat.me.0.posts ≡ 1) }
    requires third { (third.old.seat.table_id ≡ line.now.table.shared.table_id) × Sits plan.now third.old.seat.me.0 }
{
    let Some(normal) = give_line_clear(beech, line, plan, 1) else {
        return false;
    };
    let given = watch(third, line, plan);
    let Some(clear) = pull_starter(ash, line, plan, 0, 1) else {
        return false;
    };
    let spent = watch(third, line, plan);
    let Some(pulled) = put_train_on_line(beech, line, plan, 1) else {
        return false;
    };
    let after = watch(third, line, plan);
    (normal == 0) & (given == 9) & (clear == 9) & (spent == 13) & (pulled == 13) & (after == 18)
}

// The same, once the first two posts are drawn.
fn work(ash: &mut Post, beech: &mut Post, third: &mut Post, line: &Line, plan: &Plan) -> bool
    requires plan { line.now.table.shared.key ≡ plan.now }
    requires ash { (ash.old.seat.table_id ≡ line.now.table.shared.table_id) × Sits plan.now ash.old.seat.me.0
        × (ash.old.seat.me.0.posts ≡ []) × (ash.old.seat.me.0.seen ≡ []) }
    requires beech { (beech.old.seat.table_id ≡ line.now.table.shared.table_id) × Sits plan.now beech.old.seat.me.0
        × (beech.old.seat.me.0.posts ≡ []) × (beech.old.seat.me.0.seen ≡ []) }
    requires third { (third.old.seat.table_id ≡ line.now.table.shared.table_id) × Sits plan.now third.old.seat.me.0 }
{
    if !draw(ash, line, plan, 0) {
        return false;
    }
    if !draw(beech, line, plan, 1) {
        return false;
    }
    are_worked_numbers(ash, beech, third, line, plan)
}

#[test]
fn instruments_show_their_worked_numbers(rt: HostRuntime) {
    let plan = two_boxes(&rt, rt.alloc());
    let (line, mut ash) = open_words(rt.alloc(), &plan).expect(&rt, "memory");
    let mut beech = ash.split(&line);
    let mut third = ash.split(&line);
    let are_so = work(&mut ash, &mut beech, &mut third, &line, &plan);
    drop(ash);
    drop(beech);
    drop(third);
    drop(line);
    drop(plan);
    hold(&rt, "the instrument's words", are_so);
}
