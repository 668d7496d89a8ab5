//! The first turns of an instrument and a pull of its starter, worked by hand.
ghost use Rattle.std.specs.Prelude.{◌≡◌, ◌<◌, [], true, IfSome, length};
ghost use Rattle.line_law.specs.Law.{box_plan_of};
ghost use Rattle.instrument_rule.specs.Calls.{Sits};
ghost use Rattle.instrument_rule.specs.Views.{caller_of};
ghost use Rattle.rule_tests.specs.Instruments.{Fresh, Given, IsAbsolute, IsFreeStarter};

use block_words::{Position, Way, WordOp, block_word};
use instrument_rule::{Line, Post};
use line_law::{Act, Call, knows, knows_outgoing, starter_way};
use line_plan::{BoxPlan, Kind, Plan, Section};

/// The plan of a box.
pub fn plan_of_box(plan: &Plan, box_no: u32) -> &BoxPlan
    requires { box_no < length plan.now.boxes }
    ensures { result.now ≡ box_plan_of plan.now box_no }
{
    &plan.boxes.as_slice()[box_no as usize]
}

/// Whether the down line of a box is absolute, and has a berth there.
pub fn is_absolute(plan: &Plan, box_no: u32) -> bool
    requires { box_no < length plan.now.boxes }
    ensures { result ≡ true → IsAbsolute plan.now box_no }
{
    match plan_of_box(plan, box_no).berth(Way::Down) {
        Some(berth) => berth.permissive.is_none(),
        None => false,
    }
}

// Whether a lever of a box works the down starter, in a frame without a locking table.
fn is_free_starter(plan: &Plan, box_no: u32, lever: u32) -> bool
    requires { box_no < length plan.now.boxes }
    ensures { result ≡ true → IsFreeStarter plan.now box_no lever }
{
    let here = plan_of_box(plan, box_no);
    let leads_down = matches!(starter_way(here.signal(lever)), Some(Way::Down));
    let is_signal = matches!(here.kind(lever), Some(Kind::Signal));
    here.table.is_empty() && leads_down && is_signal
}

/// Draws the post of a box, for a post that has seen nothing.
pub fn draw(post: &mut Post, line: &Line, plan: &Plan, box_no: u32) -> bool
    requires line { (post.old.seat.table_id ≡ line.now.table.shared.table_id)
        × (line.now.table.shared.key ≡ plan.now) }
    requires free { Sits plan.now post.old.seat.me.0 × (post.old.seat.me.0.posts ≡ [])
        × (post.old.seat.me.0.seen ≡ []) }
    ensures same { post.new.seat.table_id ≡ line.now.table.shared.table_id }
    ensures fresh { result ≡ true → Fresh plan.now post.new.seat.me.0
        × (caller_of post.new.seat.me.0.posts ≡ box_no) }
{
    if (box_no as usize) >= plan.boxes.len() {
        return false;
    }
    post.take(line, box_no) == box_no as u64
}

/// Gives Line Clear on the down line, as the first call of a box. The answer is the word as it was.
pub fn give_line_clear(post: &mut Post, line: &Line, plan: &Plan, box_no: u32) -> Option<u64>
    requires line { (post.old.seat.table_id ≡ line.now.table.shared.table_id)
        × (line.now.table.shared.key ≡ plan.now) }
    requires fresh { Fresh plan.now post.old.seat.me.0 × (caller_of post.old.seat.me.0.posts ≡ box_no) }
    ensures same { post.new.seat.table_id ≡ line.now.table.shared.table_id }
    ensures given { IfSome result (λ met. Given plan.now post.new.seat.me.0
        × (caller_of post.new.seat.me.0.posts ≡ box_no)) }
{
    let way = Way::Down;
    let position = Position::LineClear;
    let call = Call {
        moment: 0,
        act: Act::Turn { way, position },
    };
    if (box_no as usize) >= plan.boxes.len()
        || !knows(plan, box_no, &call)
        || !is_absolute(plan, box_no)
    {
        return None;
    }
    let new = block_word(1, false, position);
    Some(post.step(line, &call, WordOp::Turn { way, new }, true))
}

/// Turns the same instrument to Train on Line, as the second call of a box that has given Line Clear.
pub fn put_train_on_line(post: &mut Post, line: &Line, plan: &Plan, box_no: u32) -> Option<u64>
    requires line { (post.old.seat.table_id ≡ line.now.table.shared.table_id)
        × (line.now.table.shared.key ≡ plan.now) }
    requires given { Given plan.now post.old.seat.me.0 × (caller_of post.old.seat.me.0.posts ≡ box_no) }
{
    let way = Way::Down;
    let position = Position::TrainOnLine;
    let call = Call {
        moment: 0,
        act: Act::Turn { way, position },
    };
    if (box_no as usize) >= plan.boxes.len()
        || !knows(plan, box_no, &call)
        || !is_absolute(plan, box_no)
    {
        return None;
    }
    let new = block_word(2, false, position);
    Some(post.step(line, &call, WordOp::Turn { way, new }, true))
}

/// Pulls the down starter, as the first call of a box. The answer is the word as it was.
pub fn pull_starter(
    post: &mut Post,
    line: &Line,
    plan: &Plan,
    box_no: u32,
    lever: u32,
) -> Option<u64>
    requires line { (post.old.seat.table_id ≡ line.now.table.shared.table_id)
        × (line.now.table.shared.key ≡ plan.now) }
    requires fresh { Fresh plan.now post.old.seat.me.0 × (caller_of post.old.seat.me.0.posts ≡ box_no) }
{
    let call = Call {
        moment: 0,
        act: Act::Pull { lever },
    };
    if (box_no as usize) >= plan.boxes.len()
        || !knows(plan, box_no, &call)
        || !is_free_starter(plan, box_no, lever)
    {
        return None;
    }
    Some(post.step(line, &call, WordOp::Pull { way: Way::Down }, true))
}

/// The word of the instrument of the down section from the first box, as a post sees it.
pub fn watch(post: &mut Post, line: &Line, plan: &Plan) -> u64
    requires line { (post.old.seat.table_id ≡ line.now.table.shared.table_id)
        × (line.now.table.shared.key ≡ plan.now) }
    requires sits { Sits plan.now post.old.seat.me.0 }
    ensures same { post.new.seat.table_id ≡ line.now.table.shared.table_id }
    ensures sits { Sits plan.now post.new.seat.me.0 }
{
    let section = Section {
        rear: 0,
        way: Way::Down,
    };
    if !knows_outgoing(plan, section.rear, section.way) {
        return u64::MAX;
    }
    post.glance(line, section)
}
