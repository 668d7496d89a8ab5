//! Trains that are sent into a section and taken out of it, worked by hand.
ghost use Rattle.std.specs.Prelude.{◌≡◌, ◌<◌, ◌+◌, ◌*◌, true, IfSome, length};
ghost use Rattle.line_plan.specs.Plans.{train_at};
ghost use Rattle.instrument_rule.specs.Views.{caller_of};
ghost use Rattle.rule_tests.specs.Hands.{Knows};
ghost use Rattle.rule_tests.specs.Instruments.{Fresh};
ghost use Rattle.rule_tests.specs.Sections.{IsStanding, IsStarter, IsWaiting};

use crate::instrument::{is_absolute, plan_of_box};
use block_words::{Way, WordOp, lane, lane_bits, lane_mask};
use instrument_rule::{Line, Post};
use line_law::{Act, Call, knows, knows_train};
use line_plan::{Plan, To};

/// Whether a lever of a box works the down starter at a place.
pub fn is_starter(plan: &Plan, box_no: u32, lever: u32, place: u32) -> bool
    requires { box_no < length plan.now.boxes }
    ensures { result ≡ true → IsStarter plan.now box_no lever place }
{
    match plan_of_box(plan, box_no).signal(lever) {
        Some(signal) => {
            signal.from == place
                && signal.over.as_slice().is_empty()
                && matches!(signal.to, To::Section(Way::Down))
        }
        None => false,
    }
}

// Whether a train is brought at a place of a box.
fn is_brought_at(plan: &Plan, box_no: u32, train: u32, place: u32) -> bool
    ensures { result ≡ true → (train_at plan.now.trains train).place ≡ place }
{
    if !knows_train(plan, box_no, train) {
        return false;
    }
    plan.train(train).place == place
}

/// Whether a box that has done nothing has a place for its trains.
pub fn may_send(post: &Post, plan: &Plan, box_no: u32, place: u32) -> bool
    requires box_no { box_no < length plan.now.boxes }
    requires fresh { Fresh plan.now post.now.seat.me.0 × (caller_of post.now.seat.me.0.posts ≡ box_no) }
    ensures { result ≡ true → IsWaiting plan.now post.now.seat.me.0 place 0 0 }
{
    let _post = post;
    (place as usize) < plan_of_box(plan, box_no).places.len()
}

/// Brings the next train to its place.
pub fn bring(
    post: &mut Post,
    line: &Line,
    plan: &Plan,
    box_no: u32,
    place: u32,
    sent: u32,
) -> Option<u64>
    requires line { (post.old.seat.table_id ≡ line.now.table.shared.table_id)
        × (line.now.table.shared.key ≡ plan.now) }
    requires few { sent < 1000 }
    requires waiting { IsWaiting plan.now post.old.seat.me.0 place sent (2 * sent) }
    requires whose { caller_of post.old.seat.me.0.posts ≡ box_no }
    ensures same { post.new.seat.table_id ≡ line.now.table.shared.table_id }
    ensures standing { IfSome result (λ met. IsStanding plan.now post.new.seat.me.0 place sent (2 * sent + 1)) }
    ensures whose { caller_of post.new.seat.me.0.posts ≡ box_no }
{
    let train = sent + 1;
    let call = Call {
        moment: 0,
        act: Act::Bring { train },
    };
    if !knows(plan, box_no, &call) {
        return None;
    }
    if !is_brought_at(plan, box_no, train, place) {
        return None;
    }
    Some(post.step(line, &call, WordOp::Local, true))
}

/// Sends the train past its starter at danger. The answer is the section's word at the look and at the entry.
pub fn send(
    post: &mut Post,
    line: &Line,
    plan: &Plan,
    box_no: u32,
    lever: u32,
    place: u32,
    sent: u32,
) -> Option<(u64, u64)>
    requires line { (post.old.seat.table_id ≡ line.now.table.shared.table_id)
        × (line.now.table.shared.key ≡ plan.now) }
    requires few { sent < 1000 }
    requires starter { IsStarter plan.now box_no lever place }
    requires standing { IsStanding plan.now post.old.seat.me.0 place sent (2 * sent + 1) }
    requires whose { caller_of post.old.seat.me.0.posts ≡ box_no }
    ensures same { post.new.seat.table_id ≡ line.now.table.shared.table_id }
    ensures waiting { IfSome result (λ met. IsWaiting plan.now post.new.seat.me.0 place (sent + 1) (2 * (sent + 1))) }
    ensures whose { caller_of post.new.seat.me.0.posts ≡ box_no }
{
    let way = Way::Down;
    let call = Call {
        moment: 0,
        act: Act::Overrun { lever },
    };
    if !knows(plan, box_no, &call) {
        return None;
    }
    let train = sent as u64 + 1;
    let shown = post.step(line, &call, WordOp::LookSection { way }, true);
    if lane(shown, train) != 0 {
        return None;
    }
    let bits = lane_bits(train, train as u16);
    let met = post.step(line, &call, WordOp::Enter { way, bits }, true);
    if lane(met, train) != 0 {
        return None;
    }
    Some((shown, met))
}

/// Takes the first train of the down line into the berth, as the first call of a box.
pub fn take_in(post: &mut Post, line: &Line, plan: &Plan, box_no: u32) -> Option<u64>
    requires line { (post.old.seat.table_id ≡ line.now.table.shared.table_id)
        × (line.now.table.shared.key ≡ plan.now) }
    requires fresh { Fresh plan.now post.old.seat.me.0 }
    requires whose { caller_of post.old.seat.me.0.posts ≡ box_no }
    ensures same { post.new.seat.table_id ≡ line.now.table.shared.table_id }
    ensures knows { IfSome result (λ met. Knows plan.now post.new.seat.me.0 0 1) }
    ensures whose { caller_of post.new.seat.me.0.posts ≡ box_no }
{
    let way = Way::Down;
    let call = Call {
        moment: 0,
        act: Act::Berth { way },
    };
    if (box_no as usize) >= plan.boxes.len() {
        return None;
    }
    if !knows(plan, box_no, &call) {
        return None;
    }
    if !is_absolute(plan, box_no) {
        return None;
    }
    let mask = lane_mask(1);
    Some(post.step(line, &call, WordOp::TakeOut { way, mask }, true))
}

/// Looks at the section of the down line, as the second call of a box.
pub fn look(post: &mut Post, line: &Line, plan: &Plan, box_no: u32) -> Option<u64>
    requires line { (post.old.seat.table_id ≡ line.now.table.shared.table_id)
        × (line.now.table.shared.key ≡ plan.now) }
    requires knows { Knows plan.now post.old.seat.me.0 0 1 }
    requires whose { caller_of post.old.seat.me.0.posts ≡ box_no }
{
    let way = Way::Down;
    let call = Call {
        moment: 0,
        act: Act::AwaitTrain { way },
    };
    if !knows(plan, box_no, &call) {
        return None;
    }
    Some(post.step(line, &call, WordOp::LookSection { way }, true))
}
