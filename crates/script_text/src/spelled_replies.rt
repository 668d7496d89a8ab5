//! Which replies a text can spell.

ghost use Rattle.std.specs.Prelude.{◌≡◌, ◌<◌, length};
ghost use Rattle.script_text.specs.Replies.{is_count, is_holding, is_place, is_ready_moment, is_row, is_small};
ghost use Rattle.script_text.specs.Replies.{is_spelled_reply, is_stand, shows_code};

use bell_codes::CodeNo;
use block_words::WelwynState;
use line_law::{Reply, is_code_no, knows_lever};
use line_plan::Plan;

// A number of at most ten digits.
fn is_count(number: u64) -> bool
    ensures { result ≡ is_count number }
{
    number < 10_000_000_000
}

// A number of 32 bits, as each number of its type is.
fn is_small(number: u32) -> bool
    ensures { result ≡ is_small number }
{
    number <= u32::MAX
}

// A place of the box, and a train of the plan.
fn is_stand(plan: &Plan, box_no: u32, place: u32, train: u32) -> bool
    requires { box_no < length plan.now.boxes }
    ensures { result ≡ is_stand plan.now box_no place train }
{
    let here = &plan.boxes.as_slice()[box_no as usize];
    (place as usize) < here.places.len() && plan.is_train(train)
}

// A row of the box's locking table. Rows are numbered from 1.
fn is_row(plan: &Plan, box_no: u32, row: u32) -> bool
    requires { box_no < length plan.now.boxes }
    ensures { result ≡ is_row plan.now box_no row }
{
    let here = &plan.boxes.as_slice()[box_no as usize];
    1 <= row && (row as usize) <= here.table.rows().len()
}

// No code, or one of the plan's code table.
fn shows_code(plan: &Plan, shown: Option<CodeNo>) -> bool
    ensures { result ≡ shows_code plan.now shown }
{
    match shown {
        Some(code) => is_code_no(plan, code),
        None => true,
    }
}

// A state by which the commutator is held.
fn is_holding(state: WelwynState) -> bool
    ensures { result ≡ is_holding state }
{
    match state {
        WelwynState::Given | WelwynState::Berthed => true,
        WelwynState::Ready => false,
    }
}

// A moment of the day, or of the hour behind it.
fn is_ready_moment(plan: &Plan, moment: u32) -> bool
    ensures { result ≡ is_ready_moment plan.now moment }
{
    moment < if plan.version == 1 { 1500 } else { 90_000 }
}

/// Whether some text spells the reply at a box: its codes, places, trains, levers and rows are of the plan and the box,
/// its numbers have at most ten digits, its moments are up to 24:59 or 24:59:59, and its Welwyn state isn't `Ready`.
#[tactic(auto, unfolding(crate::specs::Replies::is_spelled_reply))]
pub fn is_spelled_reply(plan: &Plan, box_no: u32, reply: &Reply) -> bool
    requires { box_no < length plan.now.boxes }
    ensures { result ≡ is_spelled_reply plan.now box_no reply.now }
{
    match *reply {
        Reply::Rung { k: n }
        | Reply::Silent { k: n }
        | Reply::SectionFull { k: n }
        | Reply::Turned { v: n }
        | Reply::Seen { v: n }
        | Reply::BlockNotYet { v: n, .. }
        | Reply::PulledUnder { v: n }
        | Reply::HeldByInstrument { v: n, .. }
        | Reply::TrainNotYet { j: n }
        | Reply::NoTrainAt { j: n } => is_count(n),
        Reply::BellBusy { k, code } | Reply::Heard { k, code } => {
            is_count(k) && is_code_no(plan, code)
        }
        Reply::BellNotYet { k, shown } => is_count(k) && shows_code(plan, shown),
        Reply::HomeReversed { lever } => knows_lever(plan, box_no, lever),
        Reply::HeldByLever { lever, row } => {
            knows_lever(plan, box_no, lever) && is_row(plan, box_no, row)
        }
        Reply::TrackOccupied { place, train }
        | Reply::HeldByTrack { place, train }
        | Reply::Occupied { place, train } => is_stand(plan, box_no, place, train),
        Reply::WelwynHolds { state } => is_holding(state),
        Reply::Passed { train } | Reply::BerthOccupied { train } | Reply::PortionAhead { train } =>
            plan.is_train(train),
        Reply::Entered { k: n, train }
        | Reply::Approaching { j: n, train }
        | Reply::Berthed { j: n, train }
        | Reply::PartBerthed { j: n, train }
        | Reply::Cleared { j: n, train } => is_count(n) && plan.is_train(train),
        Reply::Winding { ready_at } | Reply::TooSoon { ready_at } => {
            is_ready_moment(plan, ready_at)
        }
        Reply::CountFull { out } => is_small(out),
        _ => true,
    }
}
