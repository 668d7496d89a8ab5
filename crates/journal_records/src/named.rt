//! What a reply names.

ghost use Rattle.std.specs.Prelude.{◌≡◌, ◌<◌, IsTrue, length, option_map};
ghost use Rattle.line_plan.specs.Plans.{is_train};
ghost use Rattle.script_text.specs.Names.{place_text, train_text};
ghost use Rattle.script_text.specs.Replies.{is_place, is_spelled_reply};
ghost use Rattle.journal_records.specs.Named.{lever_named, place_named, train_named};

use line_law::Reply;
use line_plan::Plan;

/// The lever that a reply names, if it names one.
pub fn lever_named(reply: &Reply) -> Option<u32>
    ensures { result ≡ lever_named reply.now }
{
    match *reply {
        Reply::HomeReversed { lever } | Reply::HeldByLever { lever, .. } => Some(lever),
        _ => None,
    }
}

// The name of a place of a box.
#[tactic(auto, using(script_text::proofs::Named::place_is))]
fn place_name(plan: &Plan, box_no: u32, place: u32) -> &str
    requires at { box_no < length plan.now.boxes }
    requires place { IsTrue (is_place plan.now box_no place) }
    ensures { result.now ≡ place_text plan.now box_no place }
{
    let here = &plan.boxes.as_slice()[box_no as usize];
    here.places.name_of(place)
}

// The name of a train.
fn train_name(plan: &Plan, train: u32) -> &str
    requires { IsTrue (is_train plan.now.trains train) }
    ensures { result.now ≡ train_text plan.now train }
{
    plan.train(train).name.as_str()
}

/// The place of a box that a reply names, by its name, if it names one.
#[tactic(auto, unfolding(script_text::specs::Replies::is_spelled_reply))]
pub fn place_named<'a>(plan: &'a Plan, box_no: u32, reply: &Reply) -> Option<&'a str>
    requires at { box_no < length plan.now.boxes }
    requires spelled { IsTrue (is_spelled_reply plan.now box_no reply.now) }
    ensures { option_map (λ name. name.now) result ≡ place_named plan.now box_no reply.now }
{
    match *reply {
        Reply::TrackOccupied { place, .. } => Some(place_name(plan, box_no, place)),
        Reply::HeldByTrack { place, .. } => Some(place_name(plan, box_no, place)),
        Reply::Occupied { place, .. } => Some(place_name(plan, box_no, place)),
        _ => None,
    }
}

/// The train that a reply names, by its name, if it names one.
#[tactic(auto, unfolding(script_text::specs::Replies::is_spelled_reply))]
pub fn train_named<'a>(plan: &'a Plan, box_no: u32, reply: &Reply) -> Option<&'a str>
    requires at { box_no < length plan.now.boxes }
    requires spelled { IsTrue (is_spelled_reply plan.now box_no reply.now) }
    ensures { option_map (λ name. name.now) result ≡ train_named plan.now reply.now }
{
    match *reply {
        Reply::TrackOccupied { train, .. } => Some(train_name(plan, train)),
        Reply::HeldByTrack { train, .. } => Some(train_name(plan, train)),
        Reply::Occupied { train, .. } => Some(train_name(plan, train)),
        Reply::Passed { train } => Some(train_name(plan, train)),
        Reply::Entered { train, .. } => Some(train_name(plan, train)),
        Reply::Approaching { train, .. } => Some(train_name(plan, train)),
        Reply::Berthed { train, .. } => Some(train_name(plan, train)),
        Reply::PartBerthed { train, .. } => Some(train_name(plan, train)),
        Reply::BerthOccupied { train } => Some(train_name(plan, train)),
        Reply::PortionAhead { train } => Some(train_name(plan, train)),
        Reply::Cleared { train, .. } => Some(train_name(plan, train)),
        _ => None,
    }
}
