//! What trains do by the entries of a journal.

ghost use Rattle.std.specs.Prelude.{◌≡◌, ◌<◌, IfOk, length, option_map};
ghost use Rattle.graph_scene.specs.Deeds.{berthed, brought, cleared, deed_of, deeds_of, done_by, gone, went_past};
ghost use Rattle.graph_scene.specs.Moments.{AreOf};

use block_words::Way;
use line_law::{Act, Entry, Reply};
use line_plan::{Berth, BoxPlan, Plan, Signal, To};
use rail_text::NoMemory;
use std::alloc::Global;

/// What a train does. Places are numbered from 0 in their box.
#[derive(Clone, Copy, Debug, PartialEq, Eq)]
pub enum Deed {
    /// It is brought to its place.
    Brought {
        place: u32,
    },
    /// It passes a signal within the box, with the arm off or at danger.
    Passed {
        from: u32,
        to: u32,
        at_danger: bool,
    },
    /// It passes a starter and enters the section of an outgoing line.
    Entered {
        from: u32,
        way: Way,
        at_danger: bool,
    },
    /// It goes away, off the line.
    Away {
        from: u32,
        at_danger: bool,
    },
    /// It comes whole into the berth of an incoming line.
    Berthed {
        place: u32,
        way: Way,
    },
    /// It comes into the berth of an incoming line and leaves a portion behind.
    PartBerthed {
        place: u32,
        way: Way,
    },
    /// The portion that it left on an incoming line is cleared away.
    Cleared {
        way: Way,
    },
}

/// What a train does by an entry.
#[derive(Clone, Copy, Debug, PartialEq, Eq)]
pub struct TrainDeed {
    /// The entry, numbered from 0 in its journal.
    pub entry: usize,
    /// The box whose entry it is.
    pub box_no: u32,
    /// The train, numbered from 1.
    pub train: u32,
    pub deed: Deed,
}

// A train of the plan is brought, where the reply says so.
fn brought(plan: &Plan, train: u32, reply: Reply) -> Option<(u32, Deed)>
    ensures { result ≡ brought plan.now train reply }
{
    match reply {
        Reply::Brought if plan.is_train(train) => Some((
            train,
            Deed::Brought {
                place: plan.train(train).place,
            },
        )),
        _ => None,
    }
}

// What a train does that goes past a signal.
fn gone(from: u32, to: To, at_danger: bool) -> Deed
    ensures { result ≡ gone from to at_danger }
{
    match to {
        To::Place(to) => Deed::Passed {
            from,
            to,
            at_danger,
        },
        To::Section(way) => Deed::Entered {
            from,
            way,
            at_danger,
        },
        To::Away => Deed::Away { from, at_danger },
    }
}

// A train goes past a signal, where there is one and the reply says so.
fn went_past(signal: Option<&Signal>, at_danger: bool, reply: Reply) -> Option<(u32, Deed)>
    ensures { result ≡ went_past (option_map (λ signal. signal.now) signal.entry) at_danger reply }
{
    let signal = signal?;
    match reply {
        Reply::Passed { train } | Reply::Entered { train, .. } => {
            Some((train, gone(signal.from, signal.to, at_danger)))
        }
        _ => None,
    }
}

// A train comes to a berth, whole or in part, where the reply says so.
fn berthed(berth: Option<&Berth>, way: Way, reply: Reply) -> Option<(u32, Deed)>
    ensures { result ≡ berthed (option_map (λ berth. berth.now) berth.entry) way reply }
{
    let place = berth?.place;
    match reply {
        Reply::Berthed { train, .. } => Some((train, Deed::Berthed { place, way })),
        Reply::PartBerthed { train, .. } => Some((train, Deed::PartBerthed { place, way })),
        _ => None,
    }
}

// The left portion of a train is cleared away, where the reply says so.
fn cleared(way: Way, reply: Reply) -> Option<(u32, Deed)>
    ensures { result ≡ cleared way reply }
{
    match reply {
        Reply::Cleared { train, .. } => Some((train, Deed::Cleared { way })),
        _ => None,
    }
}

// Which train did what, by a call and its reply.
fn done_by(plan: &Plan, box_plan: &BoxPlan, act: Act, reply: Reply) -> Option<(u32, Deed)>
    ensures { result ≡ done_by plan.now box_plan.now act reply }
{
    match act {
        Act::Bring { train } => brought(plan, train, reply),
        Act::Pass { lever } => went_past(box_plan.signal(lever), false, reply),
        Act::Overrun { lever } => went_past(box_plan.signal(lever), true, reply),
        Act::Berth { way } | Act::BerthPart { way } => berthed(box_plan.berth(way), way, reply),
        Act::ClearPortion { way } => cleared(way, reply),
        _ => None,
    }
}

/// What a train did by an entry with this number, if one did anything.
pub fn deed_of(plan: &Plan, number: usize, entry: &Entry) -> Option<TrainDeed>
    requires { entry.now.box_no < length plan.now.boxes }
    ensures { result ≡ deed_of plan.now number entry.now }
{
    let box_plan = &plan.boxes.as_slice()[entry.box_no as usize];
    let (train, deed) = done_by(plan, box_plan, entry.call.act, entry.reply)?;
    Some(TrainDeed {
        entry: number,
        box_no: entry.box_no,
        train,
        deed,
    })
}

/// What all trains did by a journal, in order.
pub fn deeds_of(alloc: Global, plan: &Plan, entries: &[Entry]) -> Result<Vec<TrainDeed>, NoMemory>
    requires { AreOf plan.now entries.now }
    ensures { IfOk result (λ deeds. deeds.items ≡ deeds_of plan.now entries.now) }
{
    let mut deeds = Vec::new(alloc);
    for (number, entry) in entries.iter().enumerate() {
        if let Some(deed) = deed_of(plan, number, entry) {
            deeds.push(deed)?;
        }
    }
    Ok(deeds)
}
