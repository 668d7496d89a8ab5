//! What an entry is for a train register.

ghost use Rattle.std.specs.Prelude.{◌≡◌, ◌<◌, option_map, length};
ghost use Rattle.register_sheet.specs.Events.{berthed, event_of, gone_past, heard_from, rang, went_past, worked};

use bell_codes::CodeNo;
use block_words::Way;
use line_law::{Act, Entry, Reply, is_refused, starter_way};
use line_plan::{Plan, Signal, To};

/// What an entry is for a train register.
#[derive(Clone, Copy, Debug)]
pub enum Event {
    /// A code was rung towards a side.
    Rang {
        side: Way,
        code: CodeNo,
    },
    /// A code was heard from a side.
    Heard {
        side: Way,
        code: CodeNo,
    },
    /// A train came to the berth of an incoming line, whole or in part.
    Arrived {
        way: Way,
        train: u32,
        is_whole: bool,
    },
    /// A train went into the section of an outgoing line, past a signal that was off or at danger.
    Departed {
        way: Way,
        train: u32,
        at_danger: bool,
    },
    /// A train went away, off the line, past a signal that was off or at danger.
    WentAway {
        train: u32,
        at_danger: bool,
    },
    /// Something to be remarked, of the line of this way if it is told.
    Noted {
        way: Option<Way>,
    },
    /// Nothing that the register asks for: levers, instruments, trains within the box.
    Worked,
}

// A code was rung towards a side, or the call was refused.
fn rang(side: Way, code: CodeNo, reply: Reply) -> Event
    ensures { result ≡ rang side code reply }
{
    match reply {
        Reply::Rung { .. } => Event::Rang { side, code },
        _ => Event::Noted { way: Some(side) },
    }
}

// A code was heard from a side, or the call was refused.
fn heard_from(side: Way, reply: Reply) -> Event
    ensures { result ≡ heard_from side reply }
{
    match reply {
        Reply::Heard { code, .. } => Event::Heard { side, code },
        _ => Event::Noted {
            way: Some(side.opposite()),
        },
    }
}

// Something was done that the register doesn't ask for, or the call was refused.
fn worked(way: Option<Way>, reply: Reply) -> Event
    ensures { result ≡ worked way reply }
{
    if is_refused(&reply) {
        Event::Noted { way }
    } else {
        Event::Worked
    }
}

// A train went past a signal.
fn gone_past(to: To, train: u32, at_danger: bool) -> Event
    ensures { result ≡ gone_past to train at_danger }
{
    match to {
        To::Section(way) => Event::Departed {
            way,
            train,
            at_danger,
        },
        To::Away => Event::WentAway { train, at_danger },
        To::Place(_) if at_danger => Event::Noted { way: None },
        To::Place(_) => Event::Worked,
    }
}

// A train went past a signal, if there is one and the reply says so.
fn went_past(signal: Option<&Signal>, at_danger: bool, reply: Reply) -> Event
    ensures { result ≡ went_past (option_map (λ signal. signal.now) signal.entry) at_danger reply }
{
    let Some(signal) = signal else {
        return Event::Noted { way: None };
    };
    match reply {
        Reply::Passed { train } | Reply::Entered { train, .. } => {
            gone_past(signal.to, train, at_danger)
        }
        _ => Event::Noted { way: None },
    }
}

// A train came to the berth of a line, or the call was refused.
fn berthed(way: Way, reply: Reply) -> Event
    ensures { result ≡ berthed way reply }
{
    match reply {
        Reply::Berthed { train, .. } => Event::Arrived {
            way,
            train,
            is_whole: true,
        },
        Reply::PartBerthed { train, .. } => Event::Arrived {
            way,
            train,
            is_whole: false,
        },
        _ => Event::Noted { way: Some(way) },
    }
}

/// What an entry is for a train register, as its call and its reply tell it.
pub fn event_of(plan: &Plan, entry: &Entry) -> Event
    requires { entry.now.box_no < length plan.now.boxes }
    ensures { result ≡ event_of plan.now entry.now }
{
    let box_plan = &plan.boxes.as_slice()[entry.box_no as usize];
    let reply = entry.reply;
    match entry.call.act {
        Act::Ring { side, code } => rang(side, code, reply),
        Act::Hear { side } | Act::AwaitBell { side, .. } => heard_from(side, reply),
        Act::Turn { way, .. } | Act::AwaitBlock { way, .. } | Act::AwaitTrain { way } => {
            worked(Some(way), reply)
        }
        Act::Pull { lever } | Act::Put { lever } => {
            worked(starter_way(box_plan.signal(lever)), reply)
        }
        Act::Bring { .. } => worked(None, reply),
        Act::Pass { lever } => went_past(box_plan.signal(lever), false, reply),
        Act::Overrun { lever } => went_past(box_plan.signal(lever), true, reply),
        Act::Berth { way } | Act::BerthPart { way } => berthed(way, reply),
        Act::ClearPortion { way } | Act::Wind { way } | Act::Release { way } => {
            Event::Noted { way: Some(way) }
        }
    }
}
