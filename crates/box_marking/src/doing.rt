//! What was done at a box by an entry, as far as an instructor marks it.

ghost use Rattle.std.specs.Prelude.{◌≡◌, ◌<◌, option_map, length};
ghost use Rattle.line_report.specs.Gains.{is_home};
ghost use Rattle.box_marking.specs.Doings.{berthed, doing_of, found, gone_past, heard_from, home_line, overran};
ghost use Rattle.box_marking.specs.Doings.{past_home, past_starter, pulled_starter, put_back, rang, saw, turned_to};

use bell_codes::CodeNo;
use block_words::{Position, Way};
use line_law::{Act, Entry, Reply, starter_way};
use line_plan::{Berth, BoxPlan, Plan, Signal};
use reg_audit::BellEntry;

/// What was done by an entry, where its call wasn't refused. Calls of which nothing is asked do nothing here.
#[derive(Clone, Copy, Debug)]
pub enum Doing {
    /// A code was rung towards a side, or heard from it.
    Bell {
        side: Way,
        bell: BellEntry,
    },
    /// The commutator of an incoming line was turned to a position.
    Turned {
        way: Way,
        position: Position,
    },
    /// The starter of an outgoing line was pulled under Line Clear.
    PulledStarter {
        way: Way,
    },
    /// A lever was put back.
    PutBack {
        lever: u32,
    },
    /// A train passed the starter of an outgoing line, which this lever works, into the section, as the train of this
    /// number there.
    PassedStarter {
        way: Way,
        lever: u32,
        train: u32,
        number: u64,
    },
    /// A train overran the starter of an outgoing line into the section, as the train of this number there.
    Overran {
        way: Way,
        number: u64,
    },
    /// A train passed a home of the berth of an incoming line, which this lever works.
    PassedHome {
        way: Way,
        lever: u32,
    },
    /// The instrument of an outgoing line was seen to show what was awaited.
    Saw {
        way: Way,
    },
    /// The train of this number was found on an incoming line.
    Found {
        way: Way,
        number: u64,
    },
    /// The train of this number came to the berth of an incoming line, whole or in part.
    Berthed {
        way: Way,
        number: u64,
    },
    /// Nothing of which is asked.
    Nothing,
}

// A code was rung towards a side, where the reply says so.
fn rang(side: Way, code: CodeNo, reply: &Reply) -> Doing
    ensures { result ≡ rang side code reply.now }
{
    match *reply {
        Reply::Rung { .. } => Doing::Bell {
            side,
            bell: BellEntry::rung(code),
        },
        _ => Doing::Nothing,
    }
}

// A code was heard from a side, where the reply tells it.
fn heard_from(side: Way, reply: &Reply) -> Doing
    ensures { result ≡ heard_from side reply.now }
{
    match *reply {
        Reply::Heard { code, .. } => Doing::Bell {
            side,
            bell: BellEntry::heard(code),
        },
        _ => Doing::Nothing,
    }
}

// The commutator of a line was turned, where the reply says so.
fn turned_to(way: Way, position: Position, reply: &Reply) -> Doing
    ensures { result ≡ turned_to way position reply.now }
{
    match *reply {
        Reply::Turned { .. } => Doing::Turned { way, position },
        _ => Doing::Nothing,
    }
}

// The starter of a line, if the signal is one, was pulled under Line Clear, where the reply says so.
fn pulled_starter(starter: Option<Way>, reply: &Reply) -> Doing
    ensures { result ≡ pulled_starter starter reply.now }
{
    match (starter, reply) {
        (Some(way), Reply::PulledUnder { .. }) => Doing::PulledStarter { way },
        _ => Doing::Nothing,
    }
}

// A lever was put back, where the reply says so.
fn put_back(lever: u32, reply: &Reply) -> Doing
    ensures { result ≡ put_back lever reply.now }
{
    match *reply {
        Reply::Put => Doing::PutBack { lever },
        _ => Doing::Nothing,
    }
}

// Whether a signal, if there is one, is a home of a berth, if there is one.
fn is_home(berth: Option<&Berth>, signal: Option<&Signal>) -> bool
    ensures { result ≡ is_home (option_map (λ berth. berth.now) berth.entry)
        (option_map (λ signal. signal.now) signal.entry) }
{
    match (berth, signal) {
        (Some(berth), Some(signal)) => signal.from == berth.place,
        _ => false,
    }
}

// The incoming line of whose berth a signal is a home, if it is one.
fn home_line(box_plan: &BoxPlan, signal: Option<&Signal>) -> Option<Way>
    ensures { result ≡ home_line box_plan.now (option_map (λ signal. signal.now) signal.entry) }
{
    if is_home(box_plan.berth(Way::Up), signal) {
        Some(Way::Up)
    } else if is_home(box_plan.berth(Way::Down), signal) {
        Some(Way::Down)
    } else {
        None
    }
}

// A train passed a starter, if the signal is one, into its section.
fn past_starter(starter: Option<Way>, lever: u32, train: u32, number: u64) -> Doing
    ensures { result ≡ past_starter starter lever train number }
{
    match starter {
        Some(way) => Doing::PassedStarter {
            way,
            lever,
            train,
            number,
        },
        None => Doing::Nothing,
    }
}

// A train passed a home, if the signal is one.
fn past_home(home: Option<Way>, lever: u32) -> Doing
    ensures { result ≡ past_home home lever }
{
    match home {
        Some(way) => Doing::PassedHome { way, lever },
        None => Doing::Nothing,
    }
}

// A train passed the signal of a lever, where the reply says so: a starter into its section, or a home.
fn gone_past(box_plan: &BoxPlan, lever: u32, reply: &Reply) -> Doing
    ensures { result ≡ gone_past box_plan.now lever reply.now }
{
    let signal = box_plan.signal(lever);
    match *reply {
        Reply::Entered { train, k } => past_starter(starter_way(signal), lever, train, k),
        Reply::Passed { .. } => past_home(home_line(box_plan, signal), lever),
        _ => Doing::Nothing,
    }
}

// A train overran a starter, if the signal is one, where the reply says so.
fn overran(starter: Option<Way>, reply: &Reply) -> Doing
    ensures { result ≡ overran starter reply.now }
{
    match (starter, reply) {
        (Some(way), Reply::Entered { k, .. }) => Doing::Overran { way, number: *k },
        _ => Doing::Nothing,
    }
}

// An instrument was seen to show what was awaited, where the reply says so.
fn saw(way: Way, reply: &Reply) -> Doing
    ensures { result ≡ saw way reply.now }
{
    match *reply {
        Reply::Seen { .. } => Doing::Saw { way },
        _ => Doing::Nothing,
    }
}

// A train was found on a line, where the reply says so.
fn found(way: Way, reply: &Reply) -> Doing
    ensures { result ≡ found way reply.now }
{
    match *reply {
        Reply::Approaching { j, .. } => Doing::Found { way, number: j },
        _ => Doing::Nothing,
    }
}

// A train came to the berth of a line, whole or in part, where the reply says so.
fn berthed(way: Way, reply: &Reply) -> Doing
    ensures { result ≡ berthed way reply.now }
{
    match *reply {
        Reply::Berthed { j, .. } | Reply::PartBerthed { j, .. } => Doing::Berthed {
            way,
            number: j,
        },
        _ => Doing::Nothing,
    }
}

/// What was done by an entry, as its call and its reply tell it.
pub fn doing_of(plan: &Plan, entry: &Entry) -> Doing
    requires { entry.now.box_no < length plan.now.boxes }
    ensures { result ≡ doing_of plan.now entry.now }
{
    let box_plan = &plan.boxes.as_slice()[entry.box_no as usize];
    let reply = &entry.reply;
    match entry.call.act {
        Act::Ring { side, code } => rang(side, code, reply),
        Act::Hear { side } | Act::AwaitBell { side, .. } => heard_from(side, reply),
        Act::Turn { way, position } => turned_to(way, position, reply),
        Act::Pull { lever } => pulled_starter(starter_way(box_plan.signal(lever)), reply),
        Act::Put { lever } => put_back(lever, reply),
        Act::Pass { lever } => gone_past(box_plan, lever, reply),
        Act::Overrun { lever } => overran(starter_way(box_plan.signal(lever)), reply),
        Act::AwaitBlock { way, .. } => saw(way, reply),
        Act::AwaitTrain { way } => found(way, reply),
        Act::Berth { way } | Act::BerthPart { way } => berthed(way, reply),
        _ => Doing::Nothing,
    }
}
