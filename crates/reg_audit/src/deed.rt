//! What a signalman did by a call, as far as the regulations ask.

ghost use Rattle.std.specs.Prelude.{◌≡◌, ◌<◌, option_map, length};
ghost use Rattle.line_law.specs.Law.{box_plan_of};
ghost use Rattle.line_report.specs.Gains.{is_home};
ghost use Rattle.reg_audit.specs.Deeds.{deed_of, done_if, heard_from, homes_by, went_past};

use bell_codes::CodeNo;
use block_words::{Position, Way};
use line_law::{Act, ByWay, Entry, Reply, starter_way};
use line_plan::{Berth, BoxPlan, Plan, Signal};

/// What was done by a call, where it wasn't refused. Calls of which the regulations ask nothing do nothing here.
#[derive(Clone, Copy, Debug)]
pub enum Deed {
    /// A code was rung towards a side.
    Rang {
        side: Way,
        code: CodeNo,
    },
    /// A code was heard from a side.
    Heard {
        side: Way,
        code: CodeNo,
    },
    /// The commutator of an incoming line was turned to a position.
    Turned {
        way: Way,
        position: Position,
    },
    /// A train went past a signal: into the section of an outgoing line, if the signal is a starter; out of the berth
    /// of an incoming line, if it is a home of that; with the arm at danger, if it was an overrun.
    WentPast {
        entered: Option<Way>,
        left: ByWay<bool>,
        at_danger: bool,
    },
    /// A train came whole into the berth of an incoming line.
    Berthed {
        way: Way,
    },
    /// A train came into the berth of an incoming line and left a portion behind.
    PartBerthed {
        way: Way,
    },
    /// The control of an incoming line was released.
    Released,
    /// Nothing of which the regulations ask.
    Nothing,
}

// A deed that is done where the reply says so.
fn done_if(done: bool, deed: Deed) -> Deed
    ensures { result ≡ done_if done deed }
{
    if done { deed } else { Deed::Nothing }
}

// A code was heard from a side, where the reply tells it.
fn heard_from(side: Way, reply: &Reply) -> Deed
    ensures { result ≡ heard_from side reply.now }
{
    match *reply {
        Reply::Heard { code, .. } => Deed::Heard { side, code },
        _ => Deed::Nothing,
    }
}

// Whether a signal, if there is one, is a home of a berth, if there is one.
fn is_home(berth: Option<&Berth>, signal: Option<&Signal>) -> bool
    ensures { result ≡ is_home (option_map (λ berth. berth.now) berth.entry)
        (option_map (λ signal. signal.now) signal.entry) }
{
    match (berth, signal) {
        (Some(berth), Some(signal)) => signal.from == berth.place,
        _ => false,
    }
}

// The berth of which incoming line a signal is a home of.
fn homes_by(box_plan: &BoxPlan, signal: Option<&Signal>) -> ByWay<bool>
    ensures { result ≡ homes_by box_plan.now (option_map (λ signal. signal.now) signal.entry) }
{
    ByWay {
        up: is_home(box_plan.berth(Way::Up), signal),
        down: is_home(box_plan.berth(Way::Down), signal),
    }
}

// A train went past a signal, with its arm off or at danger, where the reply says so.
fn went_past(box_plan: &BoxPlan, signal: Option<&Signal>, at_danger: bool, reply: &Reply) -> Deed
    ensures { result ≡ went_past box_plan.now (option_map (λ signal. signal.now) signal.entry) at_danger reply.now }
{
    match *reply {
        Reply::Passed { .. } => Deed::WentPast {
            entered: None,
            left: homes_by(box_plan, signal),
            at_danger,
        },
        Reply::Entered { .. } => Deed::WentPast {
            entered: starter_way(signal),
            left: homes_by(box_plan, signal),
            at_danger,
        },
        _ => Deed::Nothing,
    }
}

/// What was done by an entry, as its call and its reply tell it.
pub fn deed_of(plan: &Plan, entry: &Entry) -> Deed
    requires { entry.now.box_no < length plan.now.boxes }
    ensures { result ≡ deed_of plan.now entry.now }
{
    let box_plan = &plan.boxes.as_slice()[entry.box_no as usize];
    let reply = &entry.reply;
    match entry.call.act {
        Act::Ring { side, code } => done_if(
            matches!(reply, Reply::Rung { .. }),
            Deed::Rang { side, code },
        ),
        Act::Hear { side } | Act::AwaitBell { side, .. } => heard_from(side, reply),
        Act::Turn { way, position } => done_if(
            matches!(reply, Reply::Turned { .. }),
            Deed::Turned { way, position },
        ),
        Act::Pass { lever } => went_past(box_plan, box_plan.signal(lever), false, reply),
        Act::Overrun { lever } => went_past(box_plan, box_plan.signal(lever), true, reply),
        Act::Berth { way } => done_if(
            matches!(reply, Reply::Berthed { .. }),
            Deed::Berthed { way },
        ),
        Act::BerthPart { way } => done_if(
            matches!(reply, Reply::PartBerthed { .. }),
            Deed::PartBerthed { way },
        ),
        Act::Release { .. } => done_if(matches!(reply, Reply::Released), Deed::Released),
        _ => Deed::Nothing,
    }
}

impl Deed {
    ghost use Rattle.reg_audit.specs.Breaches.{berthed_by, entered_by, is_divided, leaves_berth, passes_danger};
    ghost use Rattle.reg_audit.specs.Marks.{is_release};

    /// The section of an outgoing line into which a train went, if it went into one.
    pub fn entered(&self) -> Option<Way>
        ensures { result ≡ entered_by self.now }
    {
        match *self {
            Deed::WentPast { entered, .. } => entered,
            _ => None,
        }
    }

    /// Whether a train left the berth of an incoming line.
    pub fn leaves_berth(&self, way: Way) -> bool
        ensures { result ≡ leaves_berth way self.now }
    {
        match self {
            Deed::WentPast { left, .. } => left.get(way),
            _ => false,
        }
    }

    /// The incoming line to whose berth a train came, whole or in part.
    pub fn berthed(&self) -> Option<Way>
        ensures { result ≡ berthed_by self.now }
    {
        match *self {
            Deed::Berthed { way } | Deed::PartBerthed { way } => Some(way),
            _ => None,
        }
    }

    /// Whether a train went past a signal at danger.
    pub fn passes_danger(&self) -> bool
        ensures { result ≡ passes_danger self.now }
    {
        match *self {
            Deed::WentPast { at_danger, .. } => at_danger,
            _ => false,
        }
    }

    /// Whether a train came into a berth in part.
    pub fn is_divided(&self) -> bool
        ensures { result ≡ is_divided self.now }
    {
        matches!(self, Deed::PartBerthed { .. })
    }

    /// Whether a line was released.
    pub fn is_release(&self) -> bool
        ensures { result ≡ is_release self.now }
    {
        matches!(self, Deed::Released)
    }
}
