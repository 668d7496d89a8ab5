//! The rule behind each refusal, in two lines of plain English, as docs/CALLS.md has it.

ghost use Rattle.std.specs.Prelude.{◌<◌, length};

use line_law::Reply;

/// A rule, in two lines of at most 80 columns.
#[derive(Clone, Copy)]
pub struct Rule {
    pub first: &'static str,
    pub second: &'static str,
}

// The rules of windings, and of portions that are left.
fn rule_of_controls(reply: &Reply) -> Rule
    ensures first { 0 < length result.first.now }
    ensures second { 0 < length result.second.now }
{
    let (first, second) = match reply {
        Reply::NoPortion => (
            "Only a train that came into the berth in part leaves a portion behind,",
            "and that is cleared away once.",
        ),
        Reply::AlreadyWinding => (
            "A winding goes on until it is ended by the release, by a train that comes",
            "to the berth, or by Line Clear. It need not be begun again.",
        ),
        Reply::NotAtNormal => (
            "A winding begins only while the commutator shows Normal:",
            "turn it to Normal first.",
        ),
        Reply::NotWinding => (
            "A release comes behind a winding: begin it by `wind`, and release when the",
            "plan's delay has passed.",
        ),
        Reply::TooSoon { .. } => (
            "A winding takes the plan's delay, counted from the moment at which it began.",
            "Release at that moment, or later.",
        ),
        _ => (
            "What was asked for is done, and nothing was refused.",
            "How the box stands now is told by `look`.",
        ),
    };
    Rule { first, second }
}

// The rules of trains that come from the section.
fn rule_of_arrivals(reply: &Reply) -> Rule
    ensures first { 0 < length result.first.now }
    ensures second { 0 < length result.second.now }
{
    let (first, second) = match reply {
        Reply::SectionFull { .. } => (
            "A plain line has room for four trains.",
            "The next may enter once the one four before it has come to the berth.",
        ),
        Reply::TrainNotYet { .. } => (
            "Trains are taken in the order in which they entered the section, and the",
            "next one has not entered it yet. Wait until the man in the rear sends it.",
        ),
        Reply::NoTrainAt { .. } => (
            "Only a train that is on the plain line comes to the berth, the first before",
            "the others. Wait until the man in the rear sends one.",
        ),
        Reply::BerthOccupied { .. } => (
            "A berth holds one train: the next one waits on the plain line.",
            "Let the train that stands there go on first.",
        ),
        Reply::PortionAhead { .. } => (
            "No train comes into the berth past a portion that was left in the section:",
            "it is cleared away first, by `clear_portion`.",
        ),
        _ => return rule_of_controls(reply),
    };
    Rule { first, second }
}

// The rules of trains in the box.
fn rule_of_trains(reply: &Reply) -> Rule
    ensures first { 0 < length result.first.now }
    ensures second { 0 < length result.second.now }
{
    let (first, second) = match reply {
        Reply::AlreadyBrought => (
            "Each train of the plan is brought once, at the place that the plan gives it.",
            "It goes on from there by the signals.",
        ),
        Reply::Occupied { .. } => (
            "One train stands at a place: a train goes only where the places that it runs",
            "over, and the one to which the signal leads, are clear.",
        ),
        Reply::NoTrain => (
            "Only a train that stands at a signal passes it.",
            "It has to come to the place where that signal begins first.",
        ),
        Reply::AtDanger => (
            "A train passes a signal with its arm off. The arm goes off as the lever is",
            "pulled, and to danger as a train passes: then put back and pull again.",
        ),
        Reply::ArmOff => (
            "An overrun is a train that passes a signal at danger. This arm is off,",
            "so the train goes by `pass`.",
        ),
        _ => return rule_of_arrivals(reply),
    };
    Rule { first, second }
}

// The rules of levers.
fn rule_of_levers(reply: &Reply) -> Rule
    ensures first { 0 < length result.first.now }
    ensures second { 0 < length result.second.now }
{
    let (first, second) = match reply {
        Reply::AlreadyReversed => (
            "A lever is pulled from normal to reversed, and this one is reversed.",
            "It is put back by `put`.",
        ),
        Reply::AlreadyNormal => (
            "A lever is put back from reversed to normal, and this one is normal.",
            "It is pulled by `pull`.",
        ),
        Reply::Spare => (
            "A spare lever works nothing and is never pulled.",
            "What each lever works is told by `look`.",
        ),
        Reply::HeldByLever { .. } => (
            "A lever moves only where each row of the locking table holds with it at mid",
            "and at its new end. The lever that is named has to be moved first.",
        ),
        Reply::HeldByTrack { .. } => (
            "A lever that is locked by track circuits stays where it is while a train",
            "stands on one of them. Wait until the train has gone on.",
        ),
        Reply::HeldByInstrument { .. } => (
            "One Line Clear gives one pull of the starter: its instrument has to show",
            "Line Clear, with no pull since. Ask the man in advance for the next one.",
        ),
        _ => return rule_of_trains(reply),
    };
    Rule { first, second }
}

// The rules of instruments.
fn rule_of_instruments(reply: &Reply) -> Rule
    ensures first { 0 < length result.first.now }
    ensures second { 0 < length result.second.now }
{
    let (first, second) = match reply {
        Reply::AlreadyThere => (
            "A turn brings the commutator to another position than the one it shows.",
            "Nothing has to be done.",
        ),
        Reply::NotFromNormal => (
            "Line Clear is given from Normal alone, and every other turn is free:",
            "turn the commutator to Normal first.",
        ),
        Reply::HomeReversed { .. } => (
            "Line Clear is given only while every home of the berth is normal, so that",
            "the train is stopped there. Put the lever back first.",
        ),
        Reply::TrackOccupied { .. } => (
            "On an absolute line Line Clear is given only while the berth and its",
            "clearing places are clear. Let the train go on first.",
        ),
        Reply::WelwynHolds { .. } => (
            "On an absolute line each Line Clear is for one train, which has to come to",
            "the berth and leave it before the next. A release needs `wind` and `release`.",
        ),
        Reply::CountFull { .. } => (
            "On a permissive line a train counts from its Line Clear until it has left the",
            "berth. Let one go on first; a release needs `wind` and `release`.",
        ),
        Reply::BlockNotYet { .. } => (
            "The instrument of a line that leaves the box is turned by the man in advance.",
            "Ask him by the bell, or wait until he turns it.",
        ),
        _ => return rule_of_levers(reply),
    };
    Rule { first, second }
}

/// The rule behind a refusal.
pub fn rule_of(reply: &Reply) -> Rule
    ensures first { 0 < length result.first.now }
    ensures second { 0 < length result.second.now }
{
    let (first, second) = match reply {
        Reply::BellBusy { .. } => (
            "A bell holds one code at a time, until the man at its other end has heard it.",
            "Wait until he has, and ring again.",
        ),
        Reply::Silent { .. } => (
            "Each code that is rung is heard once, and nothing stands unheard now.",
            "Wait until the neighbour rings.",
        ),
        Reply::BellNotYet { .. } => (
            "This waits for exactly that code. Another one stays on the bell until it is",
            "heard by `hear`; where none stands there, wait until the neighbour rings.",
        ),
        _ => return rule_of_instruments(reply),
    };
    Rule { first, second }
}
