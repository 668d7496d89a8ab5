//! What is due on one side of a box.

ghost use Rattle.std.specs.Prelude.{◌≡◌, ◌<◌, length, option_map};
ghost use Rattle.line_law.specs.Law.{box_plan_of};
ghost use Rattle.line_law.specs.Lines.{IsLineOf};
ghost use Rattle.line_law.specs.States.{box_at};
ghost use Rattle.due_hints.specs.Hints.{back_due, bell_due, coming_due, going_due, heard_code, is_coming, is_over};
ghost use Rattle.due_hints.specs.Hints.{is_berth_free, is_free_at, is_rung_back, normal_due, or_next, out_due};
ghost use Rattle.due_hints.specs.Hints.{shows_clear, train_due};
ghost use Rattle.due_hints.specs.Hints.{train_dues, waits_at, waits_at_starter};

use crate::hint::Hint;
use bell_codes::{CodeNo, TRAIN_ENTERING_SECTION};
use block_words::{Position, Way, WelwynState};
use box_view::{first_coming, unheard_from};
use line_law::{BoxState, Control, Incoming, Passage, Plain, is_off, knows_berth, knows_side};
use line_plan::{Berth, BoxPlan, Plan, Signal};
use reg_audit::{BellEntry, BellKind, SideMarks, is_class_code};

/// One thing before another: the first, where it is due.
pub fn or_next(due: Option<Hint>, next: Option<Hint>) -> Option<Hint>
    ensures { result ≡ or_next due next }
{
    match due {
        Some(hint) => Some(hint),
        None => next,
    }
}

// ---- a code that was heard

// Whether the instrument of an incoming line shows Line Clear.
fn shows_clear(plan: &Plan, line: &Plain, box_no: u32, way: Way) -> bool
    requires line { IsLineOf plan.now line.now }
    requires at { box_no < length plan.now.boxes }
    ensures { result ≡ shows_clear line.now.line box_no way }
{
    let incoming = line.boxes()[box_no as usize].incoming.get(way);
    incoming.position == Position::LineClear
}

// Whether a train is on the plain line of an incoming line.
fn is_coming(plan: &Plan, line: &Plain, box_no: u32, way: Way) -> bool
    requires line { IsLineOf plan.now line.now }
    requires at { box_no < length plan.now.boxes }
    ensures { result ≡ is_coming plan.now line.now.line box_no way }
{
    knows_berth(plan, box_no, way) && first_coming(plan, line, box_no, way).is_some()
}

// Whether a code that was heard is rung back.
fn is_rung_back(
    plan: &Plan,
    line: &Plain,
    box_no: u32,
    side: Way,
    marks: SideMarks,
    code: CodeNo,
) -> bool
    requires line { IsLineOf plan.now line.now }
    requires at { box_no < length plan.now.boxes }
    ensures { result ≡ is_rung_back plan.now line.now.line box_no side marks code }
{
    let way = side.opposite();
    if is_class_code(plan, code) {
        shows_clear(plan, line, box_no, way) && !marks.offered
    } else if code == TRAIN_ENTERING_SECTION {
        shows_clear(plan, line, box_no, way) && !is_coming(plan, line, box_no, way)
    } else {
        true
    }
}

/// The code of a bell entry that was heard, if there is one.
pub fn heard_code(bell: Option<BellEntry>) -> Option<CodeNo>
    ensures { result ≡ heard_code bell }
{
    let bell = bell?;
    match bell.kind {
        BellKind::Rung => None,
        BellKind::Heard => Some(bell.code),
    }
}

/// The code that has to be rung back towards a side, by the one that was heard there.
pub fn back_due(
    plan: &Plan,
    line: &Plain,
    box_no: u32,
    side: Way,
    marks: SideMarks,
    heard: Option<CodeNo>,
) -> Option<Hint>
    requires line { IsLineOf plan.now line.now }
    requires at { box_no < length plan.now.boxes }
    ensures { result ≡ back_due plan.now line.now.line box_no side marks heard }
{
    let code = heard?;
    if is_rung_back(plan, line, box_no, side, marks, code) {
        Some(Hint::RingBack(side, code))
    } else {
        None
    }
}

/// What is due at the bell from a side.
pub fn bell_due(plan: &Plan, line: &Plain, box_no: u32, side: Way) -> Option<Hint>
    requires line { IsLineOf plan.now line.now }
    ensures { result ≡ bell_due plan.now line.now.line box_no side }
{
    if knows_side(plan, box_no, side) && unheard_from(plan, line, box_no, side).is_some() {
        Some(Hint::Hear(side))
    } else {
        None
    }
}

// ---- a train that comes in

// Train on Line is due where the instrument shows Line Clear, by the first train on the plain line.
fn train_due(way: Way, position: Position, first: Option<Passage>) -> Option<Hint>
    ensures { result ≡ train_due way position first }
{
    match (position, first) {
        (Position::LineClear, Some(_)) => Some(Hint::TurnTrainOnLine(way)),
        _ => None,
    }
}

// Train Out of Section is due where a train has left the berth, by the portion that is left.
fn out_due(side: Way, has_left: bool, portion: Option<u32>) -> Option<Hint>
    ensures { result ≡ out_due side has_left portion }
{
    match (has_left, portion) {
        (true, None) => Some(Hint::RingOut(side)),
        _ => None,
    }
}

// Whether every train that was accepted has come to the berth and left it.
fn is_over(control: Control) -> bool
    ensures { result ≡ is_over control }
{
    match control {
        Control::Absolute(state) => state == WelwynState::Ready,
        Control::Permissive(trains) => trains == 0,
    }
}

// Whether no train stands in a berth, if there is one.
fn is_berth_free(here: &BoxState, berth: Option<&Berth>) -> bool
    ensures { result ≡ is_berth_free here.now (option_map (λ berth. berth.now) berth.entry) }
{
    match berth {
        Some(berth) => !matches!(
            here.places.as_slice().get(berth.place as usize),
            Some(Some(_))
        ),
        None => true,
    }
}

// Whether no train stands in the berth of an incoming line.
fn is_free_at(plan: &Plan, line: &Plain, box_no: u32, way: Way) -> bool
    requires line { IsLineOf plan.now line.now }
    requires at { box_no < length plan.now.boxes }
    ensures { result ≡ is_free_at plan.now line.now.line box_no way }
{
    let at = box_no as usize;
    is_berth_free(&line.boxes()[at], plan.boxes.as_slice()[at].berth(way))
}

// Normal is due where the instrument shows Train on Line, no train is on the plain line or in the berth any more, and
// Train Out of Section was rung for each that has left the berth.
fn normal_due(
    way: Way,
    has_left: bool,
    is_free: bool,
    position: Position,
    control: Control,
    first: Option<Passage>,
) -> Option<Hint>
    ensures { result ≡ normal_due way has_left is_free position control first }
{
    match (position, first) {
        (Position::TrainOnLine, None) => {
            if !has_left && is_free && is_over(control) {
                Some(Hint::TurnNormal(way))
            } else {
                None
            }
        }
        _ => None,
    }
}

// What is due for the trains of an incoming line from a side, by the first on its plain line and whether its berth is
// free.
fn train_dues(
    side: Way,
    incoming: Incoming,
    marks: SideMarks,
    is_free: bool,
    first: Option<Passage>,
) -> Option<Hint>
    ensures { result ≡ train_dues side incoming marks is_free first }
{
    let way = side.opposite();
    let (position, control) = (incoming.position, incoming.control);
    let normal = normal_due(way, marks.left, is_free, position, control, first);
    let next = or_next(out_due(side, marks.left, incoming.portion), normal);
    or_next(train_due(way, position, first), next)
}

/// What is due for the trains from a side, where the line that comes from there has a berth.
pub fn coming_due(
    plan: &Plan,
    line: &Plain,
    box_no: u32,
    side: Way,
    marks: SideMarks,
) -> Option<Hint>
    requires line { IsLineOf plan.now line.now }
    requires at { box_no < length plan.now.boxes }
    ensures { result ≡ coming_due plan.now line.now.line box_no side marks }
{
    let way = side.opposite();
    if !knows_berth(plan, box_no, way) {
        return None;
    }
    let incoming = line.boxes()[box_no as usize].incoming.get(way);
    let is_free = is_free_at(plan, line, box_no, way);
    train_dues(
        side,
        incoming,
        marks,
        is_free,
        first_coming(plan, line, box_no, way),
    )
}

// ---- a train that goes away

// Whether a train stands at a starter, if there is one, with its arm off.
fn waits_at(here: &BoxState, starter: Option<&Signal>) -> bool
    ensures { result ≡ waits_at here.now (option_map (λ signal. signal.now) starter.entry) }
{
    match starter {
        Some(signal) => {
            is_off(here.off.as_slice(), signal.lever)
                && matches!(
                    here.places.as_slice().get(signal.from as usize),
                    Some(Some(_))
                )
        }
        None => false,
    }
}

// Whether a train stands at the starter of an outgoing line, with its arm off.
fn waits_at_starter(box_plan: &BoxPlan, here: &BoxState, way: Way) -> bool
    ensures { result ≡ waits_at_starter box_plan.now here.now way }
{
    waits_at(here, box_plan.starter(way))
}

/// What is due for a train that goes to a side.
pub fn going_due(
    plan: &Plan,
    line: &Plain,
    box_no: u32,
    side: Way,
    marks: SideMarks,
) -> Option<Hint>
    requires line { IsLineOf plan.now line.now }
    requires at { box_no < length plan.now.boxes }
    ensures { result ≡ going_due plan.now line.now.line box_no side marks }
{
    let box_plan = &plan.boxes.as_slice()[box_no as usize];
    let here = &line.boxes()[box_no as usize];
    if waits_at_starter(box_plan, here, side) && !marks.entering {
        Some(Hint::RingEntering(side))
    } else {
        None
    }
}
