//! What is due at a box.

ghost use Rattle.std.specs.Prelude.{◌≡◌, ◌<◌, length};
ghost use Rattle.line_law.specs.Lines.{IsLineOf};
ghost use Rattle.due_hints.specs.Hints.{due_of, due_with, hint_of, only, ring_due, side_due, together};

use crate::sides::{back_due, bell_due, coming_due, going_due, heard_code, or_next};
use bell_codes::CodeNo;
use block_words::Way;
use line_law::{Entry, Plain};
use line_plan::Plan;
use reg_audit::{BellEntry, InHand, SideMarks, in_hand};

/// What is due at a box.
#[derive(Clone, Copy, Debug, PartialEq, Eq)]
pub enum Hint {
    /// This code has to be rung back towards this side: it was heard from there.
    RingBack(Way, CodeNo),
    /// The bell from this side has to be heard: a code stands unheard on it.
    Hear(Way),
    /// The commutator of this line has to be turned to Train on Line: a train is on its plain line.
    TurnTrainOnLine(Way),
    /// Train Out of Section has to be rung towards this side: a train from there has left the berth.
    RingOut(Way),
    /// The commutator of this line has to be turned to Normal: its train has left the section.
    TurnNormal(Way),
    /// Train Entering Section has to be rung towards this side: a train is to pass the starter.
    RingEntering(Way),
}

// How much is due.
#[derive(Clone, Copy)]
enum Due {
    Nothing,
    One(Hint),
    Several,
}

// How much is due, by what is.
fn due_of(due: Option<Hint>) -> Due
    ensures { result ≡ due_of due }
{
    match due {
        None => Due::Nothing,
        Some(hint) => Due::One(hint),
    }
}

// How much is due in two parts together.
fn together(one: Due, other: Due) -> Due
    ensures { result ≡ together one other }
{
    match (one, other) {
        (Due::Nothing, due) | (due, Due::Nothing) => due,
        _ => Due::Several,
    }
}

// What is due at the bell from a side of a box.
fn ring_due(
    plan: &Plan,
    line: &Plain,
    box_no: u32,
    side: Way,
    marks: SideMarks,
    asked: Option<BellEntry>,
) -> Option<Hint>
    requires line { IsLineOf plan.now line.now }
    requires at { box_no < length plan.now.boxes }
    ensures { result ≡ ring_due plan.now line.now.line box_no side marks asked }
{
    let back = back_due(plan, line, box_no, side, marks, heard_code(asked));
    or_next(back, bell_due(plan, line, box_no, side))
}

// How much is due on a side of a box.
fn side_due(
    plan: &Plan,
    line: &Plain,
    box_no: u32,
    side: Way,
    marks: SideMarks,
    asked: Option<BellEntry>,
) -> Due
    requires line { IsLineOf plan.now line.now }
    requires at { box_no < length plan.now.boxes }
    ensures { result ≡ side_due plan.now line.now.line box_no side marks asked }
{
    let ring = due_of(ring_due(plan, line, box_no, side, marks, asked));
    let coming = due_of(coming_due(plan, line, box_no, side, marks));
    let going = due_of(going_due(plan, line, box_no, side, marks));
    together(ring, together(coming, going))
}

// The one thing that is due, where exactly one is.
fn only(due: Due) -> Option<Hint>
    ensures { result ≡ only due }
{
    match due {
        Due::One(hint) => Some(hint),
        Due::Nothing | Due::Several => None,
    }
}

// What is due at a box with this in hand.
#[tactic(auto, unfolding(crate::specs::Hints::due_with))]
fn due_with(plan: &Plan, line: &Plain, box_no: u32, hand: &InHand) -> Option<Hint>
    requires line { IsLineOf plan.now line.now }
    requires at { box_no < length plan.now.boxes }
    ensures { result ≡ due_with plan.now line.now.line box_no hand.now }
{
    let (marks, asked) = (&hand.marks, &hand.asked);
    only(together(
        side_due(plan, line, box_no, Way::Up, marks.up, asked.up),
        side_due(plan, line, box_no, Way::Down, marks.down, asked.down),
    ))
}

/// What the man of a box has to do next behind a journal that leaves the line so, where exactly one thing is due: to
/// ring a code back and then to hear the next; to turn a line that comes in to Train on Line, to ring Train Out of
/// Section and then to turn to Normal; or to ring Train Entering Section. Of what else he may do nothing is said.
pub fn hint_of(plan: &Plan, line: &Plain, box_no: u32, journal: &[Entry]) -> Option<Hint>
    requires line { IsLineOf plan.now line.now }
    requires at { box_no < length plan.now.boxes }
    ensures { result ≡ hint_of plan.now line.now.line box_no journal.now }
{
    due_with(plan, line, box_no, &in_hand(plan, journal, box_no))
}
