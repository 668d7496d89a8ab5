//! What a bell entry is for a register, by the last one before it on that side.

ghost use Rattle.std.specs.Prelude.{◌≡◌};
ghost use Rattle.register_sheet.specs.Bells.{class_of, differs, is_answer, is_offer, repeats, sense_of, unasked};

use bell_codes::{CALL_ATTENTION, CodeNo, TRAIN_ENTERING_SECTION, TRAIN_OUT_OF_SECTION};
use line_plan::Plan;

/// The last bell entry on a side: whether it was rung or heard, its code, and whether it answered the one before it.
#[derive(Clone, Copy, Debug)]
pub struct LastBell {
    pub is_rung: bool,
    pub code: CodeNo,
    pub is_answer: bool,
}

/// What a bell entry is for a register.
#[derive(Clone, Copy, Debug)]
pub enum Sense {
    /// A train is offered.
    Offer,
    /// An offer is repeated: the train is accepted.
    Acceptance,
    /// Train Entering Section.
    Entering,
    /// Train Out of Section.
    Out,
    /// An offer is repeated wrongly, by the code of another class.
    Misrepetition,
    /// Any other code that is no answer, but Call Attention.
    Remark,
    /// Call Attention, and every other answer.
    Nothing,
}

/// The first class of a plan that is offered by a code, from 0, if there is one.
pub fn class_of(plan: &Plan, code: CodeNo) -> Option<usize>
    ensures { result ≡ class_of plan.now code }
{
    plan.classes
        .as_slice()
        .iter()
        .position(|class| class.code == code)
}

// Whether some class is offered by a code.
fn is_offer(plan: &Plan, code: CodeNo) -> bool
    ensures { result ≡ is_offer plan.now code }
{
    class_of(plan, code).is_some()
}

// Whether one of two was rung and the other heard.
fn differs(one: bool, other: bool) -> bool
    ensures { result ≡ differs one other }
{
    if one { !other } else { other }
}

/// Whether a bell entry answers the last one before it: it is of the other kind and has the same code, or it is an offer
/// that is repeated by the code of another class.
pub fn is_answer(plan: &Plan, last: Option<LastBell>, is_rung: bool, code: CodeNo) -> bool
    ensures { result ≡ is_answer plan.now last is_rung code }
{
    let Some(last) = last else {
        return false;
    };
    differs(last.is_rung, is_rung)
        && (last.code == code
            || (!last.is_answer && is_offer(plan, last.code) && is_offer(plan, code)))
}

// Whether a code is that of the last bell entry.
fn repeats(last: Option<LastBell>, code: CodeNo) -> bool
    ensures { result ≡ repeats last code }
{
    match last {
        Some(last) => last.code == code,
        None => false,
    }
}

// What a bell entry is that answers none.
fn unasked(plan: &Plan, code: CodeNo) -> Sense
    ensures { result ≡ unasked plan.now code }
{
    if is_offer(plan, code) {
        Sense::Offer
    } else if code == TRAIN_ENTERING_SECTION {
        Sense::Entering
    } else if code == TRAIN_OUT_OF_SECTION {
        Sense::Out
    } else if code == CALL_ATTENTION {
        Sense::Nothing
    } else {
        Sense::Remark
    }
}

/// What a bell entry is, by the last one before it.
pub fn sense_of(plan: &Plan, last: Option<LastBell>, is_rung: bool, code: CodeNo) -> Sense
    ensures { result ≡ sense_of plan.now last is_rung code }
{
    if !is_answer(plan, last, is_rung, code) {
        unasked(plan, code)
    } else if !is_offer(plan, code) {
        Sense::Nothing
    } else if repeats(last, code) {
        Sense::Acceptance
    } else {
        Sense::Misrepetition
    }
}
