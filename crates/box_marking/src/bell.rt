//! What a bell entry is, by the last one before it on that side.

ghost use Rattle.std.specs.Prelude.{◌≡◌};
ghost use Rattle.box_marking.specs.Bells.{is_answer, is_repeated, role_of};

use crate::clock::Timed;
use bell_codes::{CALL_ATTENTION, CodeNo, TESTING, TRAIN_ENTERING_SECTION, TRAIN_OUT_OF_SECTION};
use line_plan::Plan;
use reg_audit::{BellEntry, BellKind, is_class_code};

/// What a bell entry is.
#[derive(Clone, Copy, Debug, PartialEq, Eq)]
pub enum Role {
    /// A train is offered: a class code is rung, no answer.
    Offer,
    /// A code is heard that has to be rung back.
    Asked,
    /// It answers the last bell entry before it: a code that is rung back or comes back, or one class code for another.
    Answer,
    /// Any other.
    Other,
}

/// The last bell entry on a side: what it is, its number, and the entry of the neighbour that rang it, if it was heard.
#[derive(Clone, Copy, Debug)]
pub struct LastBell {
    pub bell: BellEntry,
    pub role: Role,
    pub entry: u32,
    pub cause: Option<Timed>,
}

/// Whether a code that is heard has to be rung back: Call Attention, the code of a class, Train Entering Section, Train
/// Out of Section and Testing.
pub fn is_repeated(plan: &Plan, code: CodeNo) -> bool
    ensures { result ≡ is_repeated plan.now code }
{
    code == CALL_ATTENTION
        || code == TRAIN_ENTERING_SECTION
        || code == TRAIN_OUT_OF_SECTION
        || code == TESTING
        || is_class_code(plan, code)
}

// Whether a bell entry answers the last one before it: the same code the other way, or one class code for another where
// that was offered or has to be rung back.
fn is_answer(plan: &Plan, last: Option<LastBell>, bell: BellEntry) -> bool
    ensures { result ≡ is_answer plan.now last bell }
{
    let Some(last) = last else {
        return false;
    };
    let is_open = match last.role {
        Role::Offer | Role::Asked => true,
        Role::Answer | Role::Other => false,
    };
    last.bell.kind != bell.kind
        && (last.bell.code == bell.code
            || (is_open && is_class_code(plan, last.bell.code) && is_class_code(plan, bell.code)))
}

/// What a bell entry is, by the last one before it.
pub fn role_of(plan: &Plan, last: Option<LastBell>, bell: BellEntry) -> Role
    ensures { result ≡ role_of plan.now last bell }
{
    if is_answer(plan, last, bell) {
        return Role::Answer;
    }
    match bell.kind {
        BellKind::Rung if is_class_code(plan, bell.code) => Role::Offer,
        BellKind::Heard if is_repeated(plan, bell.code) => Role::Asked,
        BellKind::Rung | BellKind::Heard => Role::Other,
    }
}
