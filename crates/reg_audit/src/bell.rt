//! What a box rings and hears on one side.

ghost use Rattle.std.specs.Prelude.{◌≡◌};
ghost use Rattle.reg_audit.specs.Bells.{answered_by, bell_on, heard, is_class_code, rung};
ghost use Rattle.reg_audit.specs.Marks.{is_bell, is_of_class, same_bell, unprompted};

use crate::deed::Deed;
use bell_codes::CodeNo;
use block_words::Way;
use line_plan::Plan;

/// Whether a code was rung or heard.
#[derive(Clone, Copy, Debug, PartialEq, Eq)]
pub enum BellKind {
    Rung,
    Heard,
}

/// A code that a box rang towards a side, or heard from it.
#[derive(Clone, Copy, Debug)]
pub struct BellEntry {
    pub kind: BellKind,
    pub code: CodeNo,
}

impl BellEntry {
    /// A code that was rung.
    pub const fn rung(code: CodeNo) -> BellEntry
        ensures { result ≡ rung code }
    {
        BellEntry {
            kind: BellKind::Rung,
            code,
        }
    }

    /// A code that was heard.
    pub const fn heard(code: CodeNo) -> BellEntry
        ensures { result ≡ heard code }
    {
        BellEntry {
            kind: BellKind::Heard,
            code,
        }
    }

    // What it would answer: the same code, heard where it is rung, and rung where it is heard.
    fn answered(self) -> BellEntry
        ensures { result ≡ answered_by self }
    {
        match self.kind {
            BellKind::Rung => BellEntry::heard(self.code),
            BellKind::Heard => BellEntry::rung(self.code),
        }
    }
}

/// Whether a bell entry, if there is one, is this one.
pub fn is_bell(one: Option<BellEntry>, bell: BellEntry) -> bool
    ensures { result ≡ is_bell one bell }
{
    match one {
        Some(one) => one.kind == bell.kind && one.code == bell.code,
        None => false,
    }
}

/// A bell entry, if there is one and it answers none, by the last one before it.
pub fn unprompted(last: Option<BellEntry>, bell: Option<BellEntry>) -> Option<BellEntry>
    ensures { result ≡ unprompted last bell }
{
    let bell = bell?;
    if is_bell(last, bell.answered()) {
        None
    } else {
        Some(bell)
    }
}

/// What was rung towards a side, or heard from it, if anything was.
pub fn bell_on(side: Way, deed: &Deed) -> Option<BellEntry>
    ensures { result ≡ bell_on side deed.now }
{
    match *deed {
        Deed::Rang {
            side: towards,
            code,
        } if towards == side => Some(BellEntry::rung(code)),
        Deed::Heard { side: from, code } if from == side => Some(BellEntry::heard(code)),
        _ => None,
    }
}

/// Whether some class of the plan is offered by a code.
pub fn is_class_code(plan: &Plan, code: CodeNo) -> bool
    ensures { result ≡ is_class_code plan.now code }
{
    plan.classes
        .as_slice()
        .iter()
        .any(|class| class.code == code)
}

/// Whether it is a bell entry of this kind with the code of some class.
pub fn is_of_class(plan: &Plan, kind: BellKind, bell: Option<BellEntry>) -> bool
    ensures { result ≡ is_of_class plan.now kind bell }
{
    match bell {
        Some(bell) => bell.kind == kind && is_class_code(plan, bell.code),
        None => false,
    }
}
