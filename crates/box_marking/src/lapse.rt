//! What an instructor marks, entry by entry.

ghost use Rattle.std.specs.Prelude.{◌≡◌, ◌<◌, ◌^◌, option_map, slice_get};
ghost use Rattle.line_law.specs.Law.{MayCall};
ghost use Rattle.line_law.specs.Lines.{IsLineOf};
ghost use Rattle.box_marking.specs.Lapses.{acknowledged, asks_for_line, before_cause, bell_lapse, bell_made_good};
ghost use Rattle.box_marking.specs.Lapses.{class_code_of, given_to, is_duty, late, later_than, rung_back};
ghost use Rattle.box_marking.specs.Lapses.{is_held, is_shut, lapse_of, left_off, made_good, misdescribed, misrepeated};
ghost use Rattle.box_marking.specs.Lapses.{signal_made_good, turn_lapse};

use crate::bell::{LastBell, Role, role_of};
use crate::clock::Timed;
use crate::doing::Doing;
use crate::page::{Offer, PassedSignal, SidePage, leaves_on};
use bell_codes::{CALL_ATTENTION, CodeNo};
use block_words::{Position, Way};
use line_law::{Act, ByWay, Call, Entry, Plain, is_refused, knows_berth};
use line_plan::Plan;
use reg_audit::{BellEntry, BellKind, is_class_code};

/// What an instructor marks an entry for, in the order in which one entry's are told.
#[derive(Clone, Copy, Debug)]
pub enum Lapse {
    /// A code that has to be rung back was heard, and wasn't rung back.
    Unacknowledged {
        code: CodeNo,
    },
    /// An offer was heard, by the entry of this number, and another class code was rung back.
    Misrepeated {
        offered: CodeNo,
        repeated: CodeNo,
        by: u32,
    },
    /// A train enters a section, and the train that was offered, by the entry of this number, was of another class.
    Misdescribed {
        offered: CodeNo,
        train: u32,
        by: u32,
    },
    /// A train passes a signal whose lever isn't put back in time.
    LeftOff {
        lever: u32,
    },
    /// The commutator isn't turned to Normal in time, but is left at this position.
    LeftOn {
        shown: Position,
    },
    /// The moment lies before that of the entry of this number, which made it possible.
    BeforeCause {
        cause: u32,
    },
    /// A code is rung back, or Line Clear given, too long after the entry of this number.
    Late {
        since: u32,
    },
}

/// Whether it is only marked where no later entry makes it good.
pub fn is_duty(lapse: &Lapse) -> bool
    ensures { result ≡ is_duty lapse.now }
{
    match lapse {
        Lapse::Unacknowledged { .. } | Lapse::LeftOff { .. } | Lapse::LeftOn { .. } => true,
        Lapse::Misrepeated { .. }
        | Lapse::Misdescribed { .. }
        | Lapse::BeforeCause { .. }
        | Lapse::Late { .. } => false,
    }
}

// ---- refused by silence

// Whether a code asks for the line: Call Attention, or an offer.
fn asks_for_line(plan: &Plan, code: CodeNo) -> bool
    ensures { result ≡ asks_for_line plan.now code }
{
    code == CALL_ATTENTION || is_class_code(plan, code)
}

// Whether the law would refuse Line Clear to a box on an incoming line, at the moment of a call that it may make.
fn is_shut(plan: &Plan, line: &Plain, entry: &Entry, way: Way) -> bool
    requires line { IsLineOf plan.now line.now }
    requires few { line.now.calls < 2 ^ 32 }
    requires call { MayCall plan.now line.now.line entry.now.box_no entry.now.call }
    ensures { result ≡ is_shut plan.now line.now.line entry.now way }
{
    if !knows_berth(plan, entry.box_no, way) {
        return false;
    }
    let call = Call {
        moment: entry.call.moment,
        act: Act::Turn {
            way,
            position: Position::LineClear,
        },
    };
    is_refused(&line.answer(plan, entry.box_no, &call))
}

/// Whether what was heard asks for a line on which the law would refuse Line Clear then.
pub fn is_held(plan: &Plan, line: &Plain, entry: &Entry, doing: &Doing) -> bool
    requires line { IsLineOf plan.now line.now }
    requires few { line.now.calls < 2 ^ 32 }
    requires call { MayCall plan.now line.now.line entry.now.box_no entry.now.call }
    ensures { result ≡ is_held plan.now line.now.line entry.now doing.now }
{
    match *doing {
        Doing::Bell { side, bell } if asks_for_line(plan, bell.code) => {
            is_shut(plan, line, entry, side.opposite())
        }
        _ => false,
    }
}

// ---- bells

// A class code is rung back that isn't the one last heard.
fn misrepeated(last: Option<LastBell>, bell: BellEntry) -> Option<Lapse>
    ensures { result ≡ misrepeated last bell }
{
    let last = last?;
    if bell.kind == BellKind::Rung && last.bell.code != bell.code {
        return Some(Lapse::Misrepeated {
            offered: last.bell.code,
            repeated: bell.code,
            by: last.entry,
        });
    }
    None
}

// What a bell entry is marked for.
fn bell_lapse(plan: &Plan, held: bool, bell: BellEntry, page: &SidePage) -> Option<Lapse>
    ensures { result ≡ bell_lapse plan.now held bell page.now }
{
    match role_of(plan, page.last, bell) {
        Role::Asked if !held => Some(Lapse::Unacknowledged { code: bell.code }),
        Role::Answer => misrepeated(page.last, bell),
        Role::Other if leaves_on(bell, page.shown) => Some(Lapse::LeftOn { shown: page.shown }),
        Role::Offer | Role::Asked | Role::Other => None,
    }
}

// ---- trains and the commutator

// The code of a train's class.
fn class_code_of(plan: &Plan, train: u32) -> Option<CodeNo>
    ensures { result ≡ class_code_of plan.now train }
{
    if !plan.is_train(train) {
        return None;
    }
    let class_no = plan.train(train).class_no as usize;
    match plan.classes.as_slice().get(class_no) {
        Some(class) => Some(class.code),
        None => None,
    }
}

// A train goes under an offer of another class.
fn misdescribed(code: Option<CodeNo>, under: Option<Offer>, train: u32) -> Option<Lapse>
    ensures { result ≡ misdescribed code under train }
{
    match (code, under) {
        (Some(code), Some(offer)) if offer.code != code => Some(Lapse::Misdescribed {
            offered: offer.code,
            train,
            by: offer.entry,
        }),
        _ => None,
    }
}

// Line Clear is given with no train offered.
fn turn_lapse(position: Position, page: &SidePage) -> Option<Lapse>
    ensures { result ≡ turn_lapse position page.now }
{
    if position == Position::LineClear && !page.offered {
        Some(Lapse::LeftOn { shown: position })
    } else {
        None
    }
}

/// What an entry is marked for, by what was done and the pages of its box before it, beside that a signal is left off;
/// whether what was heard asks for a line that is held.
pub fn lapse_of(plan: &Plan, held: bool, doing: &Doing, pages: &ByWay<SidePage>) -> Option<Lapse>
    ensures { result ≡ lapse_of plan.now held doing.now pages.now }
{
    match *doing {
        Doing::Bell { side, bell } => bell_lapse(plan, held, bell, &pages.get(side)),
        Doing::Turned { way, position } => turn_lapse(position, &pages.get(way.opposite())),
        Doing::PassedStarter { way, train, .. } => {
            misdescribed(class_code_of(plan, train), pages.get(way).under, train)
        }
        _ => None,
    }
}

// ---- moments

/// That an entry's moment lies before that of the entry which made it possible.
pub fn before_cause(now: Timed, cause: Option<Timed>) -> Option<Lapse>
    ensures { result ≡ before_cause now cause }
{
    match cause {
        Some(cause) if now.moment < cause.moment => Some(Lapse::BeforeCause { cause: cause.entry }),
        _ => None,
    }
}

// That an entry comes later than it may behind another.
fn later_than(within: Option<u32>, now: Timed, since: Option<Timed>) -> Option<Lapse>
    ensures { result ≡ later_than within now since }
{
    match (within, since) {
        (Some(within), Some(since)) if within < now.moment.saturating_sub(since.moment) => {
            Some(Lapse::Late { since: since.entry })
        }
        _ => None,
    }
}

// The entry of the neighbour that rang what a bell entry rings back, rightly or wrongly.
fn rung_back(plan: &Plan, bell: BellEntry, page: &SidePage) -> Option<Timed>
    ensures { result ≡ rung_back plan.now bell page.now }
{
    match (role_of(plan, page.last, bell), page.last) {
        (Role::Answer, Some(last)) if bell.kind == BellKind::Rung && last.role == Role::Asked => {
            last.cause
        }
        _ => None,
    }
}

// The entry of the neighbour that offered the train to which Line Clear is given.
fn given_to(position: Position, page: &SidePage) -> Option<Timed>
    ensures { result ≡ given_to position page.now }
{
    if position == Position::LineClear && page.offered {
        page.asked
    } else {
        None
    }
}

/// That a code is rung back, or Line Clear given, later than it may after the code was rung.
pub fn late(
    plan: &Plan,
    within: Option<u32>,
    now: Timed,
    doing: &Doing,
    pages: &ByWay<SidePage>,
) -> Option<Lapse>
    ensures { result ≡ late plan.now within now doing.now pages.now }
{
    match *doing {
        Doing::Bell { side, bell } => {
            later_than(within, now, rung_back(plan, bell, &pages.get(side)))
        }
        Doing::Turned { way, position } => {
            later_than(within, now, given_to(position, &pages.get(way.opposite())))
        }
        _ => None,
    }
}

/// That a train passes a signal whose lever has to be put back.
pub fn left_off(doing: &Doing) -> Option<Lapse>
    ensures { result ≡ left_off doing.now }
{
    match *doing {
        Doing::PassedStarter { lever, .. } | Doing::PassedHome { lever, .. } => {
            Some(Lapse::LeftOff { lever })
        }
        _ => None,
    }
}

// ---- what makes good

// The entry that is rung back, rightly or wrongly.
fn acknowledged(last: Option<LastBell>, bell: BellEntry) -> Option<u32>
    ensures { result ≡ acknowledged last bell }
{
    let last = last?;
    if bell.kind == BellKind::Rung && last.role == Role::Asked {
        Some(last.entry)
    } else {
        None
    }
}

// The entry that a bell entry makes good: it rings a code back, or offers a train to which Line Clear was given before.
fn bell_made_good(plan: &Plan, bell: BellEntry, page: &SidePage) -> Option<u32>
    ensures { result ≡ bell_made_good plan.now bell page.now }
{
    match role_of(plan, page.last, bell) {
        Role::Answer => acknowledged(page.last, bell),
        Role::Asked if is_class_code(plan, bell.code) => page.given,
        Role::Asked | Role::Offer | Role::Other => None,
    }
}

// The entry of a passed signal, if this lever works it.
fn signal_made_good(lever: u32, passed: Option<PassedSignal>) -> Option<u32>
    ensures { result ≡ signal_made_good lever passed }
{
    match passed {
        Some(signal) if signal.lever == lever => Some(signal.entry),
        _ => None,
    }
}

/// The earlier entries, by their numbers, for which this one does what had to be done, by what was done and the pages
/// of its box before it.
pub fn made_good(plan: &Plan, doing: &Doing, pages: &ByWay<SidePage>) -> [Option<u32>; 4]
    ensures { result ≡ made_good plan.now doing.now pages.now }
{
    match *doing {
        Doing::Bell { side, bell } => {
            [
                bell_made_good(plan, bell, &pages.get(side)),
                None,
                None,
                None,
            ]
        }
        Doing::Turned { way, position } => {
            let page = pages.get(way.opposite());
            let out = if position == Position::Normal {
                page.out
            } else {
                None
            };
            [out, page.given, None, None]
        }
        Doing::PutBack { lever } => [
            signal_made_good(lever, pages.up.starter),
            signal_made_good(lever, pages.up.home),
            signal_made_good(lever, pages.down.starter),
            signal_made_good(lever, pages.down.home),
        ],
        _ => [None, None, None, None],
    }
}
