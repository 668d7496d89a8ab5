//! What the entries of a box so far tell of one side of it.

ghost use Rattle.std.specs.Prelude.{◌≡◌, IfOk, replicate};
ghost use Rattle.line_law.specs.Ways.{of_way, with_way};
ghost use Rattle.box_marking.specs.Pages.{bell_written, leaves_on, opening_pages, put_written, turn_written, unless_of};
ghost use Rattle.box_marking.specs.Pages.{written};

use crate::bell::{LastBell, Role, role_of};
use crate::clock::Timed;
use crate::doing::Doing;
use bell_codes::{CodeNo, TRAIN_OUT_OF_SECTION};
use block_words::{Position, Way};
use line_law::ByWay;
use line_plan::Plan;
use rail_text::NoMemory;
use reg_audit::{BellEntry, BellKind, is_class_code};
use std::alloc::Global;

/// A train that was offered: the code, and the number of the entry.
#[derive(Clone, Copy, Debug)]
pub struct Offer {
    pub code: CodeNo,
    pub entry: u32,
}

/// A signal that a train has passed: its lever, which is still reversed, and the number of the entry.
#[derive(Clone, Copy, Debug)]
pub struct PassedSignal {
    pub lever: u32,
    pub entry: u32,
}

/// What the entries of a box so far tell of one side of it: of the line that goes out there, and of the one that comes
/// in from there.
#[derive(Clone, Copy, Debug)]
pub struct SidePage {
    /// The last bell entry.
    pub last: Option<LastBell>,
    /// What the commutator of the line that comes in shows.
    pub shown: Position,
    /// Whether a train was offered from there since Line Clear was last given.
    pub offered: bool,
    /// The entry of the neighbour that rang the last offer from there.
    pub asked: Option<Timed>,
    /// The entry by which Line Clear was given with no train offered, while it stands and none is.
    pub given: Option<u32>,
    /// The last entry that rang Train Out of Section with the commutator not at Normal, until it is turned there or the
    /// next train is offered.
    pub out: Option<u32>,
    /// The last train that was offered towards there.
    pub offer: Option<Offer>,
    /// The train that was offered last when the starter was last pulled.
    pub under: Option<Offer>,
    /// The starter, passed by a train, until its lever is put back or the next train is offered.
    pub starter: Option<PassedSignal>,
    /// The home that a train has passed, until its lever is put back or the next train is offered or comes to the
    /// berth.
    pub home: Option<PassedSignal>,
}

/// A page on which nothing is written.
pub const EMPTY_PAGE: SidePage = SidePage {
    last: None,
    shown: Position::Normal,
    offered: false,
    asked: None,
    given: None,
    out: None,
    offer: None,
    under: None,
    starter: None,
    home: None,
};

/// Whether Train Out of Section is rung while the commutator doesn't show Normal.
pub fn leaves_on(bell: BellEntry, shown: Position) -> bool
    ensures { result ≡ leaves_on bell shown }
{
    bell.kind == BellKind::Rung && bell.code == TRAIN_OUT_OF_SECTION && shown != Position::Normal
}

// A signal that was passed, unless this lever works it.
fn unless_of(lever: u32, passed: Option<PassedSignal>) -> Option<PassedSignal>
    ensures { result ≡ unless_of lever passed }
{
    match passed {
        Some(signal) if signal.lever != lever => Some(signal),
        _ => None,
    }
}

impl SidePage {
    // Writes a bell entry down.
    fn write_bell(&mut self, plan: &Plan, entry: u32, cause: Option<Timed>, bell: BellEntry)
        ensures { self.new ≡ bell_written plan.now entry cause bell self.old }
    {
        let role = role_of(plan, self.last, bell);
        let code = bell.code;
        self.last = Some(LastBell {
            bell,
            role,
            entry,
            cause,
        });
        match role {
            Role::Offer => {
                self.offer = Some(Offer { code, entry });
                self.starter = None;
            }
            Role::Asked if is_class_code(plan, code) => {
                self.offered = true;
                self.asked = cause;
                self.given = None;
                self.out = None;
                self.home = None;
            }
            Role::Other if leaves_on(bell, self.shown) => self.out = Some(entry),
            Role::Asked | Role::Answer | Role::Other => {}
        }
    }

    // Writes down that the commutator was turned.
    fn write_turn(&mut self, entry: u32, position: Position)
        ensures { self.new ≡ turn_written entry position self.old }
    {
        let is_clear = position == Position::LineClear;
        self.shown = position;
        if position == Position::Normal {
            self.out = None;
        }
        self.given = if is_clear && !self.offered {
            Some(entry)
        } else {
            None
        };
        self.offered &= !is_clear;
    }

    // Writes down that a lever was put back.
    fn write_put(&mut self, lever: u32)
        ensures { self.new ≡ put_written lever self.old }
    {
        self.starter = unless_of(lever, self.starter);
        self.home = unless_of(lever, self.home);
    }
}

/// So many boxes with empty pages.
pub fn empty_pages(alloc: Global, boxes: usize) -> Result<Vec<ByWay<SidePage>>, NoMemory>
    ensures { IfOk result (λ pages. pages.items ≡ replicate boxes opening_pages) }
{
    let empty = ByWay {
        up: EMPTY_PAGE,
        down: EMPTY_PAGE,
    };
    Ok(vec![in alloc; empty; boxes]?)
}

/// Writes down, in place, what was done at a box by an entry, which an entry of a neighbour made possible.
pub fn write_down(
    plan: &Plan,
    entry: u32,
    cause: Option<Timed>,
    doing: &Doing,
    pages: &mut ByWay<SidePage>,
)
    ensures { pages.new ≡ written plan.now entry cause doing.now pages.old }
{
    match *doing {
        Doing::Bell { side, bell } => {
            let mut page = pages.get(side);
            page.write_bell(plan, entry, cause, bell);
            pages.set(side, page);
        }
        Doing::Turned { way, position } => {
            let mut page = pages.get(way.opposite());
            page.write_turn(entry, position);
            pages.set(way.opposite(), page);
        }
        Doing::PulledStarter { way } => {
            let page = pages.get(way);
            let under = page.offer;
            pages.set(way, SidePage { under, ..page });
        }
        Doing::PutBack { lever } => {
            pages.up.write_put(lever);
            pages.down.write_put(lever);
        }
        Doing::PassedStarter { way, lever, .. } => {
            let page = pages.get(way);
            let starter = Some(PassedSignal { lever, entry });
            pages.set(way, SidePage { starter, ..page });
        }
        Doing::PassedHome { way, lever } => {
            let page = pages.get(way.opposite());
            let home = Some(PassedSignal { lever, entry });
            pages.set(way.opposite(), SidePage { home, ..page });
        }
        Doing::Berthed { way, .. } => {
            let page = pages.get(way.opposite());
            pages.set(way.opposite(), SidePage { home: None, ..page });
        }
        Doing::Overran { .. } | Doing::Saw { .. } | Doing::Found { .. } | Doing::Nothing => {}
    }
}
