//! What a box has, and what a pair of neighbours shares.

ghost use Rattle.std.specs.Prelude.{◌≡◌, IfOk, option_map};
ghost use Rattle.line_law.specs.States.{opening_box, opening_control, opening_line, opening_pair};

use crate::plain_line::PlainLine;
use crate::ways::ByWay;
use bell_codes::CodeNo;
use block_words::{Position, WelwynState};
use line_plan::{Berth, BoxPlan, Items};
use locking_table::End;
use rail_text::NoMemory;
use std::alloc::Global;

/// What holds the commutator of an incoming line back from a further Line Clear.
#[derive(Clone, Copy, Debug, PartialEq, Eq)]
pub enum Control {
    /// An absolute line is under Welwyn control, in this state.
    Absolute(WelwynState),
    /// On a permissive line so many trains are out: accepted, and not yet gone from the berth.
    Permissive(u8),
}

/// What a box has of an incoming line.
#[derive(Clone, Copy, Debug, PartialEq, Eq)]
pub struct Incoming {
    /// What its commutator shows.
    pub position: Position,
    /// How many times the commutator was turned.
    pub turns: u64,
    pub control: Control,
    /// The moment from which a release that was begun may come.
    pub ready_at: Option<u32>,
    /// How many trains were taken off the plain line.
    pub taken: u64,
    /// The train whose left portion stands on the plain line.
    pub portion: Option<u32>,
}

/// What one box has for itself.
#[derive(Debug, Drop)]
pub struct BoxState {
    /// Where each lever stands: lever `n` at `n - 1`.
    pub ends: Items<End>,
    /// Which levers have their arm off, in the same order.
    pub off: Items<bool>,
    /// The train at each place.
    pub places: Items<Option<u32>>,
    /// Which trains of the plan were brought here: train `t` at `t - 1`.
    pub brought: Items<bool>,
    /// How many codes it has rung towards each side.
    pub rung: ByWay<u64>,
    /// How many trains it has sent into each outgoing section.
    pub sent: ByWay<u64>,
    /// What it has of each incoming line.
    pub incoming: ByWay<Incoming>,
    /// The moment of its last call.
    pub moment: u32,
}

/// A bell: how many codes were rung on it, and the one that stands unheard.
#[derive(Clone, Copy, Debug, PartialEq, Eq)]
pub struct Bell {
    pub count: u64,
    pub unheard: Option<CodeNo>,
}

/// The block instrument of a section.
#[derive(Clone, Copy, Debug, PartialEq, Eq)]
pub struct Block {
    /// How many times it was turned.
    pub turns: u64,
    /// What it shows.
    pub position: Position,
    /// Whether a pull of the starter has reached it since it was turned.
    pub spent: bool,
}

/// A train on a plain line.
#[derive(Clone, Copy, Debug, PartialEq, Eq)]
pub struct Passage {
    /// Which of the section's trains it is: the first that entered has 1.
    pub number: u64,
    pub train: u32,
}

/// What two neighbours share.
#[derive(Debug, Drop)]
pub struct PairState {
    /// The bells, each by the way in which it is rung.
    pub bells: ByWay<Bell>,
    /// The instruments of the two sections.
    pub blocks: ByWay<Block>,
    /// The trains on the plain lines of the two sections, in the order in which they entered.
    pub lines: ByWay<PlainLine>,
}

impl Control {
    /// The control of the line that has this berth, as the line opens; a line without one is absolute.
    pub fn open(berth: Option<&Berth>) -> Control
        ensures { result ≡ opening_control (option_map (λ berth. berth.now) berth.entry) }
    {
        match berth {
            Some(berth) => match berth.permissive {
                Some(_) => Control::Permissive(0),
                None => Control::Absolute(WelwynState::Ready),
            },
            None => Control::Absolute(WelwynState::Ready),
        }
    }
}

impl Incoming {
    /// The incoming line that has this berth, as the line opens.
    pub fn open(berth: Option<&Berth>) -> Incoming
        ensures { result ≡ opening_line (option_map (λ berth. berth.now) berth.entry) }
    {
        Incoming {
            position: Position::Normal,
            turns: 0,
            control: Control::open(berth),
            ready_at: None,
            taken: 0,
            portion: None,
        }
    }
}

impl BoxState {
    /// A box as the line opens: all levers normal, all arms at danger, all places empty, no train brought, all counts
    /// 0.
    pub fn open(alloc: Global, plan: &BoxPlan, trains: usize) -> Result<BoxState, NoMemory>
        ensures { IfOk result (λ here. here ≡ opening_box trains plan.now) }
    {
        let levers = plan.frame_size() as usize;
        Ok(BoxState {
            ends: Items::from_vec(vec![in alloc; End::Normal; levers]?),
            off: Items::from_vec(vec![in alloc; false; levers]?),
            places: Items::from_vec(vec![in alloc; None; plan.places.len()]?),
            brought: Items::from_vec(vec![in alloc; false; trains]?),
            rung: ByWay { up: 0, down: 0 },
            sent: ByWay { up: 0, down: 0 },
            incoming: ByWay {
                up: Incoming::open(plan.berth_up.as_ref()),
                down: Incoming::open(plan.berth_down.as_ref()),
            },
            moment: 0,
        })
    }
}

impl PairState {
    /// A pair as the line opens: silent bells, instruments at Normal unspent, empty plain lines. It takes no memory.
    pub fn open() -> PairState
        ensures { result ≡ opening_pair }
    {
        let silent = Bell {
            count: 0,
            unheard: None,
        };
        let normal = Block {
            turns: 0,
            position: Position::Normal,
            spent: false,
        };
        PairState {
            bells: ByWay {
                up: silent,
                down: silent,
            },
            blocks: ByWay {
                up: normal,
                down: normal,
            },
            lines: ByWay {
                up: PlainLine::empty(),
                down: PlainLine::empty(),
            },
        }
    }
}
