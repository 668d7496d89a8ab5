//! Where things stand in a picture of a train graph.

ghost use Rattle.std.specs.Prelude.{◌≡◌, ℕ, ◌<◌, ◌≤◌, ◌^◌, All, IfOk, length, slice_index};
ghost use Rattle.block_words.specs.declared.Way.{Way};
ghost use Rattle.graph_picture.specs.Places.{AreFew, AreLow, bars_at, bottom_of, coming_edge, end_at, entry_at};
ghost use Rattle.graph_picture.specs.Places.{foot_at, height, height_of, leaving_edge, level_at, moment_at, portion_at};
ghost use Rattle.graph_picture.specs.Places.{right_end, top_at, tops_by, tops_of, width};

use block_words::Way;
use graph_scene::Axis;
use line_plan::{BoxPlan, Plan};
use rail_text::NoMemory;
use std::alloc::Global;
use std::marker::Model;

// Where the graph begins on the left.
pub const LEFT: u64 = 200;
// The room between a place and the next.
pub const LEVEL: u64 = 14;
// The room between a box and the next, for the plain line.
pub const PLAIN_LINE: u64 = 100;
// The top of the first box.
pub const TOP: u64 = 130;

/// The tops of the boxes of a line, each below the one before it, and where the next would begin.
#[derive(Debug, Drop)]
pub struct Layout {
    tops: Vec<u64>,
}

impl Model for Layout {
    ghost use Rattle.std.specs.Prelude.{ℕ, List};
    ghost use Rattle.graph_picture.specs.Places.{AreLow};

    ghost Value = { List ℕ };

    ghost view = { λ layout. layout.tops.items };

    ghost invariant = { λ layout. AreLow layout.tops.items };
}

/// How far from the left an entry stands.
pub fn entry_at(axis: &Axis, entry: usize) -> u64
    ensures value { result ≡ entry_at axis.now entry }
    ensures most { result < 2 ^ 62 }
{
    LEFT + axis.place_of(entry)
}

/// How far from the left a moment begins.
pub fn moment_at(axis: &Axis, moment: u32) -> u64
    ensures value { result ≡ moment_at axis.now moment }
    ensures most { result < 2 ^ 61 }
{
    LEFT + axis.start_at(moment)
}

/// Where the graph ends on the right.
pub fn right_end(axis: &Axis) -> u64
    ensures value { result ≡ right_end axis.now }
    ensures most { result < 2 ^ 61 }
{
    moment_at(axis, axis.ending())
}

/// Where something ends that lasts up to an entry, or to the end of the graph.
pub fn end_at(axis: &Axis, entry: Option<usize>) -> u64
    ensures value { result ≡ end_at axis.now entry }
    ensures most { result < 2 ^ 62 }
{
    match entry {
        Some(entry) => entry_at(axis, entry),
        None => right_end(axis),
    }
}

/// The width of a picture.
pub fn width(axis: &Axis) -> u64
    ensures value { result ≡ width axis.now }
    ensures most { result < 2 ^ 62 }
{
    (right_end(axis) + 100).max(900)
}

/// The height of a box, with a level for each of its places.
pub fn height_of(box_plan: &BoxPlan) -> u64
    requires { length box_plan.now.places ≤ 64 }
    ensures value { result ≡ height_of box_plan.now }
    ensures most { result < 1000 }
{
    LEVEL * box_plan.places.len() as u64 + 8
}

// The number at a place of a list, or nothing beyond it.
fn number_at(numbers: &[u64], at: usize) -> u64
    ensures value { result ≡ slice_index numbers.now at }
    ensures most { (most : ℕ) → 0 < most → All (λ number. number < most) numbers.now → result < most }
{
    match numbers.get(at) {
        Some(number) => *number,
        None => 0,
    }
}

// The tops of boxes, and where the next would begin.
fn tops_by(alloc: Global, boxes: &[BoxPlan]) -> Result<Vec<u64>, NoMemory>
    requires { AreFew boxes.now }
    ensures value { IfOk result (λ tops. tops.items ≡ tops_by boxes.now) }
    ensures low { IfOk result (λ tops. AreLow tops.items) }
{
    let mut tops = Vec::new(alloc);
    let mut top = TOP;
    for box_plan in boxes {
        tops.push(top)?;
        top += height_of(box_plan) + PLAIN_LINE;
    }
    tops.push(top)?;
    Ok(tops)
}

impl Layout {
    /// The layout of the boxes of a plan.
    #[tactic(auto, using(crate::proofs::Few::few_boxes))]
    pub fn new(alloc: Global, plan: &Plan) -> Result<Layout, NoMemory>
        ensures { IfOk result (λ layout. layout ≡ tops_of plan.now) }
    {
        plan.meets_conditions();
        Ok(Layout {
            tops: tops_by(alloc, plan.boxes.as_slice())?,
        })
    }

    /// The top of a box, numbered from 0.
    pub fn top_at(&self, box_no: u32) -> u64
        ensures value { result ≡ top_at self.now box_no }
        ensures most { result < 2 ^ 40 }
    {
        number_at(&self.tops, box_no as usize)
    }

    /// The level of a place of a box.
    pub fn level_at(&self, box_no: u32, place: u32) -> u64
        ensures value { result ≡ level_at self.now box_no place }
        ensures most { result < 2 ^ 41 }
    {
        self.top_at(box_no) + LEVEL * u64::from(place) + 11
    }

    // Where a box ends.
    fn foot_at(&self, box_no: u32) -> u64
        ensures value { result ≡ foot_at self.now box_no }
        ensures most { result < 2 ^ 40 }
    {
        number_at(&self.tops, box_no as usize + 1).saturating_sub(PLAIN_LINE)
    }

    /// The edge of a box at which a train leaves it on an outgoing line.
    pub fn leaving_edge(&self, box_no: u32, way: Way) -> u64
        ensures value { result ≡ leaving_edge self.now box_no way }
        ensures most { result < 2 ^ 40 }
    {
        match way {
            Way::Up => self.top_at(box_no),
            Way::Down => self.foot_at(box_no),
        }
    }

    /// The edge at which one comes on an incoming line.
    pub fn coming_edge(&self, box_no: u32, way: Way) -> u64
        ensures value { result ≡ coming_edge self.now box_no way }
        ensures most { result < 2 ^ 40 }
    {
        match way {
            Way::Up => self.foot_at(box_no),
            Way::Down => self.top_at(box_no),
        }
    }

    /// The top of the bars of the instrument that a box works for an incoming line: on the side from which that comes.
    pub fn bars_at(&self, box_no: u32, way: Way) -> u64
        ensures value { result ≡ bars_at self.now box_no way }
        ensures most { result < 2 ^ 41 }
    {
        match way {
            Way::Up => self.foot_at(box_no) + 6,
            Way::Down => self.top_at(box_no).saturating_sub(16),
        }
    }

    /// The level of a portion that is left on an incoming line of a box.
    pub fn portion_at(&self, box_no: u32, way: Way) -> u64
        ensures value { result ≡ portion_at self.now box_no way }
        ensures most { result < 2 ^ 41 }
    {
        match way {
            Way::Up => self.foot_at(box_no) + 28,
            Way::Down => self.top_at(box_no).saturating_sub(28),
        }
    }

    /// Where the graph ends below.
    pub fn bottom(&self, plan: &Plan) -> u64
        ensures value { result ≡ bottom_of plan.now self.now }
        ensures most { result < 2 ^ 40 }
    {
        number_at(&self.tops, plan.boxes.len()).saturating_sub(PLAIN_LINE)
    }

    /// The height of a picture.
    pub fn height(&self, plan: &Plan) -> u64
        ensures value { result ≡ height plan.now self.now }
        ensures most { result < 2 ^ 41 }
    {
        self.bottom(plan) + 140
    }
}
