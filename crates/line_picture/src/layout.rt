//! Where things stand in a picture of a line.

ghost use Rattle.std.specs.Prelude.{◌≡◌, ℕ, ◌*◌, ◌<◌, ◌≤◌, ◌^◌, All, IfOk, length, map, slice_index};
ghost use Rattle.line_picture.specs.Places.{arm_at, column_at, foot_at, frames_from, height, height_of, layout_of};
ghost use Rattle.line_picture.specs.Places.{lever_at, levers_height, pitch_of, row_at, rows_of, section_at, spot_at};
ghost use Rattle.line_picture.specs.Places.{top_at, tops_from, train_at};

use block_words::Way;
use line_plan::{BoxPlan, Plan};
use line_scene::{Diagram, Spot};
use picture_shapes::Point;
use rail_text::NoMemory;
use std::alloc::Global;
use std::marker::Model;

// The top of the first box.
const TOP: u64 = 80;
// The room between a box and the next, for the two sections.
const BETWEEN: u64 = 124;
// The left edge of what stands in a box or a section.
pub const LEFT: u64 = 28;
// The width of a place.
const PLACE: u64 = 210;

/// The layout of the boxes of a line: the top of each and where the next would begin, where its levers begin, and how
/// high the rows of its diagram are.
#[derive(Debug, Drop)]
pub struct Layout {
    tops: Vec<u64>,
    frames: Vec<u64>,
    pitches: Vec<u64>,
}

impl Model for Layout {
    ghost use Rattle.line_picture.specs.Places.{IsLow, LayoutFields};

    ghost Value = { LayoutFields };

    ghost view = { λ layout. record {
      tops = layout.tops.items;
      frames = layout.frames.items;
      pitches = layout.pitches.items;
    } };

    ghost invariant = { λ layout. IsLow (record {
      tops = layout.tops.items;
      frames = layout.frames.items;
      pitches = layout.pitches.items;
    }) };
}

// How high the rows of a diagram are.
fn pitch_of(diagram: &Diagram) -> u64
    ensures value { result ≡ pitch_of diagram.now }
    ensures most { result ≤ 2300 }
{
    46 + 18 * u64::from(diagram.arms.min(120))
}

// How high so many rows are.
#[tactic(auto, using(crate::proofs::Rows::rows_low))]
fn rows_high(rows: u64, pitch: u64) -> u64
    requires rows { rows ≤ 64 }
    requires pitch { pitch < 2 ^ 20 }
    ensures value { result ≡ rows * pitch }
    ensures most { result < 2 ^ 26 }
{
    rows * pitch
}

// How high all rows of a diagram are.
fn rows_of(diagram: &Diagram) -> u64
    ensures value { result ≡ rows_of diagram.now }
    ensures most { result < 2 ^ 26 }
{
    rows_high(u64::from(diagram.rows.min(64)), pitch_of(diagram))
}

// How high the levers of a frame are.
fn levers_height(box_plan: &BoxPlan) -> u64
    ensures value { result ≡ levers_height box_plan.now }
    ensures most { result ≤ 300 }
{
    (u64::from(box_plan.frame_size().min(120)) + 31) / 32 * 48
}

// How high a box is.
fn height_of(diagram: &Diagram, box_plan: &BoxPlan) -> u64
    ensures value { result ≡ height_of diagram.now box_plan.now }
    ensures most { result < 2 ^ 27 }
{
    44 + rows_of(diagram) + levers_height(box_plan)
}

// Where a column of a diagram begins.
fn column_at(spot: Spot) -> u64
    ensures value { result ≡ column_at spot }
    ensures most { result < 2 ^ 20 }
{
    LEFT + PLACE * u64::from(spot.column.min(5))
}

// The number at a place of a list, or nothing beyond it.
fn number_at(numbers: &[u64], at: usize) -> u64
    ensures value { result ≡ slice_index numbers.now at }
    ensures most { (most : ℕ) → 0 < most → All (λ number. number < most) numbers.now → result < most }
{
    match numbers.get(at) {
        Some(number) => *number,
        None => 0,
    }
}

// The tops of boxes with these diagrams, and where the next would begin.
fn tops_by(alloc: Global, diagrams: &[Diagram], boxes: &[BoxPlan]) -> Result<Vec<u64>, NoMemory>
    requires few { length boxes.now ≤ 64 }
    requires diagrams { length diagrams.now ≡ length boxes.now }
    ensures value { IfOk result (λ tops. tops.items ≡ tops_from diagrams.now 80 0 boxes.now) }
    ensures low { IfOk result (λ tops. All (λ top. top < 2 ^ 40) tops.items) }
{
    let mut tops = Vec::new(alloc);
    let mut top = TOP;
    for (at, box_plan) in boxes.iter().enumerate() {
        tops.push(top)?;
        top += height_of(&diagrams[at], box_plan) + BETWEEN;
    }
    tops.push(top)?;
    Ok(tops)
}

// Where the levers of boxes with these diagrams begin.
fn frames_by(alloc: Global, diagrams: &[Diagram], boxes: &[BoxPlan]) -> Result<Vec<u64>, NoMemory>
    requires few { length boxes.now ≤ 64 }
    requires diagrams { length diagrams.now ≡ length boxes.now }
    ensures value { IfOk result (λ frames. frames.items ≡ frames_from diagrams.now 80 0 boxes.now) }
    ensures low { IfOk result (λ frames. All (λ frame. frame < 2 ^ 40) frames.items) }
{
    let mut frames = Vec::new(alloc);
    let mut top = TOP;
    for (at, box_plan) in boxes.iter().enumerate() {
        let diagram = &diagrams[at];
        frames.push(top + 36 + rows_of(diagram))?;
        top += height_of(diagram, box_plan) + BETWEEN;
    }
    Ok(frames)
}

// How high the rows of these diagrams are.
fn pitches_by(alloc: Global, diagrams: &[Diagram]) -> Result<Vec<u64>, NoMemory>
    ensures value { IfOk result (λ pitches. pitches.items ≡ map pitch_of diagrams.now) }
    ensures low { IfOk result (λ pitches. All (λ pitch. pitch < 2 ^ 20) pitches.items) }
{
    let mut pitches = Vec::new(alloc);
    for diagram in diagrams {
        pitches.push(pitch_of(diagram))?;
    }
    Ok(pitches)
}

impl Layout {
    /// The layout of the boxes of a plan.
    #[tactic(auto, using(line_scene::proofs::Few::few_boxes))]
    pub fn new(alloc: Global, plan: &Plan, diagrams: &[Diagram]) -> Result<Layout, NoMemory>
        requires { length diagrams.now ≡ length plan.now.boxes }
        ensures { IfOk result (λ layout. layout ≡ layout_of diagrams.now plan.now.boxes) }
    {
        plan.meets_conditions();
        let boxes = plan.boxes.as_slice();
        Ok(Layout {
            tops: tops_by(alloc, diagrams, boxes)?,
            frames: frames_by(alloc, diagrams, boxes)?,
            pitches: pitches_by(alloc, diagrams)?,
        })
    }

    /// The top of a box.
    pub fn top_at(&self, box_no: u32) -> u64
        ensures value { result ≡ top_at self.now box_no }
        ensures most { result < 2 ^ 40 }
    {
        number_at(&self.tops, box_no as usize)
    }

    /// Where a box ends.
    pub fn foot_at(&self, box_no: u32) -> u64
        ensures value { result ≡ foot_at self.now box_no }
        ensures most { result < 2 ^ 40 }
    {
        number_at(&self.tops, box_no as usize + 1).saturating_sub(BETWEEN)
    }

    // How high the rows of a box are.
    fn pitch_at(&self, box_no: u32) -> u64
        ensures value { result ≡ slice_index self.now.pitches box_no }
        ensures most { result < 2 ^ 20 }
    {
        number_at(&self.pitches, box_no as usize)
    }

    // Where the levers of a box begin.
    fn frame_at(&self, box_no: u32) -> u64
        ensures value { result ≡ slice_index self.now.frames box_no }
        ensures most { result < 2 ^ 40 }
    {
        number_at(&self.frames, box_no as usize)
    }

    // The top of a row of the diagram of a box.
    fn row_at(&self, box_no: u32, spot: Spot) -> u64
        ensures value { result ≡ row_at self.now box_no spot }
        ensures most { result < 2 ^ 41 }
    {
        let down = rows_high(u64::from(spot.row.min(64)), self.pitch_at(box_no));
        self.top_at(box_no) + 36 + down
    }

    /// A spot of the diagram of a box.
    pub fn spot_at(&self, box_no: u32, spot: Spot) -> Point
        ensures value { result ≡ spot_at self.now box_no spot }
        ensures low { (result.x < 2 ^ 20) × (result.y < 2 ^ 41) }
    {
        Point::new(column_at(spot), self.row_at(box_no, spot))
    }

    /// An arm on the post at a spot, below so many others.
    pub fn arm_at(&self, box_no: u32, spot: Spot, rank: u32) -> Point
        ensures value { result ≡ arm_at self.now box_no spot rank }
        ensures low { (result.x < 2 ^ 20) × (result.y < 2 ^ 42) }
    {
        let below = 38 + 18 * u64::from(rank.min(120));
        Point::new(column_at(spot), self.row_at(box_no, spot) + below)
    }

    /// A lever of a box.
    pub fn lever_at(&self, box_no: u32, number: u32) -> Point
        ensures value { result ≡ lever_at self.now box_no number }
        ensures low { (result.x < 2 ^ 20) × (result.y < 2 ^ 41) }
    {
        let at = u64::from(number.saturating_sub(1));
        Point::new(
            LEFT + 33 * (at % 32),
            self.frame_at(box_no) + 48 * (at / 32).min(4),
        )
    }

    /// The top of a section.
    pub fn section_at(&self, rear: u32, way: Way) -> u64
        ensures value { result ≡ section_at self.now rear way }
        ensures most { result < 2 ^ 41 }
    {
        match way {
            Way::Down => self.foot_at(rear) + 8,
            Way::Up => self.foot_at(rear.saturating_sub(1)) + 64,
        }
    }

    /// The train that is so far behind the first on a plain line.
    pub fn train_at(&self, rear: u32, way: Way, behind: u32) -> Point
        ensures value { result ≡ train_at self.now rear way behind }
        ensures low { (result.x < 2 ^ 20) × (result.y < 2 ^ 42) }
    {
        let across = 166 * 3_u64.saturating_sub(u64::from(behind));
        Point::new(408 + across, self.section_at(rear, way) + 24)
    }

    /// The height of a picture of so many boxes.
    pub fn height(&self, boxes: u32) -> u64
        ensures value { result ≡ height self.now boxes }
        ensures most { result < 2 ^ 41 }
    {
        self.foot_at(boxes.saturating_sub(1)) + 80
    }
}
