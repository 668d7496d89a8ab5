//! What the check of a plan finds.

use line_plan::Section;

/// A finding on a plan. Boxes are numbered from 0, the rows and levers of a box from 1.
#[derive(Clone, Copy, Debug, PartialEq, Eq)]
pub enum Finding {
    /// Two rows of a box, `first < second`, with the same subject: with this lever at mid, no ends of the other levers
    /// let both rows hold, so it never moves.
    RowsClash {
        box_no: u32,
        first: u32,
        second: u32,
        lever: u32,
    },
    /// A lever of a box that isn't spare and stands in no row.
    LeverWithoutRow {
        box_no: u32,
        lever: u32,
    },
    /// A section with a starter and no berth.
    NoBerth {
        section: Section,
    },
    /// A section with a berth and no starter.
    NoStarter {
        section: Section,
    },
}
