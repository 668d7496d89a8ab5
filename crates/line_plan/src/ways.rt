//! The lines between the boxes of a plan.

ghost use Rattle.std.specs.Prelude.{◌≡◌};
ghost use Rattle.line_plan.specs.Ways.{comes_in, has_neighbour, leaves, way_word};

use block_words::Way;

/// Whether box `box_no` of so many has a neighbour on that side. The first box has none on its up side, the last none
/// on its down side.
pub fn has_neighbour(boxes: u32, box_no: u32, side: Way) -> bool
    ensures { result ≡ has_neighbour boxes box_no side }
{
    match side {
        Way::Up => 0 < box_no && box_no < boxes,
        Way::Down => box_no < boxes && box_no < boxes - 1,
    }
}

/// Whether the line of that way leaves a box to a neighbour: the down line leaves every box but the last, the up line
/// every box but the first.
pub fn leaves(boxes: u32, box_no: u32, way: Way) -> bool
    ensures { result ≡ leaves boxes box_no way }
{
    has_neighbour(boxes, box_no, way)
}

/// Whether the line of that way comes into a box from a neighbour: the down line into every box but the first, the up
/// line into every box but the last.
pub fn comes_in(boxes: u32, box_no: u32, way: Way) -> bool
    ensures { result ≡ comes_in boxes box_no way }
{
    has_neighbour(boxes, box_no, way.opposite())
}

/// The word of a way: `up` or `down`.
pub fn way_word(way: Way) -> &'static str
    ensures { result.now ≡ way_word way }
{
    match way {
        Way::Up => "up",
        Way::Down => "down",
    }
}
