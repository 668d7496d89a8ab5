//! The sections of a line by their numbers, in the order in which they are printed.

ghost use Rattle.std.specs.Prelude.{◌≡◌, ◌-◌, ◌≤◌, ◌<◌, IsTrue, slice_index_or};
ghost use Rattle.line_plan.specs.Sections.{sections_from};
ghost use Rattle.line_plan.specs.Ways.{leaves};
ghost use Rattle.line_plan.specs.declared.section.Section.{Section};
ghost use Rattle.line_watch.specs.Boards.{section_count, section_number};

use block_words::Way;
use line_plan::Section;

/// How many sections a line of so many boxes has.
pub fn section_count(boxes: u32) -> usize
    requires { 1 ≤ boxes }
    ensures { result ≡ section_count boxes }
{
    2 * (boxes as usize - 1)
}

/// The section with this number.
pub fn section_numbered(boxes: u32, number: usize) -> Section
    requires { number < section_count boxes }
    ensures listed { (d : Section) → slice_index_or (sections_from 0 (boxes - 1)) number d ≡ result }
    ensures section { IsTrue (leaves boxes result.rear result.way) }
{
    let _boxes = boxes;
    let pair = (number / 2) as u32;
    if number % 2 == 0 {
        Section {
            rear: pair,
            way: Way::Down,
        }
    } else {
        Section {
            rear: pair + 1,
            way: Way::Up,
        }
    }
}

/// The number of a section.
pub fn section_number(boxes: u32, section: Section) -> usize
    requires { IsTrue (leaves boxes section.rear section.way) }
    ensures number { result ≡ section_number section }
    ensures within { result < section_count boxes }
    ensures listed { (d : Section) → slice_index_or (sections_from 0 (boxes - 1)) result d ≡ section }
{
    let _boxes = boxes;
    let rear = section.rear as usize;
    match section.way {
        Way::Up => 2 * rear - 1,
        Way::Down => 2 * rear,
    }
}
