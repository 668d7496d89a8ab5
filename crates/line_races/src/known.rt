//! What each man knows of his neighbours.

ghost use Rattle.std.specs.Prelude.{◌≡◌, ◌<◌, IfOk, None, length, replicate};
ghost use Rattle.line_races.specs.Nearest.{later_of};
ghost use Rattle.line_races.specs.Scans.{IsLearned, known_of};

use rail_text::NoMemory;
use std::alloc::Global;

/// The later of two positions, where there are any.
pub fn later_of(first: Option<usize>, second: Option<usize>) -> Option<usize>
    ensures { result ≡ later_of first second }
{
    match (first, second) {
        (None, _) => second,
        (Some(_), None) => first,
        (Some(i), Some(k)) => Some(i.max(k)),
    }
}

/// For each box the last entries of its neighbours, above and below, of which its man surely knows.
#[derive(Drop)]
pub struct Known {
    pub above: Vec<Option<usize>>,
    pub below: Vec<Option<usize>>,
}

// Nothing, for so many boxes.
fn nothing_known(alloc: Global, boxes: usize) -> Result<Vec<Option<usize>>, NoMemory>
    ensures { IfOk result (λ known. known.items ≡ replicate boxes None) }
{
    let mut known = Vec::with_capacity(alloc, boxes)?;
    for _ in 0..boxes {
        known.push(None)?;
    }
    Ok(known)
}

impl Known {
    /// Nobody knows of any.
    pub fn new(alloc: Global, boxes: usize) -> Result<Known, NoMemory>
        ensures above { IfOk result (λ known. known.above.items ≡ replicate boxes None) }
        ensures below { IfOk result (λ known. known.below.items ≡ replicate boxes None) }
    {
        Ok(Known {
            above: nothing_known(alloc, boxes)?,
            below: nothing_known(alloc, boxes)?,
        })
    }

    /// The last entry of his neighbour, above or below, of which the man of a box surely knows.
    pub fn of(&self, box_no: usize, above: bool) -> Option<usize>
        requires above { box_no < length self.now.above.items }
        requires below { box_no < length self.now.below.items }
        ensures { result ≡ known_of self.now box_no above }
    {
        if above {
            self.above[box_no]
        } else {
            self.below[box_no]
        }
    }

    /// The man of a box learns of an entry of his neighbour, above or below, if there is one.
    pub fn learn(&mut self, box_no: usize, above: bool, found: Option<usize>)
        requires above { box_no < length self.old.above.items }
        requires below { box_no < length self.old.below.items }
        ensures above { length self.new.above.items ≡ length self.old.above.items }
        ensures below { length self.new.below.items ≡ length self.old.below.items }
        ensures learned { IsLearned box_no above found self.old self.new }
    {
        if above {
            self.above[box_no] = later_of(self.above[box_no], found);
        } else {
            self.below[box_no] = later_of(self.below[box_no], found);
        }
    }
}
