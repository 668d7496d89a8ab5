//! The lines between a box and its neighbours.

ghost use Rattle.std.specs.Prelude.{◌≡◌};
ghost use Rattle.line_law.specs.Links.{pair_no, way_of};

use block_words::Way;

/// A line that leaves a box, or one that comes in. What passes on it goes that way: a code that is rung, a train, the
/// sight of an instrument.
#[derive(Clone, Copy, Debug, PartialEq, Eq)]
pub enum Link {
    Out(Way),
    In(Way),
}

impl Link {
    /// The way of the line.
    pub fn way(self) -> Way
        ensures { result ≡ way_of self }
    {
        match self {
            Link::Out(way) | Link::In(way) => way,
        }
    }

    /// The pair of neighbours that the line joins: pair `p` is of the boxes `p` and `p + 1`.
    pub fn pair_no(self, box_no: usize) -> usize
        ensures { result ≡ pair_no box_no self }
    {
        match self {
            Link::Out(Way::Down) | Link::In(Way::Up) => box_no,
            Link::Out(Way::Up) | Link::In(Way::Down) => box_no.saturating_sub(1),
        }
    }
}
