//! The posts of a line.
ghost use Rattle.std.specs.Prelude.{◌≡◌, ◌≢◌, ◌<◌, ◌≤◌, ℕ, [], length, Some};
ghost use Rattle.instrument_rule.specs.Calls.{Sits};
ghost use Rattle.instrument_rule.specs.Views.{first_of, missed, or_zero, with_post};

use crate::line::Line;
use crate::plays::Take;
use crate::view::View;
use atomic_table::Seat;

/// A seat at the shared words of a line: the boxes that it holds, and what it has seen of the line's history.
#[derive(Drop)]
pub struct Post {
    pub(crate) seat: Seat<(), View>,
    pub(crate) first: Option<u32>,
    pub ghost bare: { seat.me.1 ≡ [] },
    pub ghost caller: { first ≡ first_of seat.me.0.posts },
}

// The number of a box, or 0.
pub(crate) fn or_zero(box_no: Option<u32>) -> u32
    ensures { result ≡ or_zero box_no }
{
    match box_no {
        Some(box_no) => box_no,
        None => 0,
    }
}

impl Post {
    ghost use Rattle.instrument_rule.specs.Posts.{plan_of, view_of};

    /// Draws the post of a box, by one compare and exchange of the count of posts drawn. It gives the count that it
    /// found, which is at most the number of boxes and which the post then knows. Exactly where that is the number of
    /// the box, this post then holds the box; else it is as it was but for that.
    pub fn take(&mut self, line: &Line, box_no: u32) -> u64
        requires line { self.old.seat.table_id ≡ line.now.table.shared.table_id }
        requires free { Sits (plan_of line.now) (view_of self.old) × ((view_of self.old).posts ≡ []) }
        requires known { box_no < length (plan_of line.now).boxes }
        ensures same { self.new.seat.table_id ≡ self.old.seat.table_id }
        ensures drew { result ≡ box_no → view_of self.new ≡ with_post (view_of self.old) box_no }
        ensures lost { result ≢ box_no → view_of self.new ≡ missed (view_of self.old) result }
        ensures found { (view_of self.new).drawn ≡ Some result }
        ensures counted { result ≤ length (plan_of line.now).boxes }
    {
        let old = box_no as u64;
        let found = line
            .table
            .shared
            .compare_exchange::<Take>(&mut self.seat, 0, old, old + 1);
        if found == old {
            self.first = Some(box_no);
        }
        found
    }
}
