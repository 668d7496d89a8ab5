//! Splits and joins of posts.
ghost use Rattle.std.specs.Prelude.{◌≡◌};
ghost use Rattle.instrument_rule.specs.Calls.{Sits};
ghost use Rattle.instrument_rule.specs.Posts.{plan_of, view_of};
ghost use Rattle.instrument_rule.specs.Rule.{Seen};
ghost use Rattle.instrument_rule.specs.Told.{LegalFor};
ghost use Rattle.instrument_rule.specs.Views.{both_views, settled, twin_view};

use crate::line::Line;
use crate::plays::{Merge, Settle, Twin};
use crate::post::Post;

impl Post {
    /// A post that has seen as much as this one, and holds no box. It is made at one step on word 0, takes no memory
    /// and waits for nobody.
    pub fn split(&mut self, line: &Line) -> Post
        requires line { self.old.seat.table_id ≡ line.now.table.shared.table_id }
        requires sits { Sits (plan_of line.now) (view_of self.old) }
        ensures same { (self.new.seat.table_id ≡ self.old.seat.table_id)
            × (result.seat.table_id ≡ self.old.seat.table_id) }
        ensures kept { view_of self.new ≡ view_of self.old }
        ensures twin { view_of result ≡ twin_view (view_of self.old) }
    {
        Post {
            seat: line.table.shared.split_seat::<Twin>(&mut self.seat),
            first: None,
        }
    }

    /// Takes in another post. This one then holds its own boxes first and then those of the other. What each of the two
    /// had seen is a beginning of what this one has then seen, in which each box that it held has the same entries.
    pub fn join(&mut self, line: &Line, other: Post)
        requires line { (self.old.seat.table_id ≡ line.now.table.shared.table_id)
            × (other.seat.table_id ≡ line.now.table.shared.table_id) }
        requires sits { Sits (plan_of line.now) (view_of self.old) }
        requires theirs { Sits (plan_of line.now) (view_of other) }
        ensures same { self.new.seat.table_id ≡ self.old.seat.table_id }
        ensures view { view_of self.new ≡ settled (both_views (view_of self.old) (view_of other)) }
        ensures mine { Seen (view_of self.new).seen (view_of self.old).posts (view_of self.old).seen }
        ensures others { Seen (view_of self.new).seen (view_of other).posts (view_of other).seen }
        ensures legal { LegalFor (view_of self.new).plan (view_of self.new).seen }
    {
        let Post { seat, first } = other;
        if self.first.is_none() {
            self.first = first;
        }
        line.table.shared.join_seat::<Merge>(&mut self.seat, seat);
        line.table.shared.load::<Settle>(&mut self.seat, 0);
    }
}
