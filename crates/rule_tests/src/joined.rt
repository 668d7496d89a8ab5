//! Posts that take in others, worked by hand.
ghost use Rattle.std.specs.Prelude.{◌≡◌, []};
ghost use Rattle.instrument_rule.specs.Calls.{Sits};
ghost use Rattle.instrument_rule.specs.Views.{caller_of};
ghost use Rattle.rule_tests.specs.Instruments.{Fresh};

use instrument_rule::{Line, Post};

/// Takes in the post of a box that has done nothing, by a post that holds no box. It then calls for that box.
pub fn take_over(post: &mut Post, line: &Line, other: Post)
    requires line { (post.old.seat.table_id ≡ line.now.table.shared.table_id)
        × (other.seat.table_id ≡ line.now.table.shared.table_id) }
    requires idle { Sits line.now.table.shared.key post.old.seat.me.0 × (post.old.seat.me.0.posts ≡ []) }
    requires fresh { Fresh line.now.table.shared.key other.seat.me.0 }
    ensures same { post.new.seat.table_id ≡ line.now.table.shared.table_id }
    ensures fresh { Fresh line.now.table.shared.key post.new.seat.me.0
        × (caller_of post.new.seat.me.0.posts ≡ caller_of other.seat.me.0.posts) }
{
    post.join(line, other);
}

/// Takes in another post, by the post of a box that has done nothing. It still calls for that box.
pub fn take_beside(post: &mut Post, line: &Line, other: Post)
    requires line { (post.old.seat.table_id ≡ line.now.table.shared.table_id)
        × (other.seat.table_id ≡ line.now.table.shared.table_id) }
    requires fresh { Fresh line.now.table.shared.key post.old.seat.me.0 }
    requires theirs { Sits line.now.table.shared.key other.seat.me.0 }
    ensures same { post.new.seat.table_id ≡ line.now.table.shared.table_id }
    ensures fresh { Fresh line.now.table.shared.key post.new.seat.me.0
        × (caller_of post.new.seat.me.0.posts ≡ caller_of post.old.seat.me.0.posts) }
{
    post.join(line, other);
}
