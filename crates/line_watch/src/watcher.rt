//! The observer of a line.

ghost use Rattle.std.specs.Prelude.{◌≡◌, ◌+◌, []};
ghost use Rattle.line_plan.specs.Sections.{IsSection};
ghost use Rattle.line_watch.specs.Watching.{Looks, Watches};

use crate::sight::Sight;
use block_words::{block_position, block_spent, block_turns};
use instrument_rule::{Line, Post};
use line_plan::Section;
use std::marker::Model;

/// An observer of a line: a post that holds no box, from which he looks at the instruments.
///
/// He may go to another thread, while the men of the line work it. Contracts see him as an `Observer`.
#[derive(Drop)]
pub struct Watcher {
    post: Post,
}

impl Model for Watcher {
    ghost use Rattle.std.specs.Prelude.{◌≡◌, []};
    ghost use Rattle.line_watch.specs.Watching.{Observer};

    ghost Value = { Observer };

    ghost view = { λ watcher. record {
      table_id = watcher.post.seat.table_id;
      view = watcher.post.seat.me.0;
    } };

    ghost invariant = { λ watcher. watcher.post.seat.me.0.posts ≡ [] };
}

impl Watcher {
    /// An observer at a post that holds no box. He has seen what the post has seen.
    pub fn new(post: Post) -> Watcher
        requires free { post.seat.me.0.posts ≡ [] }
        ensures { result ≡ record { table_id = post.seat.table_id; view = post.seat.me.0 } }
    {
        Watcher { post }
    }

    /// One look at the instrument of a section. It takes no memory and waits for nobody.
    ///
    /// What he had seen is a beginning of what he has then seen, which is legal; and the sight is right after that. So
    /// he never sees an instrument as it was before what he has seen already.
    pub fn look(&mut self, line: &Line, section: Section) -> Sight
        requires line { Watches line.now.table.shared.table_id line.now.table.shared.key self.old }
        requires section { IsSection line.now.table.shared.key section }
        ensures line { Watches line.now.table.shared.table_id line.now.table.shared.key self.new }
        ensures looked { Looks line.now.table.shared.key section result self.old.view.seen self.new.view.seen }
        ensures counted { self.new.view.looks ≡ self.old.view.looks + 1 }
    {
        let word = self.post.glance(line, section);
        Sight {
            turns: block_turns(word),
            position: block_position(word),
            spent: block_spent(word),
        }
    }

    /// His post, which still holds no box and has seen what he has.
    pub fn into_post(self) -> Post
        ensures post { (result.seat.table_id ≡ self.table_id) × (result.seat.me.0 ≡ self.view) }
        ensures free { result.seat.me.0.posts ≡ [] }
    {
        self.post
    }
}
