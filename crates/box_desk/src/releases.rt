//! The release of an incoming line: wound at one moment, completed at a later one.

ghost use Rattle.std.specs.Prelude.{◌≡◌, ◌+◌, ◌<◌, ◌^◌};
ghost use Rattle.line_plan.specs.Frames.{BoxFields};
ghost use Rattle.line_law.specs.Controls.{release, wind};
ghost use Rattle.line_law.specs.Decisions.{Here};
ghost use Rattle.box_desk.specs.Boxes.{IsFitted, here_of};

use crate::equipment::Equipment;
use block_words::{Position, Way};
use line_law::Reply;
use welwyn_control::ReleaseReply;

impl Equipment {
    /// Begins to wind, at the moment of this call.
    pub(crate) fn wind(&mut self, way: Way, delay: u32) -> Reply
        requires { self.old.moment + delay < 2 ^ 32 }
        ensures told { wind delay (here_of self.old) way ≡ Here result (here_of self.new) }
        ensures fitted { (box_plan : BoxFields) → IsFitted box_plan self.old → IsFitted box_plan self.new }
    {
        let mut line = self.lines.get(way);
        if line.control.winding() {
            return Reply::AlreadyWinding;
        }
        if line.position != Position::Normal {
            return Reply::NotAtNormal;
        }
        let ready_at = line.control.wind(self.moment, delay);
        self.lines.set(way, line);
        Reply::Winding { ready_at }
    }

    /// Releases the control of an incoming line, at the moment of this call.
    pub(crate) fn release(&mut self, way: Way) -> Reply
        ensures told { release (here_of self.old) way ≡ Here result (here_of self.new) }
        ensures fitted { (box_plan : BoxFields) → IsFitted box_plan self.old → IsFitted box_plan self.new }
    {
        let mut line = self.lines.get(way);
        match line.control.release(self.moment) {
            ReleaseReply::Released => {
                self.lines.set(way, line);
                Reply::Released
            }
            ReleaseReply::NotWinding => Reply::NotWinding,
            ReleaseReply::TooSoon { ready_at } => Reply::TooSoon { ready_at },
        }
    }
}
