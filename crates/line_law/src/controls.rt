//! The control of an incoming line, and its release.

ghost use Rattle.std.specs.Prelude.{◌≡◌, ◌<◌, ◌^◌, ◌+◌, Some};
ghost use Rattle.line_law.specs.Controls.{berthed_control, given, left_control, release, release_refusal};
ghost use Rattle.line_law.specs.Controls.{released_control, wind, wind_refusal};
ghost use Rattle.line_law.specs.Decisions.{Here};
ghost use Rattle.line_law.specs.Lines.{HasRoomOut};
ghost use Rattle.line_law.specs.Ways.{of_way};

use crate::call::Reply;
use crate::state::{BoxState, Control, Incoming};
use block_words::{Position, Way, WelwynState};

impl Control {
    /// After Line Clear was given.
    pub fn given(self) -> Control
        requires { HasRoomOut self }
        ensures { result ≡ given self }
    {
        match self {
            Control::Absolute(_) => Control::Absolute(WelwynState::Given),
            Control::Permissive(out) => Control::Permissive(out + 1),
        }
    }

    /// After a train has come to the berth.
    pub fn berthed(self) -> Control
        ensures { result ≡ berthed_control self }
    {
        match self {
            Control::Absolute(_) => Control::Absolute(WelwynState::Berthed),
            Control::Permissive(out) => Control::Permissive(out),
        }
    }

    /// After a train has left the berth.
    pub fn left(self) -> Control
        ensures { result ≡ left_control self }
    {
        match self {
            Control::Absolute(WelwynState::Berthed) => Control::Absolute(WelwynState::Ready),
            Control::Absolute(state) => Control::Absolute(state),
            Control::Permissive(out) => Control::Permissive(out.saturating_sub(1)),
        }
    }

    /// After its release.
    pub fn released(self) -> Control
        ensures { result ≡ released_control self }
    {
        match self {
            Control::Absolute(_) => Control::Absolute(WelwynState::Ready),
            Control::Permissive(out) => Control::Permissive(out.saturating_sub(1)),
        }
    }
}

impl Incoming {
    /// What winding is refused for.
    pub fn wind_refusal(&self) -> Option<Reply>
        ensures { result ≡ wind_refusal self.now }
    {
        if self.ready_at.is_some() {
            return Some(Reply::AlreadyWinding);
        }
        if self.position != Position::Normal {
            return Some(Reply::NotAtNormal);
        }
        None
    }

    /// What a release at a moment is refused for.
    pub fn release_refusal(&self, moment: u32) -> Option<Reply>
        ensures { result ≡ release_refusal moment self.now.ready_at }
    {
        match self.ready_at {
            None => Some(Reply::NotWinding),
            Some(ready_at) => {
                if moment < ready_at {
                    Some(Reply::TooSoon { ready_at })
                } else {
                    None
                }
            }
        }
    }
}

impl BoxState {
    /// Begins to wind, at the moment of this call.
    pub fn wind(&mut self, way: Way, delay: u32) -> Reply
        requires { self.old.moment + delay < 2 ^ 32 }
        ensures { wind delay self.old way ≡ Here result self.new }
    {
        let mut line = self.incoming.get(way);
        if let Some(reply) = line.wind_refusal() {
            return reply;
        }
        let ready_at = self.moment + delay;
        line.ready_at = Some(ready_at);
        self.incoming.set(way, line);
        Reply::Winding { ready_at }
    }

    /// Releases the control of an incoming line, at the moment of this call.
    pub fn release(&mut self, way: Way) -> Reply
        ensures { release self.old way ≡ Here result self.new }
    {
        let mut line = self.incoming.get(way);
        if let Some(reply) = line.release_refusal(self.moment) {
            return reply;
        }
        line.control = line.control.released();
        line.ready_at = None;
        self.incoming.set(way, line);
        Reply::Released
    }
}
