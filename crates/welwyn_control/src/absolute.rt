//! Welwyn control: one Line Clear until the berth has been occupied and cleared.
ghost use Rattle.std.specs.Prelude.{
  ◌≡◌,
  ◌+◌,
  ◌<◌,
  ◌^◌,
  ◌↔◌,
  IsTrue,
  IsSome,
  IsNone,
  IfSome,
  IfNone,
  None,
};
ghost use Rattle.block_words.specs.declared.WelwynState.TheVariants.{Ready, Given, Berthed};
ghost use Rattle.welwyn_control.specs.Absolute.{cleared_state, control_after};
ghost use Rattle.welwyn_control.specs.Releases.{ComesAt};

use crate::releases::{ReleaseReply, Winding};
use block_words::WelwynState;
use std::marker::Model;

/// The Welwyn control of an absolute line: how far its last Line Clear has come, and a release that was begun.
///
/// Contracts see it as its state and the ready moment of a winding, if there is one.
#[derive(Clone, Copy, Debug, PartialEq, Eq)]
pub struct Welwyn {
    state: WelwynState,
    winding: Winding,
}

impl Model for Welwyn {
    ghost use Rattle.welwyn_control.specs.Absolute.{Control};

    ghost Value = { Control };

    ghost view = { λ w. record { state = w.state; winding = w.winding.ready_at } };

    ghost inverse = { λ c. record { state = c.state; winding = record { ready_at = c.winding } } };
}

impl Welwyn {
    /// A control that lets Line Clear be given, with no release begun.
    pub fn new() -> Welwyn
        ensures { result ≡ record { state = Ready; winding = None } }
    {
        Welwyn {
            state: WelwynState::Ready,
            winding: Winding::none(),
        }
    }

    /// How far the last Line Clear has come.
    pub fn state(&self) -> WelwynState
        ensures { result ≡ self.now.state }
    {
        self.state
    }

    /// Whether a release was begun and not completed.
    pub fn winding(&self) -> bool
        ensures { IsTrue result ↔ IsSome self.now.winding }
    {
        self.winding.is_some()
    }

    /// Whether Line Clear may be given.
    pub fn may_give(&self) -> bool
        ensures { IsTrue result ↔ (self.now.state ≡ Ready) }
    {
        self.state == WelwynState::Ready
    }

    /// Records that Line Clear was given, and ends a winding. `may_give` tells when it may be.
    pub fn give(&mut self)
        requires { self.old.state ≡ Ready }
        ensures { self.new ≡ record { state = Given; winding = None } }
    {
        self.enter(WelwynState::Given);
    }

    /// Records that a train has come to the berth, and ends a winding.
    pub fn berthed(&mut self)
        ensures { self.new ≡ record { state = Berthed; winding = None } }
    {
        self.enter(WelwynState::Berthed);
    }

    /// Records that a train has left the berth: a control that stood at Berthed is ready again.
    pub fn cleared(&mut self)
        ensures { self.new ≡ record self.old { state = cleared_state self.old.state } }
    {
        if self.state == WelwynState::Berthed {
            self.state = WelwynState::Ready;
        }
    }

    /// Begins a release and gives the moment from which it may be completed, `delay` after `moment`.
    ///
    /// `None`, unchanged, exactly where a release was begun before.
    pub fn wind(&mut self, moment: u32, delay: u32) -> Option<u32>
        requires { moment + delay < 2 ^ 32 }
        ensures winding { IsNone result ↔ IsSome self.old.winding }
        ensures kept { IfNone result (self.new ≡ self.old) }
        ensures ready { IfSome result (λ at. at ≡ moment + delay) }
        ensures begun { IfSome result (λ at. self.new ≡ record self.old { winding = Some at }) }
    {
        self.winding.begin(moment, delay)
    }

    /// Completes a release at `moment`: where its ready moment has come, Line Clear may be given again.
    ///
    /// `NotWinding` exactly where no release was begun, `TooSoon` exactly where `moment` is below its ready moment;
    /// both leave the control as it was.
    pub fn release(&mut self, moment: u32) -> ReleaseReply
        ensures reply { ComesAt result self.old.winding moment }
        ensures now { self.new ≡ control_after result self.old }
    {
        let reply = self.winding.complete(moment);
        if reply == ReleaseReply::Released {
            self.state = WelwynState::Ready;
        }
        reply
    }

    /// Enters this state, which ends a winding.
    fn enter(&mut self, state: WelwynState)
        ensures { self.new ≡ record { state = state; winding = None } }
    {
        self.state = state;
        self.winding = Winding::none();
    }
}

impl Default for Welwyn {
    ghost is_default = { λ w. w ≡ record { state = Ready; winding = None } };

    fn default() -> Welwyn {
        Welwyn::new()
    }
}
