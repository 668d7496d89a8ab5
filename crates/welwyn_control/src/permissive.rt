//! The permit of a permissive line: how many trains are out under it, up to its limit.
ghost use Rattle.std.specs.Prelude.{
  ◌≡◌,
  ◌+◌,
  ◌-◌,
  ◌<◌,
  ◌≤◌,
  ◌^◌,
  ◌↔◌,
  IsTrue,
  IsSome,
  IsNone,
  IfSome,
  IfNone,
};
ghost use Rattle.welwyn_control.specs.Permissive.{permission_after};
ghost use Rattle.welwyn_control.specs.Releases.{ComesAt};

use crate::releases::{ReleaseReply, Winding};
use std::marker::Model;

/// The permit of a permissive line: the trains that may be out at once, those that are, and a release that was begun.
///
/// Contracts see it as its limit, the number out and the ready moment of a winding, if there is one.
#[derive(Clone, Copy, Debug, PartialEq, Eq)]
pub struct Permit {
    limit: u8,
    out: u8,
    winding: Winding,
}

impl Model for Permit {
    ghost use Rattle.std.specs.Prelude.{◌≤◌};
    ghost use Rattle.welwyn_control.specs.Permissive.{Permission};

    ghost Value = { Permission };

    ghost view = { λ p. record { limit = p.limit; out = p.out; winding = p.winding.ready_at } };

    ghost invariant = { λ p. (1 ≤ p.limit) × (p.limit ≤ 3) × (p.out ≤ p.limit) };

    ghost inverse = { λ p. record { limit = p.limit; out = p.out; winding = record { ready_at = p.winding } } };
}

impl Permit {
    /// A permit for up to `limit` trains, 1 to 3, with none out and no release begun.
    pub fn new(limit: u8) -> Permit
        requires some { 1 ≤ limit }
        requires few { limit ≤ 3 }
        ensures { result ≡ record { limit = limit; out = 0; winding = None } }
    {
        Permit {
            limit,
            out: 0,
            winding: Winding::none(),
        }
    }

    /// How many trains are out: accepted, and neither cleared nor given back by a release.
    pub fn out(&self) -> u8
        ensures out { result ≡ self.now.out }
        ensures within { self.now.out ≤ self.now.limit }
        ensures some { 1 ≤ self.now.limit }
        ensures few { self.now.limit ≤ 3 }
    {
        self.out
    }

    /// Whether a release was begun and not completed.
    pub fn winding(&self) -> bool
        ensures { IsTrue result ↔ IsSome self.now.winding }
    {
        self.winding.is_some()
    }

    /// Whether Line Clear may be given: fewer trains than the limit are out.
    pub fn may_give(&self) -> bool
        ensures { IsTrue result ↔ (self.now.out < self.now.limit) }
    {
        self.out < self.limit
    }

    /// Records that Line Clear was given: one train more is out, and a winding ends. `may_give` tells when it may be.
    pub fn give(&mut self)
        requires { self.old.out < self.old.limit }
        ensures { self.new ≡ record self.old { out = self.old.out + 1; winding = None } }
    {
        self.out += 1;
        self.winding = Winding::none();
    }

    /// Records that a train has come to the berth, which ends a winding.
    pub fn berthed(&mut self)
        ensures { self.new ≡ record self.old { winding = None } }
    {
        self.winding = Winding::none();
    }

    /// Records that a train has left the berth: one fewer is out, where any was.
    pub fn cleared(&mut self)
        ensures { self.new ≡ record self.old { out = self.old.out - 1 } }
    {
        self.out = self.out.saturating_sub(1);
    }

    /// Begins a release and gives the moment from which it may be completed, `delay` after `moment`.
    ///
    /// `None`, unchanged, exactly where a release was begun before.
    pub fn wind(&mut self, moment: u32, delay: u32) -> Option<u32>
        requires { moment + delay < 2 ^ 32 }
        ensures winding { IsNone result ↔ IsSome self.old.winding }
        ensures kept { IfNone result (self.new ≡ self.old) }
        ensures ready { IfSome result (λ at. at ≡ moment + delay) }
        ensures begun { IfSome result (λ at. self.new ≡ record self.old { winding = Some at }) }
    {
        self.winding.begin(moment, delay)
    }

    /// Completes a release at `moment`: where its ready moment has come, one train fewer is out, where any was.
    ///
    /// `NotWinding` exactly where no release was begun, `TooSoon` exactly where `moment` is below its ready moment;
    /// both leave the permit as it was.
    pub fn release(&mut self, moment: u32) -> ReleaseReply
        ensures reply { ComesAt result self.old.winding moment }
        ensures now { self.new ≡ permission_after result self.old }
    {
        let reply = self.winding.complete(moment);
        if reply == ReleaseReply::Released {
            self.cleared();
        }
        reply
    }
}
