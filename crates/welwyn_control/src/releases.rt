//! A release that is wound: begun at one moment, completed at or after its ready moment.
ghost use Rattle.std.specs.Prelude.{
  ◌≡◌,
  ◌+◌,
  ◌<◌,
  ◌^◌,
  ◌↔◌,
  ℕ,
  Option,
  IsTrue,
  IsSome,
  IsNone,
  IfSome,
  IfNone,
};
ghost use Rattle.welwyn_control.specs.declared.releases.ReleaseReply.{ReleaseReply};
ghost use Rattle.welwyn_control.specs.Releases.{ComesAt, winding_after};

/// The answer to a release.
#[derive(Clone, Copy, Debug, PartialEq, Eq)]
pub enum ReleaseReply {
    /// The release is complete.
    Released,
    /// No release was begun.
    NotWinding,
    /// The release may be completed from `ready_at` on, in the unit of the calls' moments.
    TooSoon { ready_at: u32 },
}

/// The ready moment of a release that was begun, if there is one.
#[derive(Clone, Copy, Debug, PartialEq, Eq)]
pub(crate) struct Winding {
    ready_at: Option<u32>,
}

impl Winding {
    /// No release begun.
    pub(crate) fn none() -> Winding
        ensures { result.ready_at ≡ None }
    {
        Winding { ready_at: None }
    }

    pub(crate) fn is_some(self) -> bool
        ensures { IsTrue result ↔ IsSome self.ready_at }
    {
        self.ready_at.is_some()
    }

    /// Begins a release and gives its ready moment; `None`, unchanged, where one was begun.
    pub(crate) fn begin(&mut self, moment: u32, delay: u32) -> Option<u32>
        requires { moment + delay < 2 ^ 32 }
        ensures winding { IsNone result ↔ IsSome self.old.ready_at }
        ensures kept { IfNone result (self.new ≡ self.old) }
        ensures ready { IfSome result (λ at. at ≡ moment + delay) }
        ensures begun { IfSome result (λ at. self.new.ready_at ≡ Some at) }
    {
        if self.ready_at.is_some() {
            return None;
        }
        let ready_at = moment + delay;
        self.ready_at = Some(ready_at);
        Some(ready_at)
    }

    /// Completes a release whose ready moment has come, and ends the winding then alone.
    pub(crate) fn complete(&mut self, moment: u32) -> ReleaseReply
        ensures reply { ComesAt result self.old.ready_at moment }
        ensures now { self.new.ready_at ≡ winding_after result self.old.ready_at }
    {
        match self.ready_at {
            None => ReleaseReply::NotWinding,
            Some(ready_at) if moment < ready_at => ReleaseReply::TooSoon { ready_at },
            Some(_) => {
                self.ready_at = None;
                ReleaseReply::Released
            }
        }
    }
}

/// The replies to a release exclude one another, and one of them always comes.
pub fn releases_law()
    ensures only { (reply other : ReleaseReply) (winding : Option ℕ) (moment : ℕ) →
        ComesAt reply winding moment → ComesAt other winding moment → reply ≡ other }
    ensures some { (winding : Option ℕ) (moment : ℕ) → (reply : ReleaseReply) × ComesAt reply winding moment }
{}
