//! The levers of a box.

ghost use Rattle.std.specs.Prelude.{◌≡◌};
ghost use Rattle.line_plan.specs.Frames.{kind_word};

/// What a lever works.
#[derive(Clone, Copy, Debug, PartialEq, Eq)]
pub enum Kind {
    /// A stop signal.
    Signal,
    /// Points.
    Points,
    /// A facing point lock.
    Lock,
    /// A distant signal.
    Distant,
    /// Nothing: a spare lever is never pulled.
    Spare,
}

/// A lever of a frame.
#[derive(Clone, Copy, Debug, PartialEq, Eq)]
pub struct Lever {
    /// Its number, from 1 to 120.
    pub number: u32,
    pub kind: Kind,
}

/// The word of a lever's kind, as `signal` or `points`.
pub fn kind_word(kind: Kind) -> &'static str
    ensures { result.now ≡ kind_word kind }
{
    match kind {
        Kind::Signal => "signal",
        Kind::Points => "points",
        Kind::Lock => "lock",
        Kind::Distant => "distant",
        Kind::Spare => "spare",
    }
}
