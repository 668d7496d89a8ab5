//! Where levers stand.

ghost use Rattle.std.specs.Prelude.{◌≡◌, length};
ghost use Rattle.locking_table.specs.Places.{IsLever, end_at, other_end, stand_at, stand_of};

/// The most levers of a frame. Levers are numbered from 1.
pub const MOST_LEVERS: u32 = 120;

/// An end of a lever's stroke. Between two moves every lever stands at one.
#[derive(Clone, Copy, Debug, PartialEq, Eq, Hash)]
pub enum End {
    Normal,
    Reversed,
}

/// Where a lever stands, in its move too.
#[derive(Clone, Copy, Debug, PartialEq, Eq, Hash)]
pub enum Stand {
    AtNormal,
    AtMid,
    AtReversed,
}

impl End {
    /// The end to which a lever moves from this one.
    pub fn other(self) -> End
        ensures { result ≡ other_end self }
    {
        match self {
            End::Normal => End::Reversed,
            End::Reversed => End::Normal,
        }
    }

    /// The place of a lever that stands at this end.
    pub fn stand(self) -> Stand
        ensures { result ≡ stand_at self }
    {
        match self {
            End::Normal => Stand::AtNormal,
            End::Reversed => Stand::AtReversed,
        }
    }
}

/// The end at which a lever stands, where `ends[n - 1]` is that of lever n.
pub fn end_of(ends: &[End], lever: u32) -> End
    requires { IsLever (length ends.now) lever }
    ensures { result ≡ end_at ends.now lever }
{
    ends[lever as usize - 1]
}

/// Where a lever stands, with the lever `moved` brought to a place and all others at their ends.
pub fn stand_of(ends: &[End], moved: u32, place: Stand, lever: u32) -> Stand
    requires { IsLever (length ends.now) lever }
    ensures { result ≡ stand_of ends.now moved place lever }
{
    if lever == moved {
        place
    } else {
        end_of(ends, lever).stand()
    }
}
