//! How a command of `signalbox` ended.

ghost use Rattle.std.specs.Prelude.{◌≡◌, ◌≢◌};
ghost use Rattle.signalbox_top.specs.Statuses.{status_of};
ghost use Rattle.signalbox_top.specs.Top.{code_of};

/// How a command of `signalbox` ended. Its number is the exit status of the program.
#[derive(Clone, Copy, Debug, PartialEq, Eq)]
pub enum Status {
    /// It is done, and nothing was found.
    Done = 0,
    /// It is done, and something was found.
    Found = 1,
    /// It couldn't be done: for its words, a text, the output or memory. Standard error says why.
    Failed = 2,
}

impl Status {
    /// The exit status of the program, from 0 to 2 in the order above.
    pub fn code(self) -> u8
        ensures { result ≡ code_of self }
    {
        self as u8
    }
}

/// The status where something was found, or not.
pub(crate) fn status_of(has_found: bool) -> Status
    ensures is { result ≡ status_of has_found }
    ensures done { result ≢ Status.Failed }
{
    if has_found {
        Status::Found
    } else {
        Status::Done
    }
}
