//! How a command ended.

ghost use Rattle.std.specs.Prelude.{◌≡◌};
ghost use Rattle.box_top.specs.Statuses.{code_of};

/// How a command ended. Its number is the exit status of the program.
#[derive(Clone, Copy, Debug, PartialEq, Eq)]
pub enum Status {
    /// The command is done, and its whole output is written.
    Done = 0,
    /// The words are no command. The line `words not understood` is written.
    Words = 1,
    /// A text that the words name could not be fetched. Nothing is written.
    ShelfFault = 2,
    /// The output could not be written, or only a part of it: a front part of what would have been written.
    SinkFault = 3,
    /// A text is refused, or the number of scripts is wrong. The line `refused text T line L: CAUSE` is written.
    Refused = 4,
    /// Memory ran out. Nothing is written.
    NoMemory = 5,
}

impl Status {
    /// The exit status of the program, from 0 to 5 in the order above.
    pub fn code(self) -> u8
        ensures { result ≡ code_of self }
    {
        self as u8
    }
}
