//! Lines of a sheet on which something is still to be written.

ghost use Rattle.std.specs.Prelude.{◌≡◌};
ghost use Rattle.register_sheet.specs.Queues.{fits, joined, taken, with_train};

use bell_codes::CodeNo;

/// A line on which something is still to be written: its number in the sheet of its box, from 0; the code by which its
/// train was offered; and the train, once it has come.
#[derive(Clone, Copy, Debug)]
pub struct OpenLine {
    pub line: usize,
    pub code: CodeNo,
    pub train: Option<u32>,
}

/// Which line is looked for.
#[derive(Clone, Copy, Debug)]
pub enum Wanted {
    /// Any.
    Any,
    /// One whose train was offered by this code.
    Code(CodeNo),
    /// That of this train.
    Train(u32),
}

/// At most four open lines, the oldest first; the last stands in `fourth`.
#[derive(Clone, Copy, Debug)]
pub struct Queue {
    pub first: Option<OpenLine>,
    pub second: Option<OpenLine>,
    pub third: Option<OpenLine>,
    pub fourth: Option<OpenLine>,
}

/// What is taken from a queue, and what is left of it.
#[derive(Clone, Copy, Debug)]
pub struct Taken {
    pub line: Option<OpenLine>,
    pub rest: Queue,
}

/// A queue with no line.
pub const EMPTY_QUEUE: Queue = Queue {
    first: None,
    second: None,
    third: None,
    fourth: None,
};

// Whether a line, if there is one, is what is looked for.
fn fits(wanted: Wanted, line: Option<OpenLine>) -> bool
    ensures { result ≡ fits wanted line }
{
    let Some(line) = line else {
        return false;
    };
    match wanted {
        Wanted::Any => true,
        Wanted::Code(code) => line.code == code,
        Wanted::Train(train) => line.train == Some(train),
    }
}

// A line, if there is one, with the train that has come, if it is this line's.
fn with_train(line: Option<OpenLine>, number: usize, train: u32) -> Option<OpenLine>
    ensures { result ≡ with_train number train line }
{
    match line {
        Some(open) if open.line == number => Some(OpenLine {
            train: Some(train),
            ..open
        }),
        _ => line,
    }
}

impl Queue {
    ghost use Rattle.register_sheet.specs.Queues.{named};

    /// The queue with a line more, behind the others. Of five the oldest is forgotten.
    pub fn joined(self, line: OpenLine) -> Queue
        ensures { result ≡ joined line self }
    {
        Queue {
            first: self.second,
            second: self.third,
            third: self.fourth,
            fourth: Some(line),
        }
    }

    /// The oldest line that is looked for, if there is one, and the others.
    pub fn taken(self, wanted: Wanted) -> Taken
        ensures { result ≡ taken wanted self }
    {
        let Queue {
            first,
            second,
            third,
            fourth,
        } = self;
        let none = None;
        if fits(wanted, first) {
            let rest = Queue {
                first: none,
                ..self
            };
            Taken { line: first, rest }
        } else if fits(wanted, second) {
            let rest = Queue {
                first: none,
                second: first,
                third,
                fourth,
            };
            Taken { line: second, rest }
        } else if fits(wanted, third) {
            let rest = Queue {
                first: none,
                second: first,
                third: second,
                fourth,
            };
            Taken { line: third, rest }
        } else if fits(wanted, fourth) {
            let rest = Queue {
                first: none,
                second: first,
                third: second,
                fourth: third,
            };
            Taken { line: fourth, rest }
        } else {
            Taken {
                line: none,
                rest: self,
            }
        }
    }

    /// The queue with a train named on its line.
    pub fn named(self, number: usize, train: u32) -> Queue
        ensures { result ≡ named number train self }
    {
        Queue {
            first: with_train(self.first, number, train),
            second: with_train(self.second, number, train),
            third: with_train(self.third, number, train),
            fourth: with_train(self.fourth, number, train),
        }
    }
}
