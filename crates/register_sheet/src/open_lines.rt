//! The lines of one way at a box on which something is still to be written.

ghost use Rattle.std.specs.Prelude.{◌≡◌};
ghost use Rattle.register_sheet.specs.Trains.{accepted, arrived, came, departed, entering_received, offered, out_given};
ghost use Rattle.register_sheet.specs.Trains.{out_received, received, sent, started, without};

use crate::queue::{EMPTY_QUEUE, OpenLine, Queue, Wanted};
use bell_codes::CodeNo;

/// The lines of one way at a box on which something is still to be written.
#[derive(Clone, Copy, Debug)]
pub struct OpenLines {
    /// The train that was offered last from the rear, until it enters the section.
    pub coming: Option<OpenLine>,
    /// The trains in the section in the rear.
    pub behind: Queue,
    /// The train that came to the berth last, until Train Out of Section is given.
    pub arrived: Option<OpenLine>,
    /// The trains from the rear that weren't offered to the box in advance.
    pub waiting: Queue,
    /// The train that was offered last to the box in advance.
    pub going: Option<OpenLine>,
    /// Whether that train went into the section ahead.
    pub has_departed: bool,
    /// The trains in the section ahead.
    pub ahead: Queue,
    /// The line that was written last.
    pub last: Option<usize>,
}

/// The line on which an entry is written, if there is one, and the open lines after it.
#[derive(Clone, Copy, Debug)]
pub struct Found {
    pub line: Option<OpenLine>,
    pub lines: OpenLines,
}

/// No line is open.
pub const NO_OPEN_LINES: OpenLines = OpenLines {
    coming: None,
    behind: EMPTY_QUEUE,
    arrived: None,
    waiting: EMPTY_QUEUE,
    going: None,
    has_departed: false,
    ahead: EMPTY_QUEUE,
    last: None,
};

impl OpenLines {
    /// A train is offered from the rear, which opens a line.
    pub fn received(self, line: OpenLine) -> OpenLines
        ensures { result ≡ received line self }
    {
        OpenLines {
            coming: Some(line),
            waiting: self.waiting.joined(line),
            ..self
        }
    }

    /// The offer is repeated to the box in the rear.
    pub fn accepted(self) -> Found
        ensures { result ≡ accepted self }
    {
        Found {
            line: self.coming,
            lines: self,
        }
    }

    /// Train Entering Section is received.
    pub fn entering_received(self) -> Found
        ensures { result ≡ entering_received self }
    {
        let Some(line) = self.coming else {
            return Found {
                line: None,
                lines: self,
            };
        };
        let lines = OpenLines {
            coming: None,
            behind: self.behind.joined(line),
            ..self
        };
        Found {
            line: Some(line),
            lines,
        }
    }

    // This train has come to the berth.
    fn came(self, line: OpenLine, train: u32) -> OpenLines
        ensures { result ≡ came line train self }
    {
        OpenLines {
            arrived: Some(line),
            waiting: self.waiting.named(line.line, train),
            ..self
        }
    }

    /// A train comes to the berth: the oldest of those in the section, or else the one that was offered last.
    pub fn arrived(self, train: u32) -> Found
        ensures { result ≡ arrived train self }
    {
        let taken = self.behind.taken(Wanted::Any);
        if let Some(line) = taken.line {
            let behind = taken.rest;
            let lines = OpenLines { behind, ..self };
            return Found {
                line: Some(line),
                lines: lines.came(line, train),
            };
        }
        if let Some(line) = self.coming {
            let coming = None;
            let lines = OpenLines { coming, ..self };
            return Found {
                line: Some(line),
                lines: lines.came(line, train),
            };
        }
        Found {
            line: None,
            lines: self,
        }
    }

    /// Train Out of Section is given.
    pub fn out_given(self) -> Found
        ensures { result ≡ out_given self }
    {
        let arrived = None;
        Found {
            line: self.arrived,
            lines: OpenLines { arrived, ..self },
        }
    }

    /// This line's train is offered to the box in advance.
    pub fn started(self, line: OpenLine) -> OpenLines
        ensures { result ≡ started line self }
    {
        OpenLines {
            going: Some(line),
            has_departed: false,
            ..self
        }
    }

    /// A train is offered to the box in advance: the oldest from the rear with this code that waits for it.
    pub fn offered(self, code: CodeNo) -> Found
        ensures { result ≡ offered code self }
    {
        let taken = self.waiting.taken(Wanted::Code(code));
        let Some(line) = taken.line else {
            return Found {
                line: None,
                lines: self,
            };
        };
        let waiting = taken.rest;
        let lines = OpenLines { waiting, ..self };
        Found {
            line: Some(line),
            lines: lines.started(line),
        }
    }

    /// Something of the train that was offered last to the box in advance: its offer is repeated, or Train Entering
    /// Section is given.
    pub fn sent(self) -> Found
        ensures { result ≡ sent self }
    {
        Found {
            line: self.going,
            lines: self,
        }
    }

    /// A train goes into the section ahead: the one that was offered last.
    pub fn departed(self) -> Found
        ensures { result ≡ departed self }
    {
        match self.going {
            Some(line) if !self.has_departed => {
                let lines = OpenLines {
                    has_departed: true,
                    ahead: self.ahead.joined(line),
                    ..self
                };
                Found {
                    line: Some(line),
                    lines,
                }
            }
            _ => Found {
                line: None,
                lines: self,
            },
        }
    }

    /// Train Out of Section is received, of the oldest train ahead.
    pub fn out_received(self) -> Found
        ensures { result ≡ out_received self }
    {
        let taken = self.ahead.taken(Wanted::Any);
        let ahead = taken.rest;
        Found {
            line: taken.line,
            lines: OpenLines { ahead, ..self },
        }
    }

    /// A train has left the box: it waits no longer.
    pub fn without(self, train: u32) -> OpenLines
        ensures { result ≡ without train self }
    {
        let waiting = self.waiting.taken(Wanted::Train(train)).rest;
        OpenLines { waiting, ..self }
    }
}
