//! Why a request isn't done.

ghost use Rattle.std.specs.Prelude.{◌≡◌};
ghost use Rattle.line_requests.specs.Faults.{fault_bytes, fault_line};

use rail_text::{Cause, cause_text};

/// Why a request isn't done. It changes nothing.
#[derive(Clone, Copy, Debug, PartialEq, Eq)]
pub enum Fault {
    /// The line is no text of JSON.
    NotJson,
    /// The value is no object with exactly the keys of a request.
    NotRequest,
    /// The line has no box of that name.
    UnknownBox,
    /// These two boxes aren't neighbours.
    NotNeighbours,
    /// There aren't so many entries.
    UnknownEntry,
    /// There are as many entries as may be, those counted that are still to come.
    Full,
    /// The box is worked by its script, which has calls left.
    HasScript,
    /// A script can't be read, for what is wrong with this line of it; line 0 stands for the text as a whole.
    Script { line: u32, cause: Cause },
    /// The cause for which a script with this call would be refused; `TooLong` of a line that is too long.
    Cause(Cause),
}

/// The fault as it is told.
pub fn fault_word(fault: Fault) -> &'static str
    ensures { result.now ≡ fault_bytes fault }
{
    match fault {
        Fault::NotJson => "not JSON",
        Fault::NotRequest => "not a request",
        Fault::UnknownBox => "unknown box",
        Fault::NotNeighbours => "not neighbours",
        Fault::UnknownEntry => "unknown entry",
        Fault::Full => "full",
        Fault::HasScript => "has a script",
        Fault::Script { line: _, cause } => cause_text(cause),
        Fault::Cause(cause) => cause_text(cause),
    }
}

// What is wrong with a call, in words.
fn cause_sentence(cause: Cause) -> &'static str {
    match cause {
        Cause::TooLong => "the line is longer than 65,536 bytes",
        Cause::WordCount => "the call has too many words, or too few",
        Cause::UnknownWord => "a word of the call is none of those that may stand there",
        Cause::BadNumber => "a number is wanted there",
        Cause::OutOfRange => "levers are numbered from 1 to 120",
        Cause::BadMoment => "that is no moment of the day, in the form of the plan's version",
        Cause::MomentFalls => "the moment is before that of the box's last call",
        Cause::NoLine => "there is no line on that side, or it doesn't run that way",
        Cause::NoBerth => "that line has no berth at this box",
        Cause::UnknownLever => "the frame has no lever of that number",
        Cause::NoArm => "that lever works no signal",
        Cause::UnknownCode => "the code table has no such code",
        Cause::BadCode => "that is no bell code, as 3-1 is one",
        Cause::UnknownName => "no train has that name",
        Cause::OtherBox => "that train comes from another box",
        other => cause_text(other),
    }
}

// What is wrong with a script, in words.
fn script_sentence(cause: Cause) -> &'static str {
    match cause {
        Cause::WrongKeyword =>
            "a script begins with a line `script NAME`, and NAME is the name of a box",
        Cause::WrongBox => "the line has no box of that name",
        Cause::MomentFalls => "the moment is before that of the call above",
        Cause::TooMany => "a script has at most 10,000 calls",
        Cause::NoEnd => "a script ends with a line `end`",
        Cause::AfterEnd => "behind `end` nothing more may stand",
        Cause::Cut => "the last line has no end",
        Cause::Spacing =>
            "words stand one space apart, with none before the first and none behind the last",
        other => cause_sentence(other),
    }
}

/// The line of a text that is at fault, where the fault names one.
pub fn fault_line(fault: Fault) -> Option<u64>
    ensures { result ≡ fault_line fault }
{
    match fault {
        Fault::Script { line, cause: _ } => Some(u64::from(line)),
        _ => None,
    }
}

/// What is wrong, in words.
pub fn fault_sentence(fault: Fault) -> &'static str {
    match fault {
        Fault::NotJson => "the line is no JSON",
        Fault::NotRequest =>
            "a request is an object with exactly the keys of one: box, at and call; may and at; look; look and to; \
            changes; journal; script; back; or end",
        Fault::UnknownBox => "the line has no box of that name",
        Fault::NotNeighbours => "these two boxes aren't neighbours",
        Fault::UnknownEntry => "there aren't so many entries",
        Fault::Full => "there are as many entries as may be",
        Fault::HasScript => "the box is worked by its script, which has calls left",
        Fault::Script { line: _, cause } => script_sentence(cause),
        Fault::Cause(cause) => cause_sentence(cause),
    }
}
