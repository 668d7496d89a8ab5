//! Why a text is refused.

ghost use Rattle.std.specs.Prelude.{◌≡◌};
ghost use Rattle.rail_text.specs.CauseText.{cause_bytes};
ghost use Rattle.rail_text.specs.declared.cause.ReadError.TheVariants as errors;

use crate::NoMemory;
use std::alloc::{AllocError, AllocFailed};

/// What is wrong with a text, or with the first of its lines that has a fault.
#[derive(Clone, Copy, Debug, PartialEq, Eq)]
pub enum Cause {
    /// The text is longer than its limit.
    TooLong,
    /// There isn't one script for each box.
    ScriptCount,
    /// The line has no end.
    Cut,
    /// A byte of the line is off 32 to 126.
    BadByte,
    /// The line has more than 200 bytes.
    LongLine,
    /// A word of the line is empty.
    Spacing,
    /// The line stands after `end`.
    AfterEnd,
    /// The text has no line `end`; the line is one past the last.
    NoEnd,
    /// A line with this first word may not stand here.
    WrongKeyword,
    /// The line has too few or too many words.
    WordCount,
    /// The word is no number.
    BadNumber,
    /// The number is out of its range.
    OutOfRange,
    /// The word is no name.
    BadName,
    /// The name stands already.
    NameTwice,
    /// Nothing has the name.
    UnknownName,
    /// The word is no bell code.
    BadCode,
    /// The code table has the code already.
    CodeTwice,
    /// The word is none of those that may stand here.
    UnknownWord,
    /// The lever's number isn't above that of the lever before it.
    LeverOrder,
    /// The frame has no lever of that number.
    UnknownLever,
    /// The lever isn't of a kind that may stand here.
    WrongKind,
    /// A line of this kind was given before.
    Taken,
    /// There is no line on that side, or it doesn't run that way.
    NoLine,
    /// A signal or starter leads into the berth, or a train stands in it.
    BerthEntered,
    /// No signal or starter begins at the berth.
    NoHome,
    /// The line has no berth at this box.
    NoBerth,
    /// The line names a place twice.
    SamePlace,
    /// The row is off the grammar of locking tables.
    BadRow,
    /// The row names a lever twice.
    SameLever,
    /// There are as many of these as may be.
    TooMany,
    /// Not all boxes are given yet.
    TooFewBoxes,
    /// The script is that of another box.
    WrongBox,
    /// The word is no moment of the day.
    BadMoment,
    /// The moment is below that of the line before.
    MomentFalls,
    /// The code table has no such code.
    UnknownCode,
    /// The lever works no signal or starter.
    NoArm,
    /// The train is that of another box.
    OtherBox,
    /// The reply is none that the call can have.
    BadReply,
    /// The number isn't the next one.
    WrongCount,
}

/// Why a value was not read: what is wrong with the text's first line that has a fault, or that
/// memory ran out. Lines are numbered from 1; line 0 stands for the text as a whole.
#[derive(Clone, Copy, Debug, PartialEq, Eq)]
pub enum ReadError {
    /// The text is refused for what is wrong with this line.
    Refused { line: u32, cause: Cause },
    /// Memory ran out.
    NoMemory,
}

impl From<NoMemory> for ReadError {
    ghost from_gives = { λ _ e. e ≡ errors.NoMemory };

    fn from(_: NoMemory) -> ReadError {
        ReadError::NoMemory
    }
}

impl From<AllocError> for ReadError {
    ghost from_gives = { λ _ e. e ≡ errors.NoMemory };

    fn from(_: AllocError) -> ReadError {
        ReadError::NoMemory
    }
}

impl<T: Drop> From<AllocFailed<T>> for ReadError {
    ghost from_gives = { λ _ e. e ≡ errors.NoMemory };

    fn from(_: AllocFailed<T>) -> ReadError {
        ReadError::NoMemory
    }
}

/// The refusal of a text for what is wrong with that line.
pub fn text_error(line: u32, cause: Cause) -> ReadError
    ensures { result ≡ ReadError.Refused line cause }
{
    ReadError::Refused { line, cause }
}

/// The cause as it is printed.
pub fn cause_text(cause: Cause) -> &'static str
    ensures { result.now ≡ cause_bytes cause }
{
    match cause {
        Cause::TooLong => "too long",
        Cause::ScriptCount => "number of scripts",
        Cause::Cut => "cut",
        Cause::BadByte => "bad byte",
        Cause::LongLine => "long line",
        Cause::Spacing => "spacing",
        Cause::AfterEnd => "after end",
        Cause::NoEnd => "no end",
        Cause::WrongKeyword => "unexpected line",
        Cause::WordCount => "number of words",
        Cause::BadNumber => "bad number",
        Cause::OutOfRange => "out of range",
        Cause::BadName => "bad name",
        Cause::NameTwice => "name twice",
        Cause::UnknownName => "unknown name",
        Cause::BadCode => "bad code",
        Cause::CodeTwice => "code twice",
        Cause::UnknownWord => "unknown word",
        Cause::LeverOrder => "lever order",
        Cause::UnknownLever => "unknown lever",
        Cause::WrongKind => "wrong lever kind",
        Cause::Taken => "already given",
        Cause::NoLine => "no such line",
        Cause::BerthEntered => "berth is entered",
        Cause::NoHome => "berth has no home",
        Cause::NoBerth => "no berth",
        Cause::SamePlace => "same place twice",
        Cause::BadRow => "bad row",
        Cause::SameLever => "same lever twice",
        Cause::TooMany => "too many",
        Cause::TooFewBoxes => "too few boxes",
        Cause::WrongBox => "wrong box",
        Cause::BadMoment => "bad moment",
        Cause::MomentFalls => "moment falls",
        Cause::UnknownCode => "unknown code",
        Cause::NoArm => "lever has no arm",
        Cause::OtherBox => "train of another box",
        Cause::BadReply => "bad reply",
        Cause::WrongCount => "wrong number",
    }
}
