//! The numbers of causes.

ghost use Rattle.std.specs.Prelude.{◌≡◌};
ghost use Rattle.line_numbers.specs.CauseNumbers.{cause_number};

use rail_text::Cause;

/// The number of a cause for which a text is refused, from 1; 0 stands for none.
///
/// | Number | What is wrong |
/// |---|---|
/// | 1 | too long |
/// | 2 | number of scripts |
/// | 3 | cut |
/// | 4 | bad byte |
/// | 5 | long line |
/// | 6 | spacing |
/// | 7 | after end |
/// | 8 | no end |
/// | 9 | unexpected line |
/// | 10 | number of words |
/// | 11 | bad number |
/// | 12 | out of range |
/// | 13 | bad name |
/// | 14 | name twice |
/// | 15 | unknown name |
/// | 16 | bad code |
/// | 17 | code twice |
/// | 18 | unknown word |
/// | 19 | lever order |
/// | 20 | unknown lever |
/// | 21 | wrong lever kind |
/// | 22 | already given |
/// | 23 | no such line |
/// | 24 | berth is entered |
/// | 25 | berth has no home |
/// | 26 | no berth |
/// | 27 | same place twice |
/// | 28 | bad row |
/// | 29 | same lever twice |
/// | 30 | too many |
/// | 31 | too few boxes |
/// | 32 | wrong box |
/// | 33 | bad moment |
/// | 34 | moment falls |
/// | 35 | unknown code |
/// | 36 | lever has no arm |
/// | 37 | train of another box |
/// | 38 | bad reply |
/// | 39 | wrong number |
pub fn cause_number(cause: Cause) -> u32
    ensures { result ≡ cause_number cause }
{
    match cause {
        Cause::TooLong => 1,
        Cause::ScriptCount => 2,
        Cause::Cut => 3,
        Cause::BadByte => 4,
        Cause::LongLine => 5,
        Cause::Spacing => 6,
        Cause::AfterEnd => 7,
        Cause::NoEnd => 8,
        Cause::WrongKeyword => 9,
        Cause::WordCount => 10,
        Cause::BadNumber => 11,
        Cause::OutOfRange => 12,
        Cause::BadName => 13,
        Cause::NameTwice => 14,
        Cause::UnknownName => 15,
        Cause::BadCode => 16,
        Cause::CodeTwice => 17,
        Cause::UnknownWord => 18,
        Cause::LeverOrder => 19,
        Cause::UnknownLever => 20,
        Cause::WrongKind => 21,
        Cause::Taken => 22,
        Cause::NoLine => 23,
        Cause::BerthEntered => 24,
        Cause::NoHome => 25,
        Cause::NoBerth => 26,
        Cause::SamePlace => 27,
        Cause::BadRow => 28,
        Cause::SameLever => 29,
        Cause::TooMany => 30,
        Cause::TooFewBoxes => 31,
        Cause::WrongBox => 32,
        Cause::BadMoment => 33,
        Cause::MomentFalls => 34,
        Cause::UnknownCode => 35,
        Cause::NoArm => 36,
        Cause::OtherBox => 37,
        Cause::BadReply => 38,
        Cause::WrongCount => 39,
    }
}
