//! What typed lines come to.

ghost use Rattle.std.specs.Prelude.{◌≡◌};
ghost use Rattle.typed_words.specs.declared.typed.Unread.TheVariants as unread;
ghost use Rattle.typed_words.specs.declared.typed.NotUnderstood.TheVariants as misreads;

use line_law::Call;
use rail_text::Cause;
use std::alloc::{AllocError, AllocFailed};

/// What a line comes to that is typed at a box.
#[derive(Debug, Drop)]
pub enum Typed {
    /// A call, at its moment.
    Call(Call),
    /// The box's last moment is moved to this one.
    At(u32),
    /// `look`: how his box stands.
    Look,
    /// `may`: which levers may be moved.
    May,
    /// `why`: the last refusal at length.
    Why,
    /// `codes`: the bell codes.
    Codes,
    /// `undo`: the last call is taken back.
    Undo,
    /// `book`: his register so far.
    Book,
    /// `save`, with the name of the file.
    Save(String),
    /// `help`: what may be typed.
    Help,
    /// `end`: the session ends.
    End,
    /// No word was typed.
    Nothing,
    /// The line isn't understood, and changes nothing.
    NotUnderstood(NotUnderstood),
}

/// What isn't understood in a line.
#[derive(Debug, Drop)]
pub enum NotUnderstood {
    /// The word with this number in the line, from 0, is none of those that may stand there, and begins none, or it is
    /// missing.
    UnknownWord {
        at: usize,
        may_stand: Vec<&'static str>,
    },
    /// The word with this number in the line, from 0, begins several of those that may stand there, and is none.
    SeveralWords {
        at: usize,
        fitting: Vec<&'static str>,
    },
    /// The cause for which a script with this call would be refused; of a command `WordCount`, `BadMoment` or
    /// `MomentFalls`.
    Refused(Cause),
}

/// Why a line wasn't read.
#[derive(Drop)]
pub(crate) enum Unread {
    NotUnderstood(NotUnderstood),
    NoMemory,
}

impl From<AllocError> for Unread {
    ghost from_gives = { λ _ e. e ≡ unread.NoMemory };

    fn from(_: AllocError) -> Unread {
        Unread::NoMemory
    }
}

impl<T: Drop> From<AllocFailed<T>> for Unread {
    ghost from_gives = { λ _ e. e ≡ unread.NoMemory };

    fn from(_: AllocFailed<T>) -> Unread {
        Unread::NoMemory
    }
}

impl From<Cause> for Unread {
    ghost from_gives = { λ cause e. e ≡ unread.NotUnderstood (misreads.Refused cause) };

    fn from(cause: Cause) -> Unread {
        Unread::NotUnderstood(NotUnderstood::Refused(cause))
    }
}
