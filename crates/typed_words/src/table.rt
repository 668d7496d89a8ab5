//! The words that may be typed, where each may stand, and what it means.

ghost use Rattle.std.specs.Prelude.{◌≡◌};
ghost use Rattle.typed_words.specs.Table.{behind_of, command_of, kind_behind, may_stand};

/// What may be typed beside calls, by the word of each.
#[derive(Clone, Copy)]
pub(crate) enum Command {
    At,
    Look,
    May,
    Why,
    Codes,
    Undo,
    Book,
    Save,
    Help,
    End,
}

/// Which words stand behind a call's word.
#[derive(Clone, Copy)]
pub(crate) enum WordsBehind {
    /// A way, and then others as they are typed.
    Way,
    /// A way and a position.
    WayAndPosition,
    /// All as they are typed.
    AsTheyStand,
}

/// What a word means.
#[derive(Clone, Copy)]
pub(crate) enum Meaning {
    Call(WordsBehind),
    Command(Command),
    Way,
    Position,
}

/// Which word is wanted at a place of a line.
#[derive(Clone, Copy, PartialEq, Eq)]
pub(crate) enum WordKind {
    /// The first: a call or a command.
    First,
    /// A call, behind a moment.
    Call,
    Way,
    Position,
}

/// Whether a word with this meaning may stand where such a word is wanted.
pub(crate) fn may_stand(kind: WordKind, meaning: Meaning) -> bool
    ensures { result ≡ may_stand kind meaning }
{
    match meaning {
        Meaning::Call(_) => kind == WordKind::First || kind == WordKind::Call,
        Meaning::Command(_) => kind == WordKind::First,
        Meaning::Way => kind == WordKind::Way,
        Meaning::Position => kind == WordKind::Position,
    }
}

/// The command, if the word means one.
pub(crate) fn command_of(meaning: Meaning) -> Option<Command>
    ensures { result ≡ command_of meaning }
{
    match meaning {
        Meaning::Command(command) => Some(command),
        _ => None,
    }
}

/// What stands behind the word.
pub(crate) fn behind_of(meaning: Meaning) -> WordsBehind
    ensures { result ≡ behind_of meaning }
{
    match meaning {
        Meaning::Call(behind) => behind,
        _ => WordsBehind::AsTheyStand,
    }
}

/// Which word is wanted at this place behind a call's word, from 0; `None` where it stays as it is typed.
pub(crate) fn kind_behind(behind: WordsBehind, place: usize) -> Option<WordKind>
    ensures { result ≡ kind_behind behind place }
{
    match behind {
        WordsBehind::Way if place == 0 => Some(WordKind::Way),
        WordsBehind::WayAndPosition if place == 0 => Some(WordKind::Way),
        WordsBehind::WayAndPosition if place == 1 => Some(WordKind::Position),
        _ => None,
    }
}
