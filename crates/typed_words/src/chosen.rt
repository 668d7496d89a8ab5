//! Which word is meant by one that is typed.

ghost use Rattle.std.specs.Prelude.{◌≡◌, IfOk, map};
ghost use Rattle.std.specs.Option.{option_map};
ghost use Rattle.typed_words.specs.Chosen.{begins, chosen, chosen_of, fitting, fitting_of, meant, whole};
ghost use Rattle.typed_words.specs.Chosen.{words_at, words_in};
ghost use Rattle.typed_words.specs.Gives.{GivesWords, shown_misread};

use crate::table::{Command, Meaning, WordKind, WordsBehind, may_stand};
use crate::typed::{NotUnderstood, Unread};
use std::alloc::{AllocError, Global};

/// A word with what it means.
pub(crate) type Row = (&'static str, Meaning);

// The word begins with what is typed.
#[tactic(auto, using(std::proofs::lemmas::Str::Pattern::starts_text))]
fn begins(typed: &str, word: &str) -> bool
    ensures { result ≡ begins typed.now word.now }
{
    word.starts_with(typed)
}

// Of these rows, those whose word may stand there and begins so.
fn fitting_of(
    alloc: Global,
    rows: &[Row],
    kind: WordKind,
    typed: &str,
) -> Result<Vec<Row>, AllocError>
    ensures { IfOk result (λ fits. map (λ row. (row.0.now, row.1)) fits.items
        ≡ fitting_of (map (λ row. (row.0.now, row.1)) rows.now) kind typed.now) }
{
    let mut fits = Vec::new(alloc);
    for row in rows {
        if may_stand(kind, row.1) && begins(typed, row.0) {
            fits.push(*row)?;
        }
    }
    Ok(fits)
}

// The words that may stand there and begin so, with their meanings.
fn fitting(alloc: Global, kind: WordKind, typed: &str) -> Result<Vec<Row>, AllocError>
    ensures { IfOk result (λ fits. map (λ row. (row.0.now, row.1)) fits.items ≡ fitting kind typed.now) }
{
    let rows = [
        ("ring", Meaning::Call(WordsBehind::Way)),
        ("hear", Meaning::Call(WordsBehind::Way)),
        ("await_bell", Meaning::Call(WordsBehind::Way)),
        ("turn", Meaning::Call(WordsBehind::WayAndPosition)),
        ("await_block", Meaning::Call(WordsBehind::WayAndPosition)),
        ("pull", Meaning::Call(WordsBehind::AsTheyStand)),
        ("put", Meaning::Call(WordsBehind::AsTheyStand)),
        ("pass", Meaning::Call(WordsBehind::AsTheyStand)),
        ("overrun", Meaning::Call(WordsBehind::AsTheyStand)),
        ("bring", Meaning::Call(WordsBehind::AsTheyStand)),
        ("await_train", Meaning::Call(WordsBehind::Way)),
        ("berth", Meaning::Call(WordsBehind::Way)),
        ("berth_part", Meaning::Call(WordsBehind::Way)),
        ("clear_portion", Meaning::Call(WordsBehind::Way)),
        ("wind", Meaning::Call(WordsBehind::Way)),
        ("release", Meaning::Call(WordsBehind::Way)),
        ("at", Meaning::Command(Command::At)),
        ("look", Meaning::Command(Command::Look)),
        ("may", Meaning::Command(Command::May)),
        ("why", Meaning::Command(Command::Why)),
        ("codes", Meaning::Command(Command::Codes)),
        ("undo", Meaning::Command(Command::Undo)),
        ("book", Meaning::Command(Command::Book)),
        ("save", Meaning::Command(Command::Save)),
        ("help", Meaning::Command(Command::Help)),
        ("end", Meaning::Command(Command::End)),
        ("up", Meaning::Way),
        ("down", Meaning::Way),
        ("normal", Meaning::Position),
        ("line_clear", Meaning::Position),
        ("train_on_line", Meaning::Position),
    ];
    fitting_of(alloc, &rows, kind, typed)
}

// The words of rows.
fn words_in(alloc: Global, rows: &[Row]) -> Result<Vec<&'static str>, AllocError>
    ensures { IfOk result (λ words. map (λ word. word.now) words.items
        ≡ words_in (map (λ row. (row.0.now, row.1)) rows.now)) }
{
    let mut words = Vec::new(alloc);
    for row in rows {
        words.push(row.0)?;
    }
    Ok(words)
}

// The words that may stand there.
pub(crate) fn words_at(alloc: Global, kind: WordKind) -> Result<Vec<&'static str>, AllocError>
    ensures { IfOk result (λ words. map (λ word. word.now) words.items ≡ words_at kind) }
{
    let rows = fitting(alloc, kind, "")?;
    words_in(alloc, &rows)
}

// The first row whose word is the typed one as a whole.
fn whole(rows: &[Row], typed: &str) -> Option<Row>
    ensures { option_map (λ row. (row.0.now, row.1)) result
        ≡ whole (map (λ row. (row.0.now, row.1)) rows.now) typed.now }
{
    for row in rows {
        if row.0 == typed {
            return Some(*row);
        }
    }
    None
}

// The typed word as a whole, or else the only one.
fn chosen(rows: &[Row], typed: &str) -> Option<Row>
    ensures { option_map (λ row. (row.0.now, row.1)) result
        ≡ chosen (map (λ row. (row.0.now, row.1)) rows.now) typed.now }
{
    match (whole(rows, typed), rows) {
        (Some(row), _) => Some(row),
        (None, [only]) => Some(*only),
        (None, _) => None,
    }
}

// Why no word is chosen of these, which are all that begin so.
fn none_chosen(
    alloc: Global,
    kind: WordKind,
    at: usize,
    fits: &[Row],
) -> Result<NotUnderstood, AllocError>
    ensures { IfOk result (λ what. Err (shown_misread what)
        ≡ chosen_of kind at (map (λ row. (row.0.now, row.1)) fits.now) None) }
{
    if fits.is_empty() {
        let may_stand = words_at(alloc, kind)?;
        Ok(NotUnderstood::UnknownWord { at, may_stand })
    } else {
        let fitting = words_in(alloc, fits)?;
        Ok(NotUnderstood::SeveralWords { at, fitting })
    }
}

/// The word that is meant by a typed one, with this number in the line: itself where it may stand there, or else the
/// only one that may stand there and begins so.
#[tactic(auto, unfolding(crate::specs::Chosen::meant))]
pub(crate) fn meant(alloc: Global, kind: WordKind, at: usize, typed: &str) -> Result<Row, Unread>
    ensures { GivesWords (λ row. (row.0.now, row.1)) result (meant kind at typed.now) }
{
    let fits = fitting(alloc, kind, typed)?;
    match chosen(&fits, typed) {
        Some(row) => Ok(row),
        None => Err(Unread::NotUnderstood(none_chosen(alloc, kind, at, &fits)?)),
    }
}
