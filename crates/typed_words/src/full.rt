//! A call's words in full.

ghost use Rattle.std.specs.Prelude.{◌≡◌, ◌≤◌, map};
ghost use Rattle.typed_words.specs.Gives.{GivesWords};
ghost use Rattle.typed_words.specs.Lines.{call_in_full, in_full, onto_full, timed_in_full, word_in_full};

use crate::chosen::{Row, meant, words_at};
use crate::table::{WordKind, WordsBehind, behind_of, kind_behind};
use crate::typed::{NotUnderstood, Unread};
use std::alloc::Global;

// A typed word in full, with its number in the line; where none is wanted it stays as it is typed.
fn word_in_full<'a>(
    alloc: Global,
    kind: Option<WordKind>,
    at: usize,
    typed: &'a str,
) -> Result<&'a str, Unread>
    ensures { GivesWords (λ word. word.now) result (word_in_full kind at typed.entry.now) }
{
    match kind {
        None => Ok(typed),
        Some(kind) => Ok(meant(alloc, kind, at, typed)?.0),
    }
}

// Puts the words behind a call's word in full behind those that stand already.
#[tactic(auto, using(crate::proofs::FullLines::onto_next))]
fn put_in_full<'a>(
    alloc: Global,
    full: &mut Vec<&'a str>,
    behind: WordsBehind,
    from: usize,
    words: &[&'a str],
) -> Result<(), Unread>
    requires { from ≤ 2 }
    ensures { GivesWords (λ _. map (λ word. word.now) full.new.items) result
        (onto_full (map (λ word. word.now) full.old.items) (in_full behind from 0 (map (λ word. word.now) words.now))) }
{
    for (k, typed) in words.iter().enumerate() {
        let kind = kind_behind(behind, k);
        let word = word_in_full(alloc, kind, from + k, typed)?;
        full.push(word)?;
    }
    Ok(())
}

/// A call's words in full, where its first is chosen; those behind it begin in the line at the number `from`.
#[tactic(auto, using(crate::proofs::FullLines::onto_one), unfolding(crate::specs::Lines::call_in_full))]
pub(crate) fn call_in_full<'a>(
    alloc: Global,
    from: usize,
    words: &[&'a str],
    row: Row,
) -> Result<Vec<&'a str>, Unread>
    requires { from ≤ 2 }
    ensures { GivesWords (λ full. map (λ word. word.now) full.items) result
        (call_in_full from (map (λ word. word.now) words.now) (row.entry.0.now, row.entry.1)) }
{
    let mut full = Vec::new(alloc);
    full.push(row.0)?;
    put_in_full(alloc, &mut full, behind_of(row.1), from, words)?;
    Ok(full)
}

/// The words behind a moment in full: a call's word is wanted.
pub(crate) fn timed_in_full<'a>(alloc: Global, words: &[&'a str]) -> Result<Vec<&'a str>, Unread>
    ensures { GivesWords (λ full. map (λ word. word.now) full.items) result
        (timed_in_full (map (λ word. word.now) words.now)) }
{
    match words {
        [typed, rest @ ..] => {
            let row = meant(alloc, WordKind::Call, 1, typed)?;
            call_in_full(alloc, 2, rest, row)
        }
        [] => Err(Unread::NotUnderstood(NotUnderstood::UnknownWord {
            at: 1,
            may_stand: words_at(alloc, WordKind::Call)?,
        })),
    }
}
