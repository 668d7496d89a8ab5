//! The text of a locking table is read.

ghost use Rattle.std.specs.Prelude.{◌≡◌, ◌+◌, ◌-◌, ◌<◌, ◌≤◌, ◌^◌, ◌++◌, [], All, IfOk, OnOk, length, map};
ghost use Rattle.row_texts.specs.Drafts.{Gives, no_number};
ghost use Rattle.row_texts.specs.Texts.{GivesText, all_ended, at_line, byte_onto, entries_of, in_order, is_empty, key_of};
ghost use Rattle.row_texts.specs.Texts.{mark_onto, next_line, passed, read_on, rows_at, rows_of, start, word_ended};

use crate::cause::{RowsCause, RowsError, WordFault};
use crate::draft::{Draft, Entry, NO_NUMBER, Place};
use crate::marks::ends_word;
use crate::places::places_by_key;
use locking_table::{NoMemory, Row};
use std::alloc::Global;

// The word that has begun, if any, has ended.
fn end_word(word: &[u8], draft: &mut Draft) -> Result<(), WordFault>
    ensures { Gives (word_ended word.now) draft.old result draft.new }
{
    match word {
        [] => Ok(()),
        [_, ..] => draft.take_word(word),
    }
}

fn is_empty(word: &[u8]) -> bool
    ensures { result ≡ is_empty word.now }
{
    match word {
        [] => true,
        [_, ..] => false,
    }
}

// Takes a byte that isn't read.
fn pass(draft: &mut Draft, byte: u8)
    ensures { draft.new ≡ passed byte draft.old }
{
    if byte == b'\n' {
        draft.place = Place::Start;
    }
}

// Takes what ends a word.
fn take_mark(word: &mut Vec<u8>, draft: &mut Draft, byte: u8) -> Result<(), WordFault>
    ensures gives { Gives (mark_onto byte word.old.items) draft.old result draft.new }
    ensures cleared { OnOk result (word.new.items ≡ []) }
{
    end_word(word, draft)?;
    draft.mark(byte)?;
    word.clear();
    Ok(())
}

// Takes a byte behind what is read.
fn take(word: &mut Vec<u8>, draft: &mut Draft, byte: u8) -> Result<(), WordFault>
    ensures { Gives (byte_onto byte) (record { word = word.old.items; draft = draft.old }) result
        (record { word = word.new.items; draft = draft.new }) }
{
    if draft.is_beside() {
        word.clear();
        pass(draft, byte);
        return Ok(());
    }
    if ends_word(byte) {
        return take_mark(word, draft, byte);
    }
    if byte == b'#' && is_empty(word) && draft.is_start() {
        word.clear();
        draft.place = Place::Beside;
        return Ok(());
    }
    word.push(byte)?;
    Ok(())
}

// Ends all that was begun.
fn end_all(word: &[u8], draft: &mut Draft) -> Result<(), WordFault>
    ensures { Gives all_ended (record { word = word.now; draft = draft.old }) result draft.new }
{
    end_word(word, draft)?;
    draft.end()
}

// The end of a text, which ends all that was begun.
fn finished(word: &[u8], draft: Draft, line: u32) -> Result<Vec<Entry>, RowsError>
    ensures { GivesText (λ entries. entries.items) result
        (entries_of (at_line line (all_ended (record { word = word.now; draft = draft })))) }
{
    let mut draft = draft;
    match end_all(word, &mut draft) {
        Ok(()) => {
            let Draft { entries, .. } = draft;
            Ok(entries)
        }
        Err(WordFault::Cause(cause)) => Err(RowsError::Refused { line, cause }),
        Err(WordFault::NoMemory) => Err(RowsError::NoMemory),
    }
}

// The number of the line behind a byte.
fn next_line(byte: u8, line: u32) -> u32
    requires { line < 2 ^ 32 - 1 }
    ensures next { result ≡ next_line byte line }
    ensures few { result ≤ line + 1 }
{
    if byte == b'\n' { line + 1 } else { line }
}

// The rows of a text with their numbers, in the order of the text.
fn read_entries(alloc: Global, text: &[u8]) -> Result<Vec<Entry>, RowsError>
    requires { length text.now < 2 ^ 32 - 2 }
    ensures { GivesText (λ entries. entries.items) result (entries_of (read_on 1 start text.now)) }
{
    let mut word = Vec::new(alloc);
    let mut draft = Draft::new(alloc);
    let mut line: u32 = 1;
    for byte in text {
        match take(&mut word, &mut draft, *byte) {
            Ok(()) => {}
            Err(WordFault::Cause(cause)) => return Err(RowsError::Refused { line, cause }),
            Err(WordFault::NoMemory) => return Err(RowsError::NoMemory),
        }
        line = next_line(*byte, line);
    }
    finished(&word, draft, line)
}

// The number by which a row is put in order.
fn key_of(entry: &Entry) -> u32
    ensures key { result ≡ key_of entry.now }
    ensures small { result ≤ no_number }
{
    if entry.number < NO_NUMBER {
        entry.number
    } else {
        NO_NUMBER
    }
}

fn keys_of(alloc: Global, entries: &[Entry]) -> Result<Vec<u32>, NoMemory>
    ensures { IfOk result (λ keys. keys.items ≡ map key_of entries.now) }
{
    let mut keys = Vec::new(alloc);
    for entry in entries {
        keys.push(key_of(entry))?;
    }
    Ok(keys)
}

// Puts the rows at places of the text behind others.
fn put_rows_at(rows: &mut Vec<Row>, entries: &[Entry], places: &[usize]) -> Result<(), NoMemory>
    requires { All (λ place. place < length entries.now) places.now }
    ensures { OnOk result (rows.new.items ≡ rows.old.items ++ rows_at entries.now places.now) }
{
    for place in places {
        let entry = &entries[*place];
        rows.push(entry.row.copied())?;
    }
    Ok(())
}

// The rows by their numbers, and behind them those that have none.
#[tactic(auto, using(crate::proofs::OrderLemmas::order_rules))]
fn in_order(alloc: Global, entries: &[Entry]) -> Result<Vec<Row>, NoMemory>
    ensures { IfOk result (λ rows. rows.items ≡ in_order entries.now) }
{
    let keys = keys_of(alloc, entries)?;
    let lists = places_by_key(alloc, &keys, NO_NUMBER)?;
    let mut rows = Vec::new(alloc);
    for list in &lists {
        put_rows_at(&mut rows, entries, list.as_slice())?;
    }
    Ok(rows)
}

/// The rows of a locking table that is written as a text, in their order, or the first line that is off its form, with
/// the cause.
///
/// A line is `N: ITEM; ITEM; ..`, with the number of a lever, from 1 to 120. An item is `rel A B ..`, `locks A B ..` or
/// `both A B ..`, alone or with `when C E` or `when C E and D E` behind it, where E is `n` or `r`; it has a row of lever N
/// for each of its levers. A number `#K`, from 1 to 9999, may stand before it: the rows are put in the order of their
/// numbers, those of one number in the order of the text, and those without one behind all others. What stands behind a
/// bar isn't read, nor is a line that begins with `#`; a lever may have several lines.
#[tactic(auto, unfolding(crate::specs::Texts::rows_of))]
pub fn read_rows(alloc: Global, text: &[u8]) -> Result<Vec<Row>, RowsError>
    requires { length text.now < 2 ^ 32 - 2 }
    ensures { GivesText (λ rows. rows.items) result (rows_of text.now) }
{
    let entries = read_entries(alloc, text)?;
    let rows = in_order(alloc, &entries)?;
    Ok(rows)
}
