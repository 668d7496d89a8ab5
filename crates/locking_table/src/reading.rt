//! Rows as they are read.

ghost use Rattle.std.specs.Prelude.{◌≡◌, ◌+◌, ◌<◌, ◌≤◌, ◌^◌, IfOk};
ghost use Rattle.locking_table.specs.Printing.{row_text};
ghost use Rattle.locking_table.specs.Reading.{GivesFault, GivesPart, GivesRow, asked_from, cond_from, conds_from};
ghost use Rattle.locking_table.specs.Reading.{grammar_of, locked_from, row_of};
ghost use Rattle.locking_table.specs.Sound.{IsRow};

use crate::conds::Conds;
use crate::fault::{RowError, RowFault};
use crate::row::{Cond, Row, RowKind};
use crate::words::{Bound, Verb, Words};
use std::alloc::Global;

// Behind `locks B`: `normal` or `both ways`.
#[tactic(auto, unfolding(crate::specs::Reading::locked_from, crate::specs::Reading::locked_by))]
fn read_locked(words: &mut Words<'_>) -> Result<RowKind, RowFault>
    requires { words.old.number < 2 ^ 8 }
    ensures read { GivesPart result words.new (locked_from words.old) }
    ensures few { words.new.number ≤ words.old.number + 2 }
{
    match words.bound()? {
        Bound::Normal => Ok(RowKind::LocksNormal),
        Bound::Both => {
            words.only(b"ways")?;
            Ok(RowKind::LocksBoth)
        }
    }
}

// What the row says of its object: the kind, and the object.
#[tactic(auto, unfolding(crate::specs::Reading::asked_from, crate::specs::Reading::asked_by))]
fn read_asked(words: &mut Words<'_>) -> Result<(RowKind, u32), RowFault>
    requires { words.old.number < 2 ^ 7 }
    ensures read { GivesPart result words.new (asked_from words.old) }
    ensures few { words.new.number ≤ words.old.number + 4 }
{
    match words.verb()? {
        Verb::Locks => {
            let object = words.lever()?;
            let kind = read_locked(words)?;
            Ok((kind, object))
        }
        Verb::Released => {
            words.only(b"by")?;
            let object = words.lever()?;
            Ok((RowKind::ReleasedBy, object))
        }
    }
}

// A condition behind the word that joins it on.
#[tactic(auto, unfolding(crate::specs::Reading::cond_from))]
fn read_cond(words: &mut Words<'_>, joint: &[u8]) -> Result<Cond, RowFault>
    requires { words.old.number < 2 ^ 8 }
    ensures read { GivesPart result words.new (cond_from joint.now words.old) }
    ensures few { words.new.number ≤ words.old.number + 3 }
{
    words.only(joint)?;
    let lever = words.lever()?;
    let end = words.end()?;
    Ok(Cond { lever, end })
}

// Up to two conditions, and no word more.
#[tactic(auto, unfolding(crate::specs::Reading::conds_from, crate::specs::Reading::second_from))]
fn read_when(words: &mut Words<'_>) -> Result<Conds, RowFault>
    requires { words.old.number < 2 ^ 7 }
    ensures { GivesFault result (conds_from words.old) }
{
    if words.is_empty() {
        return Ok(Conds::none());
    }
    let first = read_cond(words, b"when")?;
    if words.is_empty() {
        return Ok(Conds::one(first));
    }
    let second = read_cond(words, b"and")?;
    words.finish()?;
    Ok(Conds::both(first, second))
}

// A row by the grammar of rows, whether or not it names a lever twice.
#[tactic(auto, unfolding(crate::specs::Reading::grammar_of, crate::specs::Reading::row_from))]
fn read_grammar(text: &[u8]) -> Result<Row, RowFault>
    ensures { GivesFault result (grammar_of text.now) }
{
    let mut words = Words::new(text);
    let subject = words.lever()?;
    let (kind, object) = read_asked(&mut words)?;
    let when = read_when(&mut words)?;
    Ok(Row {
        subject,
        kind,
        object,
        when,
    })
}

/// The row that a text spells. It takes no memory.
///
/// Its words stand between single spaces. It is `A locks B normal`, `A locks B both ways` or `A released by B`,
/// alone, or followed by `when C E`, or by `when C E and D E`. A, B, C and D are numbers from 1 to 120 without
/// leading zeros, and E is `normal` or `reversed`. All levers that it names differ.
#[tactic(auto, using(crate::proofs::Spelling::row_rules), unfolding(crate::specs::Reading::row_of))]
pub fn read_spelled(text: &[u8]) -> Result<Row, RowFault>
    ensures exact { GivesFault result (row_of text.now) }
    ensures row { IfOk result IsRow }
    ensures spelled { IfOk result (λ row. text.now ≡ row_text row) }
{
    let row = read_grammar(text)?;
    if row.levers_differ() {
        Ok(row)
    } else {
        Err(RowFault::SameLever)
    }
}

/// The row that a text spells, as [`read_spelled`] reads it. It takes no memory of the allocator.
pub fn read_row(_: Global, text: &[u8]) -> Result<Row, RowError>
    ensures exact { GivesRow result (row_of text.now) }
    ensures row { IfOk result IsRow }
    ensures spelled { IfOk result (λ row. text.now ≡ row_text row) }
{
    Ok(read_spelled(text)?)
}
