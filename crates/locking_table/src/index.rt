//! The index of a table: for each lever the rows that may hold it.

ghost use Rattle.std.specs.Prelude.{◌≡◌, ◌≤◌, ◌-◌, ◌<◌, ◌^◌, ◌∷◌, ◌++◌, [], All, IsTrue, OnOk, OnErr, length};
ghost use Rattle.std.specs.Prelude.{IfOk, slice_index_or, take};
ghost use Rattle.locking_table.specs.Index.{AreAlike, AreFiled, first_of, levers_held};
ghost use Rattle.locking_table.specs.Places.{IsLever};
ghost use Rattle.locking_table.specs.Sound.{IsRow, RowFits, all_differ};

use crate::memory::NoMemory;
use crate::places::End;
use crate::row::{Holder, Row, RowKind};
use std::alloc::Global;
use std::marker::Model;

// The rows of a lever for which there is room at first.
const USES_AT_FIRST: usize = 16;

/// The numbers, from 0, of the rows that may hold one lever, in table order.
#[derive(Debug, Drop)]
pub struct Uses {
    numbers: Vec<u32>,
}

impl Model for Uses {
    ghost use Rattle.std.specs.Prelude.{List, ℕ};

    ghost Value = { List ℕ };

    ghost view = { λ u. u.numbers.items };
}

impl Uses {
    // No numbers yet, with room for those of a lever of most tables.
    fn new(alloc: Global) -> Result<Self, NoMemory>
        ensures { IfOk result (λ uses. uses ≡ []) }
    {
        Ok(Uses {
            numbers: Vec::with_capacity(alloc, USES_AT_FIRST)?,
        })
    }

    fn push(&mut self, number: u32) -> Result<(), NoMemory>
        ensures ok { OnOk result (self.new ≡ self.old ++ number ∷ []) }
        ensures err { OnErr result (self.new ≡ self.old) }
    {
        self.numbers.push(number)?;
        Ok(())
    }

    // Takes the last number back.
    fn take_back(&mut self)
        ensures { self.new ≡ take (length self.old - 1) self.old }
    {
        let _number = self.numbers.pop();
    }

    /// The numbers as a slice.
    pub fn as_slice(&self) -> &[u32]
        ensures { result.now ≡ self.now }
    {
        &self.numbers
    }
}

// Makes room for the rows of a lever. For each lever the rows stay.
fn widen(uses: &mut Vec<Uses>, alloc: Global, lever: u32) -> Result<(), NoMemory>
    ensures ok { OnOk result (lever < length uses.new.items) }
    ensures wide { length uses.old.items ≤ length uses.new.items }
    ensures same { AreAlike uses.old.items uses.new.items }
{
    while uses.len() <= lever as usize {
        uses.push(Uses::new(alloc)?)?;
    }
    Ok(())
}

// Puts a row's number behind those of each of the levers that it names. Where memory runs out, for each lever the rows
// stay.
fn file(uses: &mut Vec<Uses>, alloc: Global, levers: &[u32], number: u32) -> Result<(), NoMemory>
    requires { IsTrue (all_differ levers.now) }
    ensures ok { OnOk result (AreFiled uses.old.items levers.now number uses.new.items) }
    ensures err { OnErr result (AreAlike uses.old.items uses.new.items) }
    ensures wide { length uses.old.items ≤ length uses.new.items }
{
    let [lever, others @ ..] = levers else {
        return Ok(());
    };
    let at = *lever as usize;
    widen(uses, alloc, *lever)?;
    uses[at].push(number)?;
    let filed = file(uses, alloc, others, number);
    if filed.is_err() {
        uses[at].take_back();
    }
    filed
}

/// Puts a row's number behind those of each lever that it may hold. Where memory runs out, for each lever the rows
/// stay.
pub fn file_row(uses: &mut Vec<Uses>, alloc: Global, row: &Row, number: u32) -> Result<(), NoMemory>
    requires { IsRow row.now }
    ensures ok { OnOk result (AreFiled uses.old.items (levers_held row.now) number uses.new.items) }
    ensures err { OnErr result (AreAlike uses.old.items uses.new.items) }
{
    let subject = row.subject;
    let object = row.object;
    if row.kind == RowKind::LocksBoth {
        return file(uses, alloc, &[object], number);
    }
    match row.when.as_slice() {
        [] => file(uses, alloc, &[subject, object], number),
        [cond] => file(uses, alloc, &[subject, object, cond.lever], number),
        [first, second, ..] => {
            file(
                uses,
                alloc,
                &[subject, object, first.lever, second.lever],
                number,
            )
        }
    }
}

/// The numbers, from 0, of the rows that may hold a lever.
pub fn uses_of(uses: &[Uses], lever: u32) -> &[u32]
    ensures { result.now ≡ slice_index_or uses.now lever [] }
{
    let at = lever as usize;
    if at < uses.len() {
        uses[at].as_slice()
    } else {
        &[]
    }
}

/// The first of the rows with these numbers, from 0, that doesn't let a lever move to its other end.
pub fn first_of(rows: &[Row], numbers: &[u32], ends: &[End], lever: u32) -> Option<Holder>
    requires few { length rows.now < 2 ^ 32 }
    requires rows { All (RowFits (length ends.now)) rows.now }
    requires lever { IsLever (length ends.now) lever }
    requires numbers { All (λ number. number < length rows.now) numbers.now }
    ensures { result ≡ first_of ends.now lever rows.now numbers.now }
{
    for number in numbers {
        let row = &rows[*number as usize];
        if !row.allows(ends, lever) {
            return Some(Holder {
                lever: row.holding_lever(lever),
                row: *number + 1,
            });
        }
    }
    None
}
