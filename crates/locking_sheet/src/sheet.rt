//! The locking table as a value.

ghost use Rattle.std.specs.Prelude.{◌≡◌, IfOk};
ghost use Rattle.locking_sheet.specs.Sheets.{IsSheet, objects_of, places_at, subjects_of};

use locking_table::{MOST_LEVERS, NoMemory, Row};
use row_texts::{Places, places_by_key};
use std::alloc::Global;
use std::marker::Model;

/// A locking table: for each lever its own rows, and those whose object it is.
#[derive(Debug, Drop)]
pub struct LockingSheet {
    own: Vec<Places>,
    converse: Vec<Places>,
}

impl Model for LockingSheet {
    ghost use Rattle.locking_sheet.specs.Sheets.{SheetFields};

    ghost Value = { SheetFields };

    ghost view = { λ s. record { own = s.own.items; converse = s.converse.items } };
}

fn subjects_of(alloc: Global, rows: &[Row]) -> Result<Vec<u32>, NoMemory>
    ensures { IfOk result (λ levers. levers.items ≡ subjects_of rows.now) }
{
    let mut levers = Vec::new(alloc);
    for row in rows {
        levers.push(row.subject)?;
    }
    Ok(levers)
}

fn objects_of(alloc: Global, rows: &[Row]) -> Result<Vec<u32>, NoMemory>
    ensures { IfOk result (λ levers. levers.items ≡ objects_of rows.now) }
{
    let mut levers = Vec::new(alloc);
    for row in rows {
        levers.push(row.object)?;
    }
    Ok(levers)
}

/// The locking table with these rows. The rows are gone over a few times, and not once for each lever.
pub fn sheet_of(alloc: Global, rows: &[Row]) -> Result<LockingSheet, NoMemory>
    ensures { IfOk result (IsSheet rows.now) }
{
    let subjects = subjects_of(alloc, rows)?;
    let objects = objects_of(alloc, rows)?;
    let own = places_by_key(alloc, &subjects, MOST_LEVERS)?;
    let converse = places_by_key(alloc, &objects, MOST_LEVERS)?;
    Ok(LockingSheet { own, converse })
}

// The places of a lever.
fn places_at(lists: &[Places], lever: u32) -> &[usize]
    ensures { result.now ≡ places_at lists.now lever }
{
    let at = lever as usize;
    if at < lists.len() {
        lists[at].as_slice()
    } else {
        &[]
    }
}

impl LockingSheet {
    /// The places, from 0, of a lever's own rows.
    pub fn own(&self, lever: u32) -> &[usize]
        ensures { result.now ≡ places_at self.now.own lever }
    {
        places_at(&self.own, lever)
    }

    /// The places, from 0, of the rows whose object it is.
    pub fn converse(&self, lever: u32) -> &[usize]
        ensures { result.now ≡ places_at self.now.converse lever }
    {
        places_at(&self.converse, lever)
    }
}
