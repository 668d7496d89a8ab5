//! The worked rows: each is a call of a public function of a library, with the answer that is wanted, and each whose
//! answer differs is told.

use crate::case_fault::CaseFault;
use crate::files::{names_in, path_of};
use crate::report::{Tally, refused, tell_row};
use crate::row_line::{RowLine, read_row_line};
use crate::row_work::{answer, is_wanted};
use anyhow::{Context, Error, Result};
use std::fs;
use std::rt::Files;

// Where a row stands, and the folder of the plans.
#[derive(Clone, Copy)]
struct Place<'a> {
    plans: &'a str,
    path: &'a str,
    number: usize,
}

// A row that isn't written as it has to be.
fn refusal(place: Place<'_>, fault: CaseFault) -> Error {
    refused(place.path, place.number, fault)
}

// Compares what came with what is wanted, and tells it where it differs. Whether it agrees.
fn compare<R: Print + AllocGlobal>(
    rt: &R,
    place: Place<'_>,
    row: RowLine<'_>,
    came: &str,
) -> Result<bool> {
    match is_wanted(rt.alloc(), row, came) {
        Ok(true) => Ok(true),
        Ok(false) => {
            tell_row(rt, place.path, place.number, row, came)?;
            Ok(false)
        }
        Err(fault) => Err(refusal(place, fault)),
    }
}

// Works a row. Whether it agrees.
fn row_agrees<R: Files + Print + AllocGlobal>(
    rt: &R,
    place: Place<'_>,
    row: RowLine<'_>,
) -> Result<bool> {
    let mut came = String::new(rt.alloc());
    let agrees = match answer(rt, &mut came, place.plans, row) {
        Ok(()) => compare(rt, place, row, came.as_str()),
        Err(fault) => Err(refusal(place, fault)),
    };
    drop(came);
    agrees
}

// Works the row of a line, if it has one, and counts it.
fn work_line<R: Files + Print + AllocGlobal>(
    rt: &R,
    place: Place<'_>,
    line: &str,
    tally: &mut Tally,
) -> Result<()> {
    match read_row_line(line) {
        Ok(Some(row)) => {
            tally.count(row_agrees(rt, place, row)?);
            Ok(())
        }
        Ok(None) => Ok(()),
        Err(fault) => Err(refusal(place, fault)),
    }
}

// Works the rows of a text.
fn work_text<R: Files + Print + AllocGlobal>(
    rt: &R,
    plans: &str,
    path: &str,
    text: &str,
    tally: &mut Tally,
) -> Result<()> {
    for (before, line) in text.split('\n').enumerate() {
        let number = before.saturating_add(1);
        let place = Place {
            plans,
            path,
            number,
        };
        work_line(rt, place, line, tally)?;
    }
    Ok(())
}

// Works the rows of a file.
fn work_file<R: Files + Print + AllocGlobal>(
    rt: &R,
    plans: &str,
    path: &str,
    tally: &mut Tally,
) -> Result<()> {
    let text = fs::read_to_string(rt, path).context(format_args!("{path}"))?;
    let done = work_text(rt, plans, path, text.as_str(), tally);
    drop(text);
    done
}

/// Works the rows of the files of a folder. The plans lie in another one.
pub fn work_rows<R: Files + Print + AllocGlobal + Clone + Drop>(
    rt: &R,
    rows: &str,
    plans: &str,
) -> Result<Tally> {
    let mut tally = Tally::new();
    for name in names_in(rt, rows)? {
        let path = path_of(rt.alloc(), rows, name.as_str())?;
        work_file(rt, plans, path.as_str(), &mut tally)?;
    }
    Ok(tally)
}
