//! Locking tables: rows as they are read and printed, and what holds a lever.

use crate::case_fault::CaseFault;
use crate::putting::{Done, number_of, put_bytes, two_parts};
use locking_table::{End, Row, RowError, Table, print_row, read_row};
use std::alloc::Global;

// Puts a row as it is printed.
fn put_printed(alloc: Global, out: &mut String, row: &Row) -> Done {
    if !row.is_spelled() {
        return Ok(out.push_str("no text spells it")?);
    }
    let printed = print_row(alloc, row)?;
    let done = put_bytes(out, &printed);
    drop(printed);
    done
}

/// `row TEXT`: the row that the text spells, as it is printed.
pub fn put_row(alloc: Global, out: &mut String, text: &str) -> Done {
    match read_row(alloc, text.as_bytes()) {
        Ok(row) => put_printed(alloc, out, &row),
        Err(RowError::BadRow { word }) => Ok(write!(out, "bad row at word {word}")?),
        Err(RowError::SameLever) => Ok(out.push_str("same lever twice")?),
        Err(RowError::NoMemory) => Err(CaseFault::NoMemory),
    }
}

fn push_row(alloc: Global, table: &mut Table, text: &str) -> Done {
    match read_row(alloc, text.as_bytes()) {
        Ok(row) if table.len() < 1000 => Ok(table.push(row)?),
        _ => Err(CaseFault::Argument),
    }
}

fn push_rows(alloc: Global, table: &mut Table, texts: &str) -> Done {
    for text in texts.split("; ") {
        push_row(alloc, table, text)?;
    }
    Ok(())
}

/// The table of the rows that texts spell, of which `-` stands for none.
pub fn table_of(alloc: Global, texts: &str) -> Result<Table, CaseFault> {
    let mut table = Table::new(alloc);
    if texts == "-" {
        return Ok(table);
    }
    match push_rows(alloc, &mut table, texts) {
        Ok(()) => Ok(table),
        Err(fault) => {
            drop(table);
            Err(fault)
        }
    }
}

fn end_of(letter: u8) -> Result<End, CaseFault> {
    match letter {
        b'N' => Ok(End::Normal),
        b'R' => Ok(End::Reversed),
        _ => Err(CaseFault::Argument),
    }
}

fn push_ends(ends: &mut Vec<End>, letters: &[u8]) -> Done {
    for letter in letters {
        ends.push(end_of(*letter)?)?;
    }
    Ok(())
}

// Puts what holds a lever, as each of three questions tells it.
fn put_held(out: &mut String, table: &Table, ends: &[End], lever: u32) -> Done {
    if ends.len() != 8 || lever < 1 || 8 < lever || !table.fits(8) {
        return Err(CaseFault::Argument);
    }
    if !table.all_hold(ends) {
        return Ok(out.push_str("a row is broken")?);
    }
    let named = table.named_holder(ends, lever);
    if named != table.holder_among_its_rows(ends, lever) {
        return Ok(out.push_str("two answers")?);
    }
    match (named, table.holder(ends, lever)) {
        (Some(held), Some(row)) if held.row == row => {
            let by = held.lever;
            Ok(write!(out, "held by {by} in row {row}")?)
        }
        (None, None) => Ok(out.push_str("free")?),
        _ => Ok(out.push_str("two answers")?),
    }
}

/// `holder ROWS | ENDS LEVER`: what holds the lever where eight levers stand so.
pub fn put_holder(alloc: Global, out: &mut String, table: &Table, argument: &str) -> Done {
    let (letters, lever) = two_parts(argument, " ")?;
    let lever = number_of(lever)?;
    let mut ends = Vec::new(alloc);
    let done = match push_ends(&mut ends, letters.as_bytes()) {
        Ok(()) => put_held(out, table, &ends, lever),
        Err(fault) => Err(fault),
    };
    drop(ends);
    done
}
