//! What is told of the cases and rows.

use crate::case_fault::{CaseFault, fault_text};
use crate::row_line::RowLine;
use crate::worked_case::Answer;
use anyhow::{Error, anyhow};
use std::{fmt, io};

/// How many cases or rows there were, and how many of them agree.
#[derive(Clone, Copy)]
pub struct Tally {
    worked: u64,
    agree: u64,
}

impl Tally {
    /// None so far.
    pub fn new() -> Tally {
        Tally {
            worked: 0,
            agree: 0,
        }
    }

    /// Counts a case or a row.
    pub fn count(&mut self, agrees: bool) {
        self.worked = self.worked.saturating_add(1);
        if agrees {
            self.agree = self.agree.saturating_add(1);
        }
    }

    /// Whether all agree.
    pub fn all_agree(&self) -> bool {
        self.worked == self.agree
    }
}

impl fmt::Display for Tally {
    fn fmt<W: fmt::Write>(&self, f: &mut fmt::Formatter<W>) -> fmt::Result {
        let worked = self.worked;
        let agree = self.agree;
        write!(f, "{worked} agree {agree}")
    }
}

/// A line that isn't written as it has to be.
pub fn refused(path: &str, number: usize, fault: CaseFault) -> Error {
    let what = fault_text(fault);
    anyhow!("{path} line {number}: {what}")
}

/// A file whose end isn't as it has to be.
pub fn refused_at_end(path: &str, fault: CaseFault) -> Error {
    let what = fault_text(fault);
    anyhow!("{path} at its end: {what}")
}

// The number, from 1, of the first line in which two outputs differ, and that line of each.
fn first_difference<'a>(wanted: &'a str, came: &'a str) -> Option<(usize, &'a str, &'a str)> {
    let mut came_lines = came.split('\n');
    for (before, wanted_line) in wanted.split('\n').enumerate() {
        let came_line = came_lines.next().unwrap_or("");
        if wanted_line != came_line {
            return Some((before.saturating_add(1), wanted_line, came_line));
        }
    }
    None
}

// An output as text.
fn shown(output: &[u8]) -> &str {
    std::str::from_utf8(output).unwrap_or("(no text)")
}

// Tells the first line in which an output differs, where it does.
fn tell_output<R: Print + Alloc>(rt: &R, what: &str, wanted: &[u8], came: &[u8]) -> io::Result<()> {
    match first_difference(shown(wanted), shown(came)) {
        Some((number, wanted, came)) => {
            println!(rt; "  {what}line {number} wanted: {wanted}")?;
            println!(rt; "  {what}line {number} came:   {came}")
        }
        None if wanted != came => println!(rt; "  {what}more lines came than are wanted"),
        None => Ok(()),
    }
}

/// Tells a case that differs: its name, the status where it isn't the one wanted, and the first line that differs of
/// what is printed and of what is told.
pub fn tell_case<R: Print + Alloc>(
    rt: &R,
    name: &str,
    wanted: &Answer,
    came: &Answer,
) -> io::Result<()> {
    println!(rt; "differs: {name}")?;
    if wanted.status != came.status {
        let wanted = wanted.status;
        let came = came.status;
        println!(rt; "  status {wanted} is wanted, {came} came")?;
    }
    tell_output(rt, "", &wanted.output, &came.output)?;
    tell_output(rt, "told: ", &wanted.told, &came.told)
}

/// Tells a row that differs: its file and line, the answer that is wanted, and the one that came.
pub fn tell_row<R: Print + Alloc>(
    rt: &R,
    path: &str,
    number: usize,
    row: RowLine<'_>,
    came: &str,
) -> io::Result<()> {
    println!(rt; "differs: {path} line {number}")?;
    let wanted = row.wanted;
    println!(rt; "  wanted: {wanted}")?;
    println!(rt; "  came:   {came}")
}
