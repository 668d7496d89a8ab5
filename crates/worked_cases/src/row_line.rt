//! The lines of a file of rows.

use crate::case_fault::CaseFault;

/// A row as its line spells it.
#[derive(Clone, Copy)]
pub struct RowLine<'a> {
    /// The word of the call.
    pub call: &'a str,
    /// What the call is asked.
    pub argument: &'a str,
    /// The answer that is wanted.
    pub wanted: &'a str,
}

/// Reads a line, without its end: a row, or nothing of an empty line or a comment.
pub fn read_row_line(line: &str) -> Result<Option<RowLine<'_>>, CaseFault> {
    if line.is_empty() || line.starts_with('#') {
        return Ok(None);
    }
    match line.rsplit_once(" -> ") {
        Some((asked, wanted)) => {
            let (call, argument) = asked.split_once(' ').unwrap_or((asked, ""));
            Ok(Some(RowLine {
                call,
                argument,
                wanted,
            }))
        }
        None => Err(CaseFault::NoRow),
    }
}
