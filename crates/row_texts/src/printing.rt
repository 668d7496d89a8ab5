//! Rows as the lines of a plan, and why a text is refused, in words.

ghost use Rattle.std.specs.Prelude.{◌≡◌, ◌++◌, IfOk, OnOk, string_bytes};
ghost use Rattle.std.specs.List.{flat_map};
ghost use Rattle.row_texts.specs.Printing.{cause_sentence, row_line, row_lines};

use crate::cause::RowsCause;
use locking_table::{NoMemory, Row, put_row};
use std::alloc::{AllocError, Global};

#[tactic(auto, unfolding(crate::specs::Printing::row_line))]
fn put_row_line(out: &mut String, row: &Row) -> Result<(), AllocError>
    ensures { OnOk result (string_bytes out.new ≡ string_bytes out.old ++ row_line row.now) }
{
    out.push_str("row ")?;
    put_row(out, row)?;
    out.push_str("\n")
}

fn put_row_lines(out: &mut String, rows: &[Row]) -> Result<(), AllocError>
    ensures { OnOk result (string_bytes out.new ≡ string_bytes out.old ++ row_lines rows.now) }
{
    for row in rows {
        put_row_line(out, row)?;
    }
    Ok(())
}

/// The `row` lines of a plan with these rows.
pub fn row_lines(alloc: Global, rows: &[Row]) -> Result<String, NoMemory>
    ensures { IfOk result (λ text. string_bytes text ≡ row_lines rows.now) }
{
    let mut out = String::new(alloc);
    put_row_lines(&mut out, rows)?;
    Ok(out)
}

/// Why a text is refused, as a sentence.
pub fn cause_sentence(cause: RowsCause) -> &'static str
    ensures { result.now ≡ cause_sentence cause }
{
    match cause {
        RowsCause::NoLever =>
            "a line begins with the number of a lever, from 1 to 120, and a colon",
        RowsCause::Colon =>
            "a colon stands behind the number of the line's lever, and nowhere else",
        RowsCause::NoVerb =>
            "an item begins with `rel`, `locks` or `both`, or with the number of its row, from #1 to #9999",
        RowsCause::NoObject =>
            "behind `rel`, `locks` or `both` stand the numbers of levers, from 1 to 120",
        RowsCause::NoCondition =>
            "behind `when` or `and` stands the number of a lever, from 1 to 120",
        RowsCause::NoEnd =>
            "behind the lever of a condition stands `n` for normal or `r` for reversed",
        RowsCause::NoMore =>
            "behind a condition stands `and` with a second and last one, or a semicolon",
        RowsCause::CutShort => "an item ends too early",
        RowsCause::SameLever => "all levers of a row differ",
    }
}
