//! The text of a row.

ghost use Rattle.std.specs.Prelude.{◌≡◌, ◌++◌, IfOk, OnOk};
ghost use Rattle.csv.specs.Writing.{default_writer, row_text};

use crate::row::Row;
use csv::{Error, WriterBuilder};
use std::alloc::{AllocError, Global};

// The text of a row.
fn row_bytes(alloc: Global, row: &Row) -> Result<Vec<u8>, Error>
    ensures { IfOk result (λ text. text.items ≡ row_text default_writer row.now) }
{
    let mut writer = WriterBuilder::new().from_writer(Vec::new(alloc));
    writer.write_byte_record(row.record())?;
    match writer.into_inner() {
        Ok(text) => Ok(text),
        Err(fault) => Err(fault.into_error()),
    }
}

/// Puts a row behind a text: its fields with a comma between each two, a field in quotes where it has to be, and the
/// line's end. Where memory runs out a part of the row may stand behind the text.
pub fn put_row(out: &mut Vec<u8>, row: &Row) -> Result<(), AllocError>
    ensures { OnOk result (out.new.items ≡ out.old.items ++ row_text default_writer row.now) }
{
    match row_bytes(*out.allocator(), row) {
        Ok(text) => out.extend_from_slice(&text),
        Err(_) => Err(AllocError),
    }
}
