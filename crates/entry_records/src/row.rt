//! The row of an entry, and the names of its columns.

ghost use Rattle.std.specs.Prelude.{◌≡◌, ◌++◌, [], IfOk, OnOk, decimal, option_map};
ghost use Rattle.csv.specs.Writing.{default_writer, row_text};
ghost use Rattle.entry_records.specs.Rows.{call_fields, columns, entry_row, field_if, flag_text};

use crate::words::EntryWords;
use csv_rows::{Row, put_row};
use itoa::Buffer;
use std::alloc::{AllocError, Global};

// True or false, as JSON has them.
fn flag_word(flag: bool) -> &'static str
    ensures { result.now ≡ flag_text flag }
{
    if flag { "true" } else { "false" }
}

// A text, or nothing.
fn text_or_nothing<'a>(text: Option<&'a str>) -> &'a str
    ensures { result.now ≡ field_if (option_map (λ t. t.now) text.entry) }
{
    match text {
        Some(text) => text,
        None => "",
    }
}

// A number as a text, or nothing.
fn number_or_nothing<'b>(buffer: &'b mut Buffer, number: Option<u32>) -> &'b str
    ensures { result.now ≡ field_if (option_map (λ n. decimal n) number) }
{
    match number {
        Some(number) => buffer.format(number),
        None => "",
    }
}

// Puts what names the call into a row: the number, the box, the moment, the call and the reply.
fn put_call_fields(row: &mut Row, words: &EntryWords<'_>) -> Result<(), AllocError>
    requires { row.old ≡ [] }
    ensures { OnOk result (row.new ≡ call_fields words.now) }
{
    let mut number = Buffer::new();
    row.put(number.format(words.n))?;
    row.put(words.box_name)?;
    row.put(words.at.as_str())?;
    row.put(words.call.as_str())?;
    row.put(words.reply.as_str())
}

// Puts what the reply tells behind that: whether it is done, the lever, the place, the train, and what is said.
fn put_reply_fields(row: &mut Row, words: &EntryWords<'_>) -> Result<(), AllocError>
    requires { row.old ≡ call_fields words.now }
    ensures { OnOk result (row.new ≡ entry_row words.now) }
{
    let mut lever = Buffer::new();
    row.put(flag_word(words.is_done))?;
    row.put(number_or_nothing(&mut lever, words.lever))?;
    row.put(text_or_nothing(words.place))?;
    row.put(text_or_nothing(words.train))?;
    row.put(text_or_nothing(words.says.as_deref()))
}

/// Puts the row of an entry behind a text: a field for each column.
pub fn put_words_row(out: &mut Vec<u8>, words: &EntryWords<'_>) -> Result<(), AllocError>
    ensures { OnOk result (out.new.items ≡ out.old.items ++ row_text default_writer (entry_row words.now)) }
{
    let mut row = Row::new(*out.allocator());
    put_call_fields(&mut row, words)?;
    put_reply_fields(&mut row, words)?;
    put_row(out, &row)
}

// The row of the names of the columns.
fn columns_row(alloc: Global) -> Result<Row, AllocError>
    ensures { IfOk result (λ row. row ≡ columns) }
{
    let mut row = Row::new(alloc);
    row.put("n")?;
    row.put("box")?;
    row.put("at")?;
    row.put("call")?;
    row.put("reply")?;
    row.put("done")?;
    row.put("lever")?;
    row.put("place")?;
    row.put("train")?;
    row.put("says")?;
    Ok(row)
}

/// Puts the names of the columns behind a text.
pub fn put_columns(out: &mut Vec<u8>) -> Result<(), AllocError>
    ensures { OnOk result (out.new.items ≡ out.old.items ++ row_text default_writer columns) }
{
    let row = columns_row(*out.allocator())?;
    put_row(out, &row)
}
