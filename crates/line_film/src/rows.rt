//! The entries of a journal, as rows of a table.

ghost use Rattle.std.specs.Prelude.{◌≡◌, ◌++◌, ◌∷◌, ◌<◌, [], OnOk, length, option_map};
ghost use Rattle.line_film.specs.Rows.{body_html, call_cells, cell_html, class_of, column_html, columns_html};
ghost use Rattle.line_film.specs.Rows.{deed_columns, entry_html, entry_start, heads_html, journal_html, number_html};
ghost use Rattle.line_film.specs.Rows.{place_columns, rows_html, says_text};
ghost use Rattle.mark_up.specs.declared.tags.Tag.TheVariants.{TableRow};

use entry_records::EntryWords;
use itoa::Buffer;
use mark_up::{Name, Page, Tag, Value};
use std::alloc::AllocError;

// ---- an entry

// Begins the row of an entry, on a line of its own; one that is refused is marked.
#[tactic(auto, unfolding(crate::specs::Rows::entry_start))]
fn begin_entry(page: &mut Page, class: &str) -> Result<(), AllocError>
    ensures text { OnOk result (page.new.text ≡ page.old.text ++ entry_start class.now) }
    ensures tags { OnOk result (page.new.open_tags ≡ TableRow ∷ page.old.open_tags) }
{
    page.say("\n")?;
    page.start(Tag::TableRow, &[(Name::Class, Value::Text(class))])
}

// Puts the number of an entry, which is the head of its row.
#[tactic(auto, unfolding(crate::specs::Rows::number_html))]
fn put_number(page: &mut Page, number: u64) -> Result<(), AllocError>
    ensures text { OnOk result (page.new.text ≡ page.old.text ++ number_html number) }
    ensures tags { OnOk result (page.new.open_tags ≡ page.old.open_tags) }
{
    let mut buffer = Buffer::new();
    page.put_text(
        Tag::HeadCell,
        &[(Name::Scope, Value::Text("row"))],
        buffer.format(number),
    )
}

// Puts what is told in a column.
#[tactic(auto, unfolding(crate::specs::Rows::cell_html))]
fn put_cell(page: &mut Page, text: &str) -> Result<(), AllocError>
    ensures text { OnOk result (page.new.text ≡ page.old.text ++ cell_html text.now) }
    ensures tags { OnOk result (page.new.open_tags ≡ page.old.open_tags) }
{
    page.put_text(Tag::Cell, &[], text)
}

// Puts the box, the moment, the call and the reply of an entry.
#[tactic(auto, unfolding(crate::specs::Rows::call_cells))]
fn put_call_cells(page: &mut Page, words: &EntryWords<'_>) -> Result<(), AllocError>
    ensures text { OnOk result (page.new.text ≡ page.old.text ++ call_cells words.now) }
    ensures tags { OnOk result (page.new.open_tags ≡ page.old.open_tags) }
{
    put_cell(page, words.box_name)?;
    put_cell(page, words.at.as_str())?;
    put_cell(page, words.call.as_str())?;
    put_cell(page, words.reply.as_str())
}

// How a row is marked.
fn class_of(is_done: bool) -> &'static str
    ensures { result.now ≡ class_of is_done }
{
    if is_done { "done" } else { "refused" }
}

// A sentence, or nothing.
fn says_text<'a>(says: Option<&'a str>) -> &'a str
    ensures { result.now ≡ says_text (option_map (λ t. t.now) says.entry) }
{
    match says {
        Some(says) => says,
        None => "",
    }
}

// Puts the row of an entry.
#[tactic(auto, unfolding(crate::specs::Rows::entry_html))]
fn put_entry(page: &mut Page, words: &EntryWords<'_>) -> Result<(), AllocError>
    requires { 0 < length page.old.open_tags }
    ensures text { OnOk result (page.new.text ≡ page.old.text ++ entry_html words.now) }
    ensures tags { OnOk result (page.new.open_tags ≡ page.old.open_tags) }
{
    begin_entry(page, class_of(words.is_done))?;
    put_number(page, words.n)?;
    put_call_cells(page, words)?;
    put_cell(page, says_text(words.says.as_deref()))?;
    page.end()
}

// Puts the rows of entries, in order.
fn put_rows(page: &mut Page, told: &[EntryWords<'_>]) -> Result<(), AllocError>
    requires { 0 < length page.old.open_tags }
    ensures text { OnOk result (page.new.text ≡ page.old.text ++ rows_html told.now) }
    ensures tags { OnOk result (page.new.open_tags ≡ page.old.open_tags) }
{
    for words in told {
        put_entry(page, words)?;
    }
    Ok(())
}

// ---- the table

// Puts the head of a column.
#[tactic(auto, unfolding(crate::specs::Rows::column_html))]
fn put_column(page: &mut Page, name: &str) -> Result<(), AllocError>
    ensures text { OnOk result (page.new.text ≡ page.old.text ++ column_html name.now) }
    ensures tags { OnOk result (page.new.open_tags ≡ page.old.open_tags) }
{
    page.put_text(Tag::HeadCell, &[(Name::Scope, Value::Text("col"))], name)
}

// Puts the heads of the columns that say where an entry stands.
#[tactic(auto, unfolding(crate::specs::Rows::place_columns))]
fn put_place_columns(page: &mut Page) -> Result<(), AllocError>
    ensures text { OnOk result (page.new.text ≡ page.old.text ++ place_columns) }
    ensures tags { OnOk result (page.new.open_tags ≡ page.old.open_tags) }
{
    put_column(page, "No")?;
    put_column(page, "Box")?;
    put_column(page, "Time")
}

// Puts the heads of those that say what was done.
#[tactic(auto, unfolding(crate::specs::Rows::deed_columns))]
fn put_deed_columns(page: &mut Page) -> Result<(), AllocError>
    ensures text { OnOk result (page.new.text ≡ page.old.text ++ deed_columns) }
    ensures tags { OnOk result (page.new.open_tags ≡ page.old.open_tags) }
{
    put_column(page, "Call")?;
    put_column(page, "Reply")?;
    put_column(page, "Why it is refused")
}

// Puts the heads of the columns.
#[tactic(auto, unfolding(crate::specs::Rows::columns_html))]
fn put_columns(page: &mut Page) -> Result<(), AllocError>
    ensures text { OnOk result (page.new.text ≡ page.old.text ++ columns_html) }
    ensures tags { OnOk result (page.new.open_tags ≡ page.old.open_tags) }
{
    put_place_columns(page)?;
    put_deed_columns(page)
}

// Puts the head of the table.
#[tactic(auto, unfolding(crate::specs::Rows::heads_html))]
fn put_heads(page: &mut Page) -> Result<(), AllocError>
    requires { 0 < length page.old.open_tags }
    ensures text { OnOk result (page.new.text ≡ page.old.text ++ heads_html) }
    ensures tags { OnOk result (page.new.open_tags ≡ page.old.open_tags) }
{
    page.start(Tag::TableHead, &[])?;
    page.start(Tag::TableRow, &[])?;
    put_columns(page)?;
    page.end()?;
    page.end()
}

// Puts the body of the table.
#[tactic(auto, unfolding(crate::specs::Rows::body_html))]
fn put_body(page: &mut Page, told: &[EntryWords<'_>]) -> Result<(), AllocError>
    requires { 0 < length page.old.open_tags }
    ensures text { OnOk result (page.new.text ≡ page.old.text ++ body_html told.now) }
    ensures tags { OnOk result (page.new.open_tags ≡ page.old.open_tags) }
{
    page.start(Tag::TableBody, &[(Name::Id, Value::Text("journal"))])?;
    put_rows(page, told)?;
    page.end()
}

/// Puts the table of the entries: of each its number, box, moment, call and reply, and a sentence where it is refused.
#[tactic(auto, unfolding(crate::specs::Rows::journal_html))]
pub fn put_journal(page: &mut Page, told: &[EntryWords<'_>]) -> Result<(), AllocError>
    requires { 0 < length page.old.open_tags }
    ensures text { OnOk result (page.new.text ≡ page.old.text ++ journal_html told.now) }
    ensures tags { OnOk result (page.new.open_tags ≡ page.old.open_tags) }
{
    page.start(Tag::Division, &[(Name::Id, Value::Text("entries"))])?;
    page.start(Tag::Table, &[])?;
    put_heads(page)?;
    put_body(page, told)?;
    page.end()?;
    page.end()
}
