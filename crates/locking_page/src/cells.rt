//! The cells of a lever's line.

ghost use Rattle.std.specs.Prelude.{◌≡◌, ◌++◌, ◌∷◌, ◌<◌, IfOk, OnOk, length, string_bytes};
ghost use Rattle.locking_page.specs.Cells.{column_text, converse_cell, is_in, number_text, object_text, other_at};
ghost use Rattle.locking_page.specs.Cells.{other_text, others_text, own_at, own_in, own_text, owns_text, part_start};
ghost use Rattle.locking_page.specs.Cells.{part_text};
ghost use Rattle.mark_up.specs.declared.tags.Tag.TheVariants.{Division};

use locking_sheet::{put_conds, put_converse};
use locking_table::{Row, RowKind};
use mark_up::{Name, Page, Tag, Value};
use std::alloc::{AllocError, Global};
use std::fmt::Write;

// ---- parts

// Begins a part with this class.
#[tactic(auto, unfolding(crate::specs::Cells::part_start))]
fn begin_part(page: &mut Page, class: &str) -> Result<(), AllocError>
    ensures text { OnOk result (page.new.text ≡ page.old.text ++ part_start class.now) }
    ensures tags { OnOk result (page.new.open_tags ≡ Division ∷ page.old.open_tags) }
{
    page.start(Tag::Division, &[(Name::Class, Value::Text(class))])
}

// Puts a part with this class and this text.
#[tactic(auto, unfolding(crate::specs::Cells::part_text, crate::specs::Cells::part_start))]
fn put_part(page: &mut Page, class: &str, said: &str) -> Result<(), AllocError>
    ensures text { OnOk result (page.new.text ≡ page.old.text ++ part_text class.now said.now) }
    ensures tags { OnOk result (page.new.open_tags ≡ page.old.open_tags) }
{
    page.put_text(Tag::Division, &[(Name::Class, Value::Text(class))], said)
}

// ---- the lever's own rows

// Whether a row of this kind stands in the column of that kind.
fn is_in(kind: RowKind, column: RowKind) -> bool
    ensures { result ≡ is_in kind column }
{
    match (kind, column) {
        (RowKind::LocksNormal, RowKind::LocksNormal) => true,
        (RowKind::ReleasedBy, RowKind::ReleasedBy) => true,
        (RowKind::LocksBoth, RowKind::LocksBoth) => true,
        _ => false,
    }
}

// What a row says under the heading of its column.
#[tactic(auto, unfolding(crate::specs::Cells::object_text))]
fn object_text(alloc: Global, row: &Row) -> Result<String, AllocError>
    ensures { IfOk result (λ text. string_bytes text ≡ object_text row.now) }
{
    let object = row.object;
    let mut text = String::new(alloc);
    write!(text, "{object}")?;
    put_conds(&mut text, row.when.as_slice())?;
    Ok(text)
}

// The number of a row, behind what it says.
#[tactic(auto, unfolding(crate::specs::Cells::number_text))]
fn number_text(alloc: Global, number: usize) -> Result<String, AllocError>
    ensures { IfOk result (λ text. string_bytes text ≡ number_text number) }
{
    let mut text = String::new(alloc);
    write!(text, " #{number};")?;
    Ok(text)
}

// Puts a row at its subject.
#[tactic(auto, unfolding(crate::specs::Cells::own_text))]
fn put_own(page: &mut Page, alloc: Global, number: usize, row: &Row) -> Result<(), AllocError>
    requires { 0 < length page.old.open_tags }
    ensures text { OnOk result (page.new.text ≡ page.old.text ++ own_text number row.now) }
    ensures tags { OnOk result (page.new.open_tags ≡ page.old.open_tags) }
{
    let object = object_text(alloc, row)?;
    let place = number_text(alloc, number)?;
    begin_part(page, "own")?;
    page.say(object.as_str())?;
    put_part(page, "number", place.as_str())?;
    page.end()
}

// Puts a row at its subject, in a column.
fn put_own_in(
    page: &mut Page,
    alloc: Global,
    column: RowKind,
    number: usize,
    row: &Row,
) -> Result<(), AllocError>
    requires { 0 < length page.old.open_tags }
    ensures text { OnOk result (page.new.text ≡ page.old.text ++ own_in column number row.now) }
    ensures tags { OnOk result (page.new.open_tags ≡ page.old.open_tags) }
{
    if is_in(row.kind, column) {
        put_own(page, alloc, number, row)
    } else {
        Ok(())
    }
}

// Puts one of a lever's own rows, in a column.
fn put_own_at(
    page: &mut Page,
    alloc: Global,
    rows: &[Row],
    column: RowKind,
    place: usize,
) -> Result<(), AllocError>
    requires { 0 < length page.old.open_tags }
    ensures text { OnOk result (page.new.text ≡ page.old.text ++ own_at rows.now column place) }
    ensures tags { OnOk result (page.new.open_tags ≡ page.old.open_tags) }
{
    if place < rows.len() {
        put_own_in(page, alloc, column, place + 1, &rows[place])
    } else {
        Ok(())
    }
}

// Puts a lever's own rows in a column.
fn put_owns(
    page: &mut Page,
    alloc: Global,
    rows: &[Row],
    column: RowKind,
    places: &[usize],
) -> Result<(), AllocError>
    requires { 0 < length page.old.open_tags }
    ensures text { OnOk result (page.new.text ≡ page.old.text ++ owns_text rows.now column places.now) }
    ensures tags { OnOk result (page.new.open_tags ≡ page.old.open_tags) }
{
    for place in places {
        put_own_at(page, alloc, rows, column, *place)?;
    }
    Ok(())
}

/// Puts the cell of a column, with those of a lever's own rows that stand in it.
#[tactic(auto, unfolding(crate::specs::Cells::column_text))]
pub fn put_column(
    page: &mut Page,
    alloc: Global,
    rows: &[Row],
    places: &[usize],
    column: RowKind,
) -> Result<(), AllocError>
    requires { 0 < length page.old.open_tags }
    ensures text { OnOk result (page.new.text ≡ page.old.text ++ column_text rows.now places.now column) }
    ensures tags { OnOk result (page.new.open_tags ≡ page.old.open_tags) }
{
    page.start(Tag::Cell, &[])?;
    put_owns(page, alloc, rows, column, places)?;
    page.end()
}

// ---- the converse

// Puts a row at its object.
#[tactic(auto, unfolding(crate::specs::Cells::other_text))]
fn put_other(page: &mut Page, alloc: Global, number: usize, row: &Row) -> Result<(), AllocError>
    ensures text { OnOk result (page.new.text ≡ page.old.text ++ other_text number row.now) }
    ensures tags { OnOk result (page.new.open_tags ≡ page.old.open_tags) }
{
    let mut said = String::new(alloc);
    put_converse(&mut said, number, row)?;
    put_part(page, "other", said.as_str())
}

// Puts one of the rows whose object a lever is.
fn put_other_at(
    page: &mut Page,
    alloc: Global,
    rows: &[Row],
    place: usize,
) -> Result<(), AllocError>
    ensures text { OnOk result (page.new.text ≡ page.old.text ++ other_at rows.now place) }
    ensures tags { OnOk result (page.new.open_tags ≡ page.old.open_tags) }
{
    if place < rows.len() {
        put_other(page, alloc, place + 1, &rows[place])
    } else {
        Ok(())
    }
}

// Puts the rows whose object a lever is.
fn put_others(
    page: &mut Page,
    alloc: Global,
    rows: &[Row],
    places: &[usize],
) -> Result<(), AllocError>
    ensures text { OnOk result (page.new.text ≡ page.old.text ++ others_text rows.now places.now) }
    ensures tags { OnOk result (page.new.open_tags ≡ page.old.open_tags) }
{
    for place in places {
        put_other_at(page, alloc, rows, *place)?;
    }
    Ok(())
}

/// Puts the cell of the converse: what rows of other levers make of a lever.
#[tactic(auto, unfolding(crate::specs::Cells::converse_cell))]
pub fn put_converse_cell(
    page: &mut Page,
    alloc: Global,
    rows: &[Row],
    places: &[usize],
) -> Result<(), AllocError>
    requires { 0 < length page.old.open_tags }
    ensures text { OnOk result (page.new.text ≡ page.old.text ++ converse_cell rows.now places.now) }
    ensures tags { OnOk result (page.new.open_tags ≡ page.old.open_tags) }
{
    page.start(Tag::Cell, &[])?;
    put_others(page, alloc, rows, places)?;
    page.end()
}
