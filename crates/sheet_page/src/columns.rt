//! The heads of the columns of a sheet.

ghost use Rattle.std.specs.Prelude.{◌≡◌, ◌++◌, ◌∷◌, ◌<◌, OnOk, length};
ghost use Rattle.mark_up.specs.declared.tags.Tag.TheVariants.{TableRow};
ghost use Rattle.sheet_page.specs.Columns.{advance_html, again_html, column_html, first_html, group_html, groups_html};
ghost use Rattle.sheet_page.specs.Columns.{head_html, neighbours_html, rear_html, row_start, second_html, tall_html};
ghost use Rattle.sheet_page.specs.Columns.{train_html, wide_html};

use mark_up::{Name, Page, Tag, Value};
use std::alloc::AllocError;

// What a head of a group is a head of.
const GROUP: &str = "colgroup";

// The columns of what is done with the box in the rear, and with the box in advance.
const REAR: &str = "With the box in the rear";

const ADVANCE: &str = "With the box in advance";

/// Begins a row of a table, on a line of its own.
#[tactic(auto, unfolding(crate::specs::Columns::row_start))]
pub fn begin_row(page: &mut Page) -> Result<(), AllocError>
    ensures text { OnOk result (page.new.text ≡ page.old.text ++ row_start) }
    ensures tags { OnOk result (page.new.open_tags ≡ TableRow ∷ page.old.open_tags) }
{
    page.say("\n")?;
    page.start(Tag::TableRow, &[])
}

// A group of so many columns.
#[tactic(auto, unfolding(crate::specs::Columns::group_html))]
fn put_group(page: &mut Page, count: u64) -> Result<(), AllocError>
    ensures text { OnOk result (page.new.text ≡ page.old.text ++ group_html count) }
    ensures tags { OnOk result (page.new.open_tags ≡ page.old.open_tags) }
{
    page.put_text(Tag::ColumnGroup, &[(Name::Span, Value::Number(count))], "")
}

/// Puts the groups of columns: the number and the description, and five for each neighbour.
#[tactic(auto, unfolding(crate::specs::Columns::groups_html))]
pub fn put_groups(page: &mut Page) -> Result<(), AllocError>
    ensures text { OnOk result (page.new.text ≡ page.old.text ++ groups_html) }
    ensures tags { OnOk result (page.new.open_tags ≡ page.old.open_tags) }
{
    put_group(page, 2)?;
    put_group(page, 5)?;
    put_group(page, 5)
}

// The head of a column beside those of groups.
#[tactic(auto, unfolding(crate::specs::Columns::tall_html))]
fn put_tall(page: &mut Page, name: &str) -> Result<(), AllocError>
    ensures text { OnOk result (page.new.text ≡ page.old.text ++ tall_html name.now) }
    ensures tags { OnOk result (page.new.open_tags ≡ page.old.open_tags) }
{
    page.put_text(
        Tag::HeadCell,
        &[
            (Name::Scope, Value::Text("col")),
            (Name::RowSpan, Value::Number(2)),
        ],
        name,
    )
}

// The head of a group of five columns.
#[tactic(auto, unfolding(crate::specs::Columns::wide_html))]
fn put_wide(page: &mut Page, name: &str) -> Result<(), AllocError>
    ensures text { OnOk result (page.new.text ≡ page.old.text ++ wide_html name.now) }
    ensures tags { OnOk result (page.new.open_tags ≡ page.old.open_tags) }
{
    page.put_text(
        Tag::HeadCell,
        &[
            (Name::Scope, Value::Text(GROUP)),
            (Name::ColumnSpan, Value::Number(5)),
        ],
        name,
    )
}

// The head of a column of a group.
#[tactic(auto, unfolding(crate::specs::Columns::column_html))]
fn put_column(page: &mut Page, name: &str) -> Result<(), AllocError>
    ensures text { OnOk result (page.new.text ≡ page.old.text ++ column_html name.now) }
    ensures tags { OnOk result (page.new.open_tags ≡ page.old.open_tags) }
{
    page.put_text(Tag::HeadCell, &[(Name::Scope, Value::Text("col"))], name)
}

// Whose sheet it is once more, for each page of paper.
#[tactic(auto, unfolding(crate::specs::Columns::again_html))]
fn put_again(page: &mut Page, title: &str) -> Result<(), AllocError>
    requires { 0 < length page.old.open_tags }
    ensures text { OnOk result (page.new.text ≡ page.old.text ++ again_html title.now) }
    ensures tags { OnOk result (page.new.open_tags ≡ page.old.open_tags) }
{
    begin_row(page)?;
    page.put_text(
        Tag::Cell,
        &[
            (Name::Class, Value::Text("again")),
            (Name::ColumnSpan, Value::Number(12)),
        ],
        title,
    )?;
    page.end()
}

// The heads of the columns of the number and the description.
#[tactic(auto, unfolding(crate::specs::Columns::train_html))]
fn put_train(page: &mut Page) -> Result<(), AllocError>
    ensures text { OnOk result (page.new.text ≡ page.old.text ++ train_html) }
    ensures tags { OnOk result (page.new.open_tags ≡ page.old.open_tags) }
{
    put_tall(page, "No")?;
    put_tall(page, "Description")
}

// The heads of the groups of both neighbours.
#[tactic(auto, unfolding(crate::specs::Columns::neighbours_html))]
fn put_neighbours(page: &mut Page) -> Result<(), AllocError>
    ensures text { OnOk result (page.new.text ≡ page.old.text ++ neighbours_html) }
    ensures tags { OnOk result (page.new.open_tags ≡ page.old.open_tags) }
{
    put_wide(page, REAR)?;
    put_wide(page, ADVANCE)
}

// The first line of heads.
#[tactic(auto, unfolding(crate::specs::Columns::first_html))]
fn put_first(page: &mut Page) -> Result<(), AllocError>
    requires { 0 < length page.old.open_tags }
    ensures text { OnOk result (page.new.text ≡ page.old.text ++ first_html) }
    ensures tags { OnOk result (page.new.open_tags ≡ page.old.open_tags) }
{
    begin_row(page)?;
    put_train(page)?;
    put_neighbours(page)?;
    page.end()
}

// The heads of the columns of the box in the rear.
#[tactic(auto, unfolding(crate::specs::Columns::rear_html))]
fn put_rear(page: &mut Page) -> Result<(), AllocError>
    ensures text { OnOk result (page.new.text ≡ page.old.text ++ rear_html) }
    ensures tags { OnOk result (page.new.open_tags ≡ page.old.open_tags) }
{
    put_column(page, "Offered")?;
    put_column(page, "Accepted")?;
    put_column(page, "Entering section")?;
    put_column(page, "Arrived")?;
    put_column(page, "Out of section")
}

// The heads of the columns of the box in advance.
#[tactic(auto, unfolding(crate::specs::Columns::advance_html))]
fn put_advance(page: &mut Page) -> Result<(), AllocError>
    ensures text { OnOk result (page.new.text ≡ page.old.text ++ advance_html) }
    ensures tags { OnOk result (page.new.open_tags ≡ page.old.open_tags) }
{
    put_column(page, "Offered")?;
    put_column(page, "Accepted")?;
    put_column(page, "Entering section")?;
    put_column(page, "Departed")?;
    put_column(page, "Out of section")
}

// The second line of heads.
#[tactic(auto, unfolding(crate::specs::Columns::second_html))]
fn put_second(page: &mut Page) -> Result<(), AllocError>
    requires { 0 < length page.old.open_tags }
    ensures text { OnOk result (page.new.text ≡ page.old.text ++ second_html) }
    ensures tags { OnOk result (page.new.open_tags ≡ page.old.open_tags) }
{
    begin_row(page)?;
    put_rear(page)?;
    put_advance(page)?;
    page.end()
}

/// Puts the head of a table: whose sheet it is once more, and two lines of heads.
#[tactic(auto, unfolding(crate::specs::Columns::head_html))]
pub fn put_head(page: &mut Page, title: &str) -> Result<(), AllocError>
    requires { 0 < length page.old.open_tags }
    ensures text { OnOk result (page.new.text ≡ page.old.text ++ head_html title.now) }
    ensures tags { OnOk result (page.new.open_tags ≡ page.old.open_tags) }
{
    page.start(Tag::TableHead, &[])?;
    put_again(page, title)?;
    put_first(page)?;
    put_second(page)?;
    page.end()
}
