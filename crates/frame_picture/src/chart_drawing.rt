//! The drawing of the locking chart, and of its rows as a list.

ghost use Rattle.std.specs.Prelude.{◌≡◌, ◌+◌, ◌++◌, ◌<◌, ◌≤◌, ◌^◌, IfOk, OnOk, length, string_bytes};
ghost use Rattle.frame_picture.specs.Channels.{bar_name, bar_text, bars_text, channel_text, channels_text};
ghost use Rattle.frame_picture.specs.Channels.{corner_text, dog_text, dogs_text, notch_corners, notch_letter};
ghost use Rattle.frame_picture.specs.Channels.{notch_text, notches_text, reach, row_line, rows_from, rows_head};
ghost use Rattle.frame_picture.specs.Channels.{rows_text, tappet_text, tappets_text, wedge_corners, wedge_text};
ghost use Rattle.locking_table.specs.Printing.{row_text};

use crate::places::{LINE, Layout, ROW_COLUMN, column_of};
use crate::scene::{Bar, LaidDog};
use bridle_frame::Notches;
use line_plan::Lever;
use locking_table::{Row, put_row};
use mark_up::Page;
use picture_shapes::{Point, begin_group, put_line, put_number, put_polygon, put_rect, put_words};
use std::alloc::{AllocError, Global};
use std::fmt::Write;

// Draws the groove of a channel, with its number.
#[tactic(auto, unfolding(crate::specs::Channels::channel_text))]
fn put_channel(
    page: &mut Page,
    alloc: Global,
    layout: &Layout,
    channel: u32,
) -> Result<(), AllocError>
    ensures text { OnOk result (page.new.text ≡ page.old.text ++ channel_text layout.now channel) }
    ensures tags { OnOk result (page.new.open_tags ≡ page.old.open_tags) }
{
    let y = layout.channel_at(channel);
    put_rect(
        page,
        "channel",
        Point::new(56, y + 6),
        layout.groove_length(),
        18,
    )?;
    put_number(page, alloc, "small end", Point::new(44, y + 19), channel)
}

/// Draws the grooves of the channels.
pub fn put_channels(page: &mut Page, alloc: Global, layout: &Layout) -> Result<(), AllocError>
    ensures text { OnOk result (page.new.text ≡ page.old.text ++ channels_text layout.now layout.now.channels) }
    ensures tags { OnOk result (page.new.open_tags ≡ page.old.open_tags) }
{
    for before in 0..layout.channels {
        put_channel(page, alloc, layout, before + 1)?;
    }
    Ok(())
}

// Draws the tappet of a lever, and the lever's number once more at its end.
#[tactic(auto, unfolding(crate::specs::Channels::tappet_text))]
fn put_tappet(page: &mut Page, alloc: Global, layout: &Layout, lever: u32) -> Result<(), AllocError>
    ensures text { OnOk result (page.new.text ≡ page.old.text ++ tappet_text layout.now lever) }
    ensures tags { OnOk result (page.new.open_tags ≡ page.old.open_tags) }
{
    let x = column_of(lever);
    let top = Point::new(x + 13, layout.tappets_top());
    put_rect(page, "tappet", top, 10, layout.tappet_length())?;
    put_number(
        page,
        alloc,
        "mid",
        Point::new(x + 18, layout.chart_end() + 28),
        lever,
    )
}

/// Draws the tappets, each below its lever.
pub fn put_tappets(
    page: &mut Page,
    alloc: Global,
    layout: &Layout,
    levers: &[Lever],
) -> Result<(), AllocError>
    ensures text { OnOk result (page.new.text ≡ page.old.text ++ tappets_text layout.now levers.now) }
    ensures tags { OnOk result (page.new.open_tags ≡ page.old.open_tags) }
{
    for lever in levers {
        put_tappet(page, alloc, layout, lever.number)?;
    }
    Ok(())
}

// Puts a corner of a figure.
#[tactic(auto, unfolding(crate::specs::Channels::corner_text))]
fn put_corner(out: &mut String, x: u64, y: u64) -> Result<(), AllocError>
    ensures { OnOk result (string_bytes out.new ≡ string_bytes out.old ++ corner_text x y) }
{
    write!(out, " {x},{y}")
}

// The corners of a notch in the tappet whose column begins at a point.
fn notch_corners(alloc: Global, at: Point) -> Result<String, AllocError>
    requires { (at.x < 2 ^ 40) × (at.y < 2 ^ 40) }
    ensures { IfOk result (λ text. string_bytes text ≡ notch_corners at) }
{
    let mut text = String::new(alloc);
    put_corner(&mut text, at.x + 13, at.y)?;
    put_corner(&mut text, at.x + 20, at.y + 7)?;
    put_corner(&mut text, at.x + 13, at.y + 14)?;
    Ok(text)
}

// Draws a notch, into which the nose of a dog fits that is drawn at this height.
#[tactic(auto, unfolding(crate::specs::Channels::notch_text))]
fn put_notch(page: &mut Page, alloc: Global, at: Point) -> Result<(), AllocError>
    requires { (at.x < 2 ^ 40) × (at.y < 2 ^ 40) }
    ensures text { OnOk result (page.new.text ≡ page.old.text ++ notch_text at) }
    ensures tags { OnOk result (page.new.open_tags ≡ page.old.open_tags) }
{
    let corners = notch_corners(alloc, at)?;
    put_polygon(page, "notch", corners.as_str())
}

// Draws the notches of a dog.
fn put_notches(
    page: &mut Page,
    alloc: Global,
    notches: Notches,
    at: Point,
) -> Result<(), AllocError>
    requires { (at.x < 2 ^ 39) × (at.y < 2 ^ 39) }
    ensures text { OnOk result (page.new.text ≡ page.old.text ++ notches_text notches at) }
    ensures tags { OnOk result (page.new.open_tags ≡ page.old.open_tags) }
{
    let for_normal = Point::new(at.x, at.y + 8);
    let for_reversed = Point::new(at.x, at.y + 22);
    match notches {
        Notches::Normal => put_notch(page, alloc, for_normal),
        Notches::Reversed => put_notch(page, alloc, for_reversed),
        Notches::Both => {
            put_notch(page, alloc, for_normal)?;
            put_notch(page, alloc, for_reversed)
        }
    }
}

// How far a dog reaches while its lever is normal: into its notch, or to the edge of the tappet.
fn reach(notches: Notches) -> u64
    ensures value { result ≡ reach notches }
    ensures least { 16 ≤ result }
    ensures most { result ≤ 19 }
{
    match notches {
        Notches::Normal | Notches::Both => 19,
        Notches::Reversed => 16,
    }
}

// The letter of a dog's notches.
fn notch_letter(notches: Notches) -> &'static str
    ensures { result.now ≡ notch_letter notches }
{
    match notches {
        Notches::Normal => "N",
        Notches::Reversed => "R",
        Notches::Both => "B",
    }
}

// The outline of a dog whose nose reaches to a point.
fn wedge_corners(alloc: Global, nose: Point) -> Result<String, AllocError>
    requires { (16 ≤ nose.x) × (nose.x < 2 ^ 40) × (nose.y < 2 ^ 40) }
    ensures { IfOk result (λ text. string_bytes text ≡ wedge_corners nose) }
{
    let mut text = String::new(alloc);
    put_corner(&mut text, nose.x - 16, nose.y + 1)?;
    put_corner(&mut text, nose.x - 6, nose.y + 1)?;
    put_corner(&mut text, nose.x, nose.y + 7)?;
    put_corner(&mut text, nose.x - 6, nose.y + 13)?;
    put_corner(&mut text, nose.x - 16, nose.y + 13)?;
    Ok(text)
}

// Draws a dog whose nose reaches to a point.
#[tactic(auto, unfolding(crate::specs::Channels::wedge_text))]
fn put_wedge(page: &mut Page, alloc: Global, nose: Point) -> Result<(), AllocError>
    requires { (16 ≤ nose.x) × (nose.x < 2 ^ 40) × (nose.y < 2 ^ 40) }
    ensures text { OnOk result (page.new.text ≡ page.old.text ++ wedge_text nose) }
    ensures tags { OnOk result (page.new.open_tags ≡ page.old.open_tags) }
{
    let corners = wedge_corners(alloc, nose)?;
    put_polygon(page, "dog", corners.as_str())
}

// Draws a dog in or before its tappet, with the notches that it has there: that for the lever at normal beside the dog,
// that for the lever reversed a stroke below.
#[tactic(auto, unfolding(crate::specs::Channels::dog_text))]
fn put_dog(page: &mut Page, alloc: Global, notches: Notches, at: Point) -> Result<(), AllocError>
    requires { (at.x < 2 ^ 39) × (at.y < 2 ^ 39) }
    ensures text { OnOk result (page.new.text ≡ page.old.text ++ dog_text notches at) }
    ensures tags { OnOk result (page.new.open_tags ≡ page.old.open_tags) }
{
    let nose = at.x + reach(notches);
    put_notches(page, alloc, notches, at)?;
    put_wedge(page, alloc, Point::new(nose, at.y + 8))?;
    put_words(
        page,
        "letter",
        Point::new(nose - 10, at.y + 18),
        notch_letter(notches),
    )
}

/// Draws the dogs of a row's bar.
pub fn put_dogs(
    page: &mut Page,
    alloc: Global,
    layout: &Layout,
    dogs: &[LaidDog],
) -> Result<(), AllocError>
    ensures text { OnOk result (page.new.text ≡ page.old.text ++ dogs_text layout.now dogs.now) }
    ensures tags { OnOk result (page.new.open_tags ≡ page.old.open_tags) }
{
    for dog in dogs {
        let at = Point::new(column_of(dog.lever), layout.channel_at(dog.channel));
        put_dog(page, alloc, dog.notches, at)?;
    }
    Ok(())
}

// What a row says.
fn row_words(alloc: Global, row: &Row) -> Result<String, AllocError>
    ensures { IfOk result (λ text. string_bytes text ≡ row_text row.now) }
{
    let mut text = String::new(alloc);
    put_row(&mut text, row)?;
    Ok(text)
}

// The name by which a bar is told: its row and its channel, and what the row says.
fn bar_name(alloc: Global, bar: Bar, row: &Row) -> Result<String, AllocError>
    ensures { IfOk result (λ text. string_bytes text ≡ bar_name bar row.now) }
{
    let words = row_words(alloc, row)?;
    let (number, channel, said) = (bar.row, bar.channel, words.as_str());
    let mut text = String::new(alloc);
    write!(text, "row {number}, channel {channel}: {said}")?;
    Ok(text)
}

// Draws a bar with its row's number.
#[tactic(auto, unfolding(crate::specs::Channels::bar_text))]
fn put_bar(
    page: &mut Page,
    alloc: Global,
    layout: &Layout,
    bar: Bar,
    row: &Row,
) -> Result<(), AllocError>
    requires { 0 < length page.old.open_tags }
    ensures text { OnOk result (page.new.text ≡ page.old.text ++ bar_text layout.now bar row.now) }
    ensures tags { OnOk result (page.new.open_tags ≡ page.old.open_tags) }
{
    let name = bar_name(alloc, bar, row)?;
    let (from, to) = (column_of(bar.lowest), column_of(bar.highest));
    let y = layout.channel_at(bar.channel);
    begin_group(page, name.as_str())?;
    put_line(
        page,
        "bridle",
        Point::new(from + 3, y + 15),
        Point::new(to + 13, y + 15),
    )?;
    put_number(page, alloc, "tiny", Point::new(from + 25, y + 12), bar.row)?;
    page.end()
}

/// Draws the bars, each in its channel, with their rows.
pub fn put_bars(
    page: &mut Page,
    alloc: Global,
    layout: &Layout,
    bars: &[Bar],
    rows: &[Row],
) -> Result<(), AllocError>
    requires root { 0 < length page.old.open_tags }
    requires each { length bars.now ≡ length rows.now }
    ensures text { OnOk result (page.new.text ≡ page.old.text ++ bars_text layout.now bars.now rows.now) }
    ensures tags { OnOk result (page.new.open_tags ≡ page.old.open_tags) }
{
    for (i, bar) in bars.iter().enumerate() {
        put_bar(page, alloc, layout, *bar, &rows[i])?;
    }
    Ok(())
}

// Puts a row at its place in the list.
#[tactic(auto, unfolding(crate::specs::Channels::row_line))]
fn put_row_line(
    page: &mut Page,
    alloc: Global,
    layout: &Layout,
    before: u32,
    row: &Row,
) -> Result<(), AllocError>
    requires { before + 1 < 2 ^ 32 }
    ensures text { OnOk result (page.new.text ≡ page.old.text ++ row_line layout.now before row.now) }
    ensures tags { OnOk result (page.new.open_tags ≡ page.old.open_tags) }
{
    let lines = layout.row_lines();
    let x = 48 + ROW_COLUMN * (before as u64 / lines);
    let y = layout.rows_top() + LINE * (before as u64 % lines);
    let text = row_words(alloc, row)?;
    put_number(page, alloc, "row end", Point::new(x + 24, y), before + 1)?;
    put_words(page, "row", Point::new(x + 32, y), text.as_str())
}

// Puts the rows, in order, in columns.
fn put_row_lines(
    page: &mut Page,
    alloc: Global,
    layout: &Layout,
    rows: &[Row],
) -> Result<(), AllocError>
    requires { length rows.now < 2 ^ 32 }
    ensures text { OnOk result (page.new.text ≡ page.old.text ++ rows_from layout.now 0 rows.now) }
    ensures tags { OnOk result (page.new.open_tags ≡ page.old.open_tags) }
{
    for (before, row) in rows.iter().enumerate() {
        put_row_line(page, alloc, layout, before as u32, row)?;
    }
    Ok(())
}

// Puts the heading of the rows.
#[tactic(auto, unfolding(crate::specs::Channels::rows_head))]
fn put_rows_head(page: &mut Page, layout: &Layout) -> Result<(), AllocError>
    ensures text { OnOk result (page.new.text ≡ page.old.text ++ rows_head layout.now) }
    ensures tags { OnOk result (page.new.open_tags ≡ page.old.open_tags) }
{
    let y = layout.rows_top() - 24;
    put_words(page, "sub", Point::new(48, y), "Rows of the locking table")
}

/// Puts the rows, under their heading.
#[tactic(auto, unfolding(crate::specs::Channels::rows_text))]
pub fn put_rows(
    page: &mut Page,
    alloc: Global,
    layout: &Layout,
    rows: &[Row],
) -> Result<(), AllocError>
    requires { length rows.now < 2 ^ 32 }
    ensures text { OnOk result (page.new.text ≡ page.old.text ++ rows_text layout.now rows.now) }
    ensures tags { OnOk result (page.new.open_tags ≡ page.old.open_tags) }
{
    put_rows_head(page, layout)?;
    put_row_lines(page, alloc, layout, rows)
}
