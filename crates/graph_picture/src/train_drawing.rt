//! The drawing of the lines of trains.

ghost use Rattle.std.specs.Prelude.{◌≡◌, ◌++◌, ◌<◌, ◌^◌, IfOk, OnOk, codes, length, string_bytes};
ghost use Rattle.graph_picture.specs.Places.{point};
ghost use Rattle.graph_picture.specs.Trains.{away_text, cleared_by, clears, coming_text, corner_text, corners_at};
ghost use Rattle.graph_picture.specs.Trains.{corners_text, danger_text, deed_text, deeds_text, divided_text};
ghost use Rattle.graph_picture.specs.Trains.{going_text, leaving_text, level_after, line_class, line_name, lines_text};
ghost use Rattle.graph_picture.specs.Trains.{name_text, overrun_text, parting_text, polyline_text, portion_text};
ghost use Rattle.graph_picture.specs.Trains.{stand_at, stay_text, stop_text, train_text, warning_text};

use crate::layout::{Layout, end_at, entry_at, right_end};
use block_words::Way;
use graph_scene::{Axis, Deed, TrainDeed, TrainLine, train_name};
use line_plan::Plan;
use mark_up::{EmptyTag, Name, Page, Value};
use picture_shapes::{Point, begin_group, put_line, put_polygon, put_rect, put_words};
use std::alloc::{AllocError, Global};
use std::fmt::Write;

// Puts a corner of a line or a figure.
#[tactic(auto, unfolding(crate::specs::Trains::corner_text))]
fn put_corner(out: &mut String, at: Point) -> Result<(), AllocError>
    ensures { OnOk result (string_bytes out.new ≡ string_bytes out.old ++ corner_text at) }
{
    let (x, y) = (at.x, at.y);
    write!(out, " {x},{y}")
}

// Where a train stands at a box as an entry is made.
fn stand_at(layout: &Layout, axis: &Axis, its: &TrainDeed, place: u32) -> Point
    ensures value { result ≡ stand_at layout.now axis.now its.now.entry its.now.box_no place }
    ensures most { (result.x < 2 ^ 62) × (result.y < 2 ^ 41) }
{
    Point::new(
        entry_at(axis, its.entry),
        layout.level_at(its.box_no, place),
    )
}

// Puts two corners of a line, one above the other.
fn put_corners(out: &mut String, x: u64, first: u64, then: u64) -> Result<(), AllocError>
    ensures { OnOk result (string_bytes out.new
        ≡ string_bytes out.old ++ corner_text (point x first) ++ corner_text (point x then)) }
{
    put_corner(out, Point::new(x, first))?;
    put_corner(out, Point::new(x, then))
}

// Puts the corners of a train's line at a deed.
fn put_corners_at(
    out: &mut String,
    layout: &Layout,
    axis: &Axis,
    its: &TrainDeed,
) -> Result<(), AllocError>
    ensures { OnOk result (string_bytes out.new ≡ string_bytes out.old ++ corners_at layout.now axis.now its.now) }
{
    let (x, b) = (entry_at(axis, its.entry), its.box_no);
    match its.deed {
        Deed::Brought { place } => put_corner(out, Point::new(x, layout.level_at(b, place))),
        Deed::Passed { from, to, .. } => {
            put_corners(out, x, layout.level_at(b, from), layout.level_at(b, to))
        }
        Deed::Entered { from, way, .. } => {
            put_corners(
                out,
                x,
                layout.level_at(b, from),
                layout.leaving_edge(b, way),
            )
        }
        Deed::Away { from, .. } => put_corner(out, Point::new(x, layout.level_at(b, from))),
        Deed::Berthed { place, way } | Deed::PartBerthed { place, way } => {
            put_corners(
                out,
                x,
                layout.coming_edge(b, way),
                layout.level_at(b, place),
            )
        }
        Deed::Cleared { .. } => Ok(()),
    }
}

// The level at which a train stands after a deed, if it stands.
fn level_after(layout: &Layout, before: Option<u64>, its: &TrainDeed) -> Option<u64>
    ensures { result ≡ level_after layout.now its.now.box_no before its.now.deed }
{
    match its.deed {
        Deed::Brought { place } | Deed::Berthed { place, .. } | Deed::PartBerthed { place, .. } => {
            Some(layout.level_at(its.box_no, place))
        }
        Deed::Passed { to, .. } => Some(layout.level_at(its.box_no, to)),
        Deed::Entered { .. } | Deed::Away { .. } => None,
        Deed::Cleared { .. } => before,
    }
}

// Puts the last corner of the line of a train that stands at this level.
fn put_stay(out: &mut String, axis: &Axis, level: Option<u64>) -> Result<(), AllocError>
    ensures { OnOk result (string_bytes out.new ≡ string_bytes out.old ++ stay_text axis.now level) }
{
    match level {
        Some(y) => put_corner(out, Point::new(right_end(axis), y)),
        None => Ok(()),
    }
}

// The corners of a train's line.
fn corners_text(
    alloc: Global,
    layout: &Layout,
    axis: &Axis,
    deeds: &[TrainDeed],
) -> Result<String, AllocError>
    ensures { IfOk result (λ text. string_bytes text ≡ corners_text layout.now axis.now deeds.now) }
{
    let mut text = String::new(alloc);
    let mut level = None;
    for its in deeds {
        put_corners_at(&mut text, layout, axis, its)?;
        level = level_after(layout, level, its);
    }
    put_stay(&mut text, axis, level)?;
    Ok(text)
}

// The class of a train's line.
#[tactic(auto, unfolding(crate::specs::Trains::line_class))]
fn line_class(alloc: Global, train: u32) -> Result<String, AllocError>
    ensures { IfOk result (λ text. string_bytes text ≡ line_class train) }
{
    let colour = train % 6;
    format!(in alloc; "train t{colour}")
}

// Draws a line with these corners.
#[tactic(auto, unfolding(crate::specs::Trains::polyline_text))]
fn put_polyline(page: &mut Page, class: &str, corners: &str) -> Result<(), AllocError>
    ensures text { OnOk result (page.new.text ≡ page.old.text ++ polyline_text class.now corners.now) }
    ensures tags { OnOk result (page.new.open_tags ≡ page.old.open_tags) }
{
    page.put(
        EmptyTag::Polyline,
        &[
            (Name::Class, Value::Text(class)),
            (Name::Points, Value::Text(corners)),
        ],
    )
}

// Puts the name of a train that comes to a stand.
fn put_name(page: &mut Page, name: &str, at: Point) -> Result<(), AllocError>
    requires { at.x < 2 ^ 62 }
    ensures text { OnOk result (page.new.text ≡ page.old.text ++ name_text name.now at) }
    ensures tags { OnOk result (page.new.open_tags ≡ page.old.open_tags) }
{
    put_words(
        page,
        "label",
        Point::new(at.x + 7, at.y.saturating_sub(4)),
        name,
    )
}

// Draws a small square where a train comes or goes.
#[tactic(auto, unfolding(crate::specs::Trains::stop_text))]
fn put_stop(page: &mut Page, at: Point) -> Result<(), AllocError>
    ensures text { OnOk result (page.new.text ≡ page.old.text ++ stop_text at) }
    ensures tags { OnOk result (page.new.open_tags ≡ page.old.open_tags) }
{
    let corner = Point::new(at.x.saturating_sub(2), at.y.saturating_sub(2));
    put_rect(page, "stop", corner, 5, 5)
}

// Draws the arrow head of a train that goes away.
#[tactic(auto, unfolding(crate::specs::Trains::away_text))]
fn put_away(page: &mut Page, alloc: Global, at: Point) -> Result<(), AllocError>
    requires { (at.x < 2 ^ 62) × (at.y < 2 ^ 60) }
    ensures text { OnOk result (page.new.text ≡ page.old.text ++ away_text at) }
    ensures tags { OnOk result (page.new.open_tags ≡ page.old.open_tags) }
{
    let mut corners = String::new(alloc);
    put_corner(&mut corners, Point::new(at.x, at.y.saturating_sub(5)))?;
    put_corner(&mut corners, Point::new(at.x + 6, at.y))?;
    put_corner(&mut corners, Point::new(at.x, at.y + 5))?;
    put_polygon(page, "stop", corners.as_str())
}

// Puts words of warning beside a mark.
fn put_warning(page: &mut Page, at: Point, words: &str) -> Result<(), AllocError>
    requires { (at.x < 2 ^ 62) × (at.y < 2 ^ 60) }
    ensures text { OnOk result (page.new.text ≡ page.old.text ++ warning_text at words.now) }
    ensures tags { OnOk result (page.new.open_tags ≡ page.old.open_tags) }
{
    put_words(
        page,
        "warning",
        Point::new(at.x + 7, at.y.saturating_sub(4)),
        words,
    )
}

// Draws the mark of a signal passed at danger.
#[tactic(auto, unfolding(crate::specs::Trains::danger_text))]
fn put_danger(page: &mut Page, alloc: Global, at: Point) -> Result<(), AllocError>
    requires { (at.x < 2 ^ 62) × (at.y < 2 ^ 60) }
    ensures text { OnOk result (page.new.text ≡ page.old.text ++ danger_text at) }
    ensures tags { OnOk result (page.new.open_tags ≡ page.old.open_tags) }
{
    let mut corners = String::new(alloc);
    put_corner(&mut corners, Point::new(at.x, at.y.saturating_sub(6)))?;
    put_corner(&mut corners, Point::new(at.x + 6, at.y + 4))?;
    put_corner(&mut corners, Point::new(at.x.saturating_sub(6), at.y + 4))?;
    put_polygon(page, "danger", corners.as_str())?;
    put_warning(page, at, "overrun")
}

// Draws it where there was an overrun.
fn put_overrun(page: &mut Page, alloc: Global, at_danger: bool, at: Point) -> Result<(), AllocError>
    requires { (at.x < 2 ^ 62) × (at.y < 2 ^ 60) }
    ensures text { OnOk result (page.new.text ≡ page.old.text ++ overrun_text at_danger at) }
    ensures tags { OnOk result (page.new.open_tags ≡ page.old.open_tags) }
{
    if at_danger {
        put_danger(page, alloc, at)?;
    }
    Ok(())
}

// The words beside the mark of a divided train.
fn divided_words(alloc: Global, name: &str) -> Result<String, AllocError>
    ensures { IfOk result (λ text. string_bytes text ≡ name.now ++ codes " divided") }
{
    let mut text = String::new(alloc);
    text.push_str(name)?;
    text.push_str(" divided")?;
    Ok(text)
}

// Draws the mark of a divided train, with its name.
#[tactic(auto, unfolding(crate::specs::Trains::divided_text))]
fn put_divided(page: &mut Page, alloc: Global, name: &str, at: Point) -> Result<(), AllocError>
    requires { (at.x < 2 ^ 62) × (at.y < 2 ^ 60) }
    ensures text { OnOk result (page.new.text ≡ page.old.text ++ divided_text name.now at) }
    ensures tags { OnOk result (page.new.open_tags ≡ page.old.open_tags) }
{
    let mut corners = String::new(alloc);
    put_corner(&mut corners, Point::new(at.x, at.y.saturating_sub(6)))?;
    put_corner(&mut corners, Point::new(at.x + 6, at.y))?;
    put_corner(&mut corners, Point::new(at.x, at.y + 6))?;
    put_corner(&mut corners, Point::new(at.x.saturating_sub(6), at.y))?;
    put_polygon(page, "danger", corners.as_str())?;
    let words = divided_words(alloc, name)?;
    put_warning(page, at, words.as_str())
}

// Whether a deed is that the portion left on a line of a box is cleared away.
fn clears(box_no: u32, way: Way, its: &TrainDeed) -> bool
    ensures { result ≡ clears box_no way its.now its.now.deed }
{
    match its.deed {
        Deed::Cleared { way: line } => its.box_no == box_no && line == way,
        _ => false,
    }
}

// The entry by which the portion left on a line of a box is cleared away.
fn cleared_by(box_no: u32, way: Way, deeds: &[TrainDeed]) -> Option<usize>
    ensures { result ≡ cleared_by box_no way deeds.now }
{
    for its in deeds {
        if clears(box_no, way, its) {
            return Some(its.entry);
        }
    }
    None
}

// Draws a portion that a train leaves on a line of a box by a deed, up to another entry or to the end.
#[tactic(auto, unfolding(crate::specs::Trains::portion_text))]
fn put_portion(
    page: &mut Page,
    layout: &Layout,
    axis: &Axis,
    its: &TrainDeed,
    way: Way,
    to: Option<usize>,
) -> Result<(), AllocError>
    ensures text { OnOk result (page.new.text
        ≡ page.old.text ++ portion_text layout.now axis.now its.now.entry its.now.box_no way to) }
    ensures tags { OnOk result (page.new.open_tags ≡ page.old.open_tags) }
{
    let (x, y) = (
        entry_at(axis, its.entry),
        layout.portion_at(its.box_no, way),
    );
    put_line(
        page,
        "portion",
        Point::new(x, y),
        Point::new(end_at(axis, to), y),
    )?;
    put_words(
        page,
        "left",
        Point::new(x + 4, y.saturating_sub(4)),
        "portion",
    )
}

// Draws a train that comes to a stand.
#[tactic(auto, unfolding(crate::specs::Trains::coming_text))]
fn put_coming(page: &mut Page, name: &str, at: Point) -> Result<(), AllocError>
    requires { at.x < 2 ^ 62 }
    ensures text { OnOk result (page.new.text ≡ page.old.text ++ coming_text name.now at) }
    ensures tags { OnOk result (page.new.open_tags ≡ page.old.open_tags) }
{
    put_stop(page, at)?;
    put_name(page, name, at)
}

// Draws a train that enters a section.
#[tactic(auto, unfolding(crate::specs::Trains::going_text))]
fn put_going(page: &mut Page, alloc: Global, at_danger: bool, at: Point) -> Result<(), AllocError>
    requires { (at.x < 2 ^ 62) × (at.y < 2 ^ 60) }
    ensures text { OnOk result (page.new.text ≡ page.old.text ++ going_text at_danger at) }
    ensures tags { OnOk result (page.new.open_tags ≡ page.old.open_tags) }
{
    put_stop(page, at)?;
    put_overrun(page, alloc, at_danger, at)
}

// Draws a train that goes away.
#[tactic(auto, unfolding(crate::specs::Trains::leaving_text))]
fn put_leaving(page: &mut Page, alloc: Global, at_danger: bool, at: Point) -> Result<(), AllocError>
    requires { (at.x < 2 ^ 62) × (at.y < 2 ^ 60) }
    ensures text { OnOk result (page.new.text ≡ page.old.text ++ leaving_text at_danger at) }
    ensures tags { OnOk result (page.new.open_tags ≡ page.old.open_tags) }
{
    put_away(page, alloc, at)?;
    put_overrun(page, alloc, at_danger, at)
}

// Draws a train that comes to a stand divided, with the portion that it left.
#[tactic(auto, unfolding(crate::specs::Trains::parting_text))]
fn put_parting(
    page: &mut Page,
    alloc: Global,
    layout: &Layout,
    axis: &Axis,
    name: &str,
    its: &TrainDeed,
    place: u32,
    way: Way,
    later: &[TrainDeed],
) -> Result<(), AllocError>
    ensures text { OnOk result (page.new.text
        ≡ page.old.text ++ parting_text layout.now axis.now name.now its.now place way later.now) }
    ensures tags { OnOk result (page.new.open_tags ≡ page.old.open_tags) }
{
    let at = stand_at(layout, axis, its, place);
    put_divided(page, alloc, name, at)?;
    let to = cleared_by(its.box_no, way, later);
    put_portion(page, layout, axis, its, way, to)
}

// Draws the marks of a deed, before these later ones of the same train.
fn put_deed(
    page: &mut Page,
    alloc: Global,
    layout: &Layout,
    axis: &Axis,
    name: &str,
    its: &TrainDeed,
    later: &[TrainDeed],
) -> Result<(), AllocError>
    ensures text { OnOk result (page.new.text
        ≡ page.old.text ++ deed_text layout.now axis.now name.now its.now its.now.deed later.now) }
    ensures tags { OnOk result (page.new.open_tags ≡ page.old.open_tags) }
{
    match its.deed {
        Deed::Brought { place } | Deed::Berthed { place, .. } => {
            put_coming(page, name, stand_at(layout, axis, its, place))
        }
        Deed::Passed {
            from,
            at_danger,
            ..
        } => { put_overrun(page, alloc, at_danger, stand_at(layout, axis, its, from)) }
        Deed::Entered {
            from,
            at_danger,
            ..
        } => { put_going(page, alloc, at_danger, stand_at(layout, axis, its, from)) }
        Deed::Away { from, at_danger } => {
            put_leaving(page, alloc, at_danger, stand_at(layout, axis, its, from))
        }
        Deed::PartBerthed { place, way } => {
            put_parting(page, alloc, layout, axis, name, its, place, way, later)
        }
        Deed::Cleared { .. } => Ok(()),
    }
}

// Draws the marks of the deeds of a train.
fn put_deeds(
    page: &mut Page,
    alloc: Global,
    layout: &Layout,
    axis: &Axis,
    name: &str,
    deeds: &[TrainDeed],
) -> Result<(), AllocError>
    ensures text { OnOk result (page.new.text
        ≡ page.old.text ++ deeds_text layout.now axis.now name.now deeds.now) }
    ensures tags { OnOk result (page.new.open_tags ≡ page.old.open_tags) }
{
    for (number, its) in deeds.iter().enumerate() {
        let later = &deeds[number + 1..];
        put_deed(page, alloc, layout, axis, name, its, later)?;
    }
    Ok(())
}

// The name by which a train's line is told.
#[tactic(auto, unfolding(crate::specs::Trains::line_name))]
fn line_name(alloc: Global, name: &str) -> Result<String, AllocError>
    ensures { IfOk result (λ text. string_bytes text ≡ line_name name.now) }
{
    let mut text = String::new(alloc);
    text.push_str("train ")?;
    text.push_str(name)?;
    Ok(text)
}

// Draws the line of a train with this name.
#[tactic(auto, unfolding(crate::specs::Trains::train_text))]
fn put_train(
    page: &mut Page,
    alloc: Global,
    layout: &Layout,
    axis: &Axis,
    name: &str,
    line: &TrainLine,
) -> Result<(), AllocError>
    requires { 0 < length page.old.open_tags }
    ensures text { OnOk result (page.new.text ≡ page.old.text ++ train_text layout.now axis.now name.now line.now) }
    ensures tags { OnOk result (page.new.open_tags ≡ page.old.open_tags) }
{
    let told = line_name(alloc, name)?;
    let class = line_class(alloc, line.train)?;
    let corners = corners_text(alloc, layout, axis, line.deeds.as_slice())?;
    begin_group(page, told.as_str())?;
    put_polyline(page, class.as_str(), corners.as_str())?;
    put_deeds(page, alloc, layout, axis, name, line.deeds.as_slice())?;
    page.end()
}

/// Draws the lines of trains.
pub fn put_lines(
    page: &mut Page,
    alloc: Global,
    plan: &Plan,
    layout: &Layout,
    axis: &Axis,
    lines: &[TrainLine],
) -> Result<(), AllocError>
    requires { 0 < length page.old.open_tags }
    ensures text { OnOk result (page.new.text
        ≡ page.old.text ++ lines_text plan.now layout.now axis.now lines.now) }
    ensures tags { OnOk result (page.new.open_tags ≡ page.old.open_tags) }
{
    for line in lines {
        put_train(
            page,
            alloc,
            layout,
            axis,
            train_name(plan, line.train),
            line,
        )?;
    }
    Ok(())
}
