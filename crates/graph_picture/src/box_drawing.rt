//! The drawing of the boxes, and of the bars of their instruments.

ghost use Rattle.std.specs.Prelude.{◌≡◌, ◌++◌, ◌<◌, ◌≤◌, ◌^◌, IfOk, OnOk, length, string_bytes};
ghost use Rattle.graph_picture.specs.Boxes.{bar_class, bar_name, bar_text, bars_text, box_text, boxes_text, place_text};
ghost use Rattle.graph_picture.specs.Boxes.{names_text, places_text, shown_word, sunk, thickness};
ghost use Rattle.graph_picture.specs.Places.{AreFew};
ghost use Rattle.line_plan.specs.Plans.{box_name};

use crate::layout::{LEFT, LEVEL, Layout, PLAIN_LINE, TOP, end_at, entry_at, height_of, right_end};
use block_words::Position;
use graph_scene::{Axis, Bar};
use line_plan::{BoxPlan, Plan, way_word};
use mark_up::Page;
use picture_shapes::{Point, begin_group, put_line, put_rect, put_words};
use rail_text::Names;
use std::alloc::{AllocError, Global};

// Draws the level of a place, with its name.
#[tactic(auto, unfolding(crate::specs::Boxes::place_text))]
fn put_place(page: &mut Page, right: u64, y: u64, name: &str) -> Result<(), AllocError>
    requires { y < 2 ^ 50 }
    ensures text { OnOk result (page.new.text ≡ page.old.text ++ place_text right y name.now) }
    ensures tags { OnOk result (page.new.open_tags ≡ page.old.open_tags) }
{
    put_words(page, "place", Point::new(192, y + 3), name)?;
    put_line(page, "level", Point::new(LEFT, y), Point::new(right, y))
}

// Draws the levels of the places of a box.
#[tactic(auto, using(std::proofs::lemmas::Option::get_or_from_slice_get))]
fn put_places(page: &mut Page, right: u64, top: u64, places: &Names) -> Result<(), AllocError>
    requires low { top < 2 ^ 41 }
    requires few { length places.now ≤ 64 }
    ensures text { OnOk result (page.new.text ≡ page.old.text ++ places_text right top places.now) }
    ensures tags { OnOk result (page.new.open_tags ≡ page.old.open_tags) }
{
    let mut y = top;
    for place in 0..places.len() {
        put_place(page, right, y, places.name_of(place as u32))?;
        y += LEVEL;
    }
    Ok(())
}

// Draws a box with this top.
#[tactic(auto, unfolding(crate::specs::Boxes::box_text))]
fn put_box(page: &mut Page, right: u64, top: u64, box_plan: &BoxPlan) -> Result<(), AllocError>
    requires low { top < 2 ^ 40 }
    requires few { length box_plan.now.places ≤ 64 }
    ensures text { OnOk result (page.new.text ≡ page.old.text ++ box_text right top box_plan.now) }
    ensures tags { OnOk result (page.new.open_tags ≡ page.old.open_tags) }
{
    let width = right.saturating_sub(LEFT);
    put_rect(
        page,
        "box",
        Point::new(LEFT, top),
        width,
        height_of(box_plan),
    )?;
    put_words(
        page,
        "name",
        Point::new(192, top.saturating_sub(4)),
        box_plan.name.as_str(),
    )?;
    put_places(page, right, top + 11, &box_plan.places)
}

/// Draws boxes, from top to bottom.
pub fn put_boxes(page: &mut Page, right: u64, boxes: &[BoxPlan]) -> Result<(), AllocError>
    requires { AreFew boxes.now }
    ensures text { OnOk result (page.new.text ≡ page.old.text ++ boxes_text right 130 boxes.now) }
    ensures tags { OnOk result (page.new.open_tags ≡ page.old.open_tags) }
{
    let mut top = TOP;
    for box_plan in boxes {
        put_box(page, right, top, box_plan)?;
        top += height_of(box_plan) + PLAIN_LINE;
    }
    Ok(())
}

/// Names boxes once more, over them.
pub fn put_names(page: &mut Page, x: u64, boxes: &[BoxPlan]) -> Result<(), AllocError>
    requires few { AreFew boxes.now }
    requires narrow { x < 2 ^ 62 }
    ensures text { OnOk result (page.new.text ≡ page.old.text ++ names_text x 130 boxes.now) }
    ensures tags { OnOk result (page.new.open_tags ≡ page.old.open_tags) }
{
    let mut top = TOP;
    for box_plan in boxes {
        let at = Point::new(x + 4, top.saturating_sub(3));
        put_words(page, "again", at, box_plan.name.as_str())?;
        top += height_of(box_plan) + PLAIN_LINE;
    }
    Ok(())
}

// What a bar shows, in words.
fn shown_word(position: Position) -> &'static str
    ensures { result.now ≡ shown_word position }
{
    match position {
        Position::Normal => "Normal",
        Position::LineClear => "Line Clear",
        Position::TrainOnLine => "Train on Line",
    }
}

// The same as a class.
fn bar_class(position: Position) -> &'static str
    ensures { result.now ≡ bar_class position }
{
    match position {
        Position::Normal => "normal",
        Position::LineClear => "clear",
        Position::TrainOnLine => "occupied",
    }
}

// How thick a bar is.
fn thickness(position: Position) -> u64
    ensures { result ≡ thickness position }
{
    match position {
        Position::Normal => 1,
        Position::LineClear => 4,
        Position::TrainOnLine => 6,
    }
}

// How far below the top of the bars it lies.
fn sunk(position: Position) -> u64
    ensures value { result ≡ sunk position }
    ensures most { result ≤ 3 }
{
    match position {
        Position::Normal => 3,
        Position::LineClear => 1,
        Position::TrainOnLine => 0,
    }
}

// The name of a box; nothing of one that the line doesn't have.
pub fn name_of_box(plan: &Plan, box_no: u32) -> &str
    ensures { result.now ≡ box_name plan.now box_no }
{
    if (box_no as usize) < plan.boxes.len() {
        plan.box_name(box_no)
    } else {
        ""
    }
}

// The name by which a bar is told.
#[tactic(auto, unfolding(crate::specs::Boxes::bar_name))]
fn bar_name(alloc: Global, plan: &Plan, bar: &Bar) -> Result<String, AllocError>
    ensures { IfOk result (λ text. string_bytes text ≡ bar_name plan.now bar.now) }
{
    let mut text = String::new(alloc);
    text.push_str(shown_word(bar.position))?;
    text.push_str(", ")?;
    text.push_str(way_word(bar.way))?;
    text.push_str(" line at ")?;
    text.push_str(name_of_box(plan, bar.box_no))?;
    Ok(text)
}

// Draws a bar.
#[tactic(auto, unfolding(crate::specs::Boxes::bar_text))]
fn put_bar(
    page: &mut Page,
    alloc: Global,
    plan: &Plan,
    layout: &Layout,
    axis: &Axis,
    bar: &Bar,
) -> Result<(), AllocError>
    requires { 0 < length page.old.open_tags }
    ensures text { OnOk result (page.new.text ≡ page.old.text ++ bar_text plan.now layout.now axis.now bar.now) }
    ensures tags { OnOk result (page.new.open_tags ≡ page.old.open_tags) }
{
    let name = bar_name(alloc, plan, bar)?;
    begin_group(page, name.as_str())?;
    let from = entry_at(axis, bar.from);
    let top = layout.bars_at(bar.box_no, bar.way) + sunk(bar.position);
    put_rect(
        page,
        bar_class(bar.position),
        Point::new(from, top),
        end_at(axis, bar.to).saturating_sub(from),
        thickness(bar.position),
    )?;
    page.end()
}

/// Draws the bars of instruments.
pub fn put_bars(
    page: &mut Page,
    alloc: Global,
    plan: &Plan,
    layout: &Layout,
    axis: &Axis,
    bars: &[Bar],
) -> Result<(), AllocError>
    requires { 0 < length page.old.open_tags }
    ensures text { OnOk result (page.new.text ≡ page.old.text ++ bars_text plan.now layout.now axis.now bars.now) }
    ensures tags { OnOk result (page.new.open_tags ≡ page.old.open_tags) }
{
    for bar in bars {
        put_bar(page, alloc, plan, layout, axis, bar)?;
    }
    Ok(())
}
