//! The drawing of the things of a section.

ghost use Rattle.std.specs.Prelude.{◌≡◌, ◌++◌, ◌<◌, ◌+◌, ◌-◌, ◌^◌, OnOk, length};
ghost use Rattle.block_words.specs.declared.Way.TheVariants.{Up, Down};
ghost use Rattle.line_plan.specs.Sections.{IsSection};
ghost use Rattle.line_picture.specs.Sections.{bell_text, circle_text, dial_class, dial_shapes, has_road};
ghost use Rattle.line_picture.specs.Sections.{instrument_text, named_road, needle_of, on_line_text, section_text};
ghost use Rattle.line_picture.specs.Sections.{sections_text, told_text, train_text};

use crate::box_drawing::{put_block, put_road};
use crate::layout::{LEFT, Layout};
use crate::words::{
    bell_words, instrument_words, on_line_words, section_words, shown_word, train_words,
};
use bell_codes::CodeNo;
use block_words::{Position, Way};
use line_plan::{Plan, Section};
use mark_up::{EmptyTag, Name, Page, Value};
use picture_shapes::{Point, begin_group, put_line, put_words};
use std::alloc::{AllocError, Global};

// ---- the road

// Draws a section with its name and its road.
#[tactic(auto, unfolding(crate::specs::Sections::named_road))]
fn put_named_road(
    page: &mut Page,
    layout: &Layout,
    rear: u32,
    way: Way,
    words: &str,
) -> Result<(), AllocError>
    ensures text { OnOk result (page.new.text ≡ page.old.text ++ named_road layout.now rear way words.now) }
    ensures tags { OnOk result (page.new.open_tags ≡ page.old.open_tags) }
{
    let top = layout.section_at(rear, way);
    put_words(page, "section", Point::new(LEFT, top + 12), words)?;
    put_road(page, Point::new(404, top + 32), 680)
}

// Whether a section has a road: a starter leads into it, or a berth ends it.
fn has_road(plan: &Plan, section: Section) -> bool
    requires { IsSection plan.now section }
    ensures { result ≡ has_road plan.now section }
{
    section.starter(plan).is_some() || section.berth(plan).is_some()
}

// Draws the road of a section, where it has one.
fn put_section(
    page: &mut Page,
    alloc: Global,
    plan: &Plan,
    layout: &Layout,
    section: Section,
) -> Result<(), AllocError>
    requires { IsSection plan.now section }
    ensures text { OnOk result (page.new.text ≡ page.old.text ++ section_text plan.now layout.now section) }
    ensures tags { OnOk result (page.new.open_tags ≡ page.old.open_tags) }
{
    if !has_road(plan, section) {
        return Ok(());
    }
    let words = section_words(alloc, plan, section.rear, section.way)?;
    put_named_road(page, layout, section.rear, section.way, words.as_str())
}

// Draws the roads of the two sections of a pair of neighbours.
fn put_pair(
    page: &mut Page,
    alloc: Global,
    plan: &Plan,
    layout: &Layout,
    pair: u32,
) -> Result<(), AllocError>
    requires pair { pair + 1 < length plan.now.boxes }
    requires few { pair + 1 < 2 ^ 32 }
    ensures text { OnOk result (page.new.text ≡ page.old.text
        ++ (section_text plan.now layout.now (record { rear = pair; way = Down })
        ++ section_text plan.now layout.now (record { rear = pair + 1; way = Up }))) }
    ensures tags { OnOk result (page.new.open_tags ≡ page.old.open_tags) }
{
    let down = Section {
        rear: pair,
        way: Way::Down,
    };
    let up = Section {
        rear: pair + 1,
        way: Way::Up,
    };
    put_section(page, alloc, plan, layout, down)?;
    put_section(page, alloc, plan, layout, up)
}

/// Draws the roads of all sections.
#[tactic(auto, using(line_scene::proofs::Few::few_boxes))]
pub fn put_sections(
    page: &mut Page,
    alloc: Global,
    plan: &Plan,
    layout: &Layout,
) -> Result<(), AllocError>
    ensures text { OnOk result (page.new.text
        ≡ page.old.text ++ sections_text plan.now layout.now (length plan.now.boxes - 1)) }
    ensures tags { OnOk result (page.new.open_tags ≡ page.old.open_tags) }
{
    plan.meets_conditions();
    let pairs = plan.boxes.len() as u32 - 1;
    for pair in 0..pairs {
        put_pair(page, alloc, plan, layout, pair)?;
    }
    Ok(())
}

// ---- instruments

// Draws a circle.
#[tactic(auto, unfolding(crate::specs::Sections::circle_text))]
fn put_circle(page: &mut Page, class: &str, centre: Point, radius: u64) -> Result<(), AllocError>
    ensures text { OnOk result (page.new.text ≡ page.old.text ++ circle_text class.now centre radius) }
    ensures tags { OnOk result (page.new.open_tags ≡ page.old.open_tags) }
{
    page.put(
        EmptyTag::Circle,
        &[
            (Name::Class, Value::Text(class)),
            (Name::CentreX, Value::Number(centre.x)),
            (Name::CentreY, Value::Number(centre.y)),
            (Name::Radius, Value::Number(radius)),
        ],
    )
}

// The class of an instrument.
fn dial_class(position: Position) -> &'static str
    ensures { result.now ≡ dial_class position }
{
    match position {
        Position::Normal => "dial",
        Position::LineClear => "dial clear",
        Position::TrainOnLine => "dial occupied",
    }
}

// How far to the right its needle points.
fn needle_of(position: Position) -> u64
    ensures { result ≡ needle_of position }
{
    match position {
        Position::Normal => 44,
        Position::LineClear => 35,
        Position::TrainOnLine => 53,
    }
}

// Draws the shapes of an instrument.
#[tactic(auto, unfolding(crate::specs::Sections::dial_shapes))]
fn put_dial_shapes(page: &mut Page, top: u64, position: Position) -> Result<(), AllocError>
    requires { top < 2 ^ 50 }
    ensures text { OnOk result (page.new.text ≡ page.old.text ++ dial_shapes top position) }
    ensures tags { OnOk result (page.new.open_tags ≡ page.old.open_tags) }
{
    put_circle(page, dial_class(position), Point::new(44, top + 34), 14)?;
    put_line(
        page,
        "needle",
        Point::new(44, top + 40),
        Point::new(needle_of(position), top + 24),
    )?;
    put_words(
        page,
        "shown",
        Point::new(66, top + 38),
        shown_word(position),
    )
}

/// Draws the instrument of a section.
#[tactic(auto, unfolding(crate::specs::Sections::instrument_text))]
pub fn put_instrument(
    page: &mut Page,
    alloc: Global,
    plan: &Plan,
    layout: &Layout,
    rear: u32,
    way: Way,
    position: Position,
) -> Result<(), AllocError>
    requires { 0 < length page.old.open_tags }
    ensures text { OnOk result
        (page.new.text ≡ page.old.text ++ instrument_text plan.now layout.now rear way position) }
    ensures tags { OnOk result (page.new.open_tags ≡ page.old.open_tags) }
{
    let words = instrument_words(alloc, plan, rear, way, position)?;
    begin_group(page, words.as_str())?;
    put_dial_shapes(page, layout.section_at(rear, way), position)?;
    page.end()
}

// ---- bells and trains

// Puts words of a section that are told as they stand.
#[tactic(auto, unfolding(crate::specs::Sections::told_text))]
fn put_told(page: &mut Page, class: &str, at: Point, words: &str) -> Result<(), AllocError>
    requires { 0 < length page.old.open_tags }
    ensures text { OnOk result (page.new.text ≡ page.old.text ++ told_text class.now at words.now) }
    ensures tags { OnOk result (page.new.open_tags ≡ page.old.open_tags) }
{
    begin_group(page, words)?;
    put_words(page, class, at, words)?;
    page.end()
}

/// Draws the code that stands unheard on a bell, if one does.
pub fn put_bell(
    page: &mut Page,
    alloc: Global,
    plan: &Plan,
    layout: &Layout,
    rear: u32,
    way: Way,
    unheard: Option<CodeNo>,
) -> Result<(), AllocError>
    requires { 0 < length page.old.open_tags }
    ensures text { OnOk result (page.new.text ≡ page.old.text ++ bell_text plan.now layout.now rear way unheard) }
    ensures tags { OnOk result (page.new.open_tags ≡ page.old.open_tags) }
{
    let Some(code) = unheard else {
        return Ok(());
    };
    let words = bell_words(alloc, plan, rear, way, code)?;
    let at = Point::new(156, layout.section_at(rear, way) + 38);
    put_told(page, "bell", at, words.as_str())
}

// Draws a train on a plain line, with these words on it.
#[tactic(auto, unfolding(crate::specs::Sections::train_text))]
fn put_train(
    page: &mut Page,
    alloc: Global,
    plan: &Plan,
    layout: &Layout,
    rear: u32,
    way: Way,
    behind: u32,
    words: &str,
) -> Result<(), AllocError>
    requires { 0 < length page.old.open_tags }
    ensures text { OnOk result
        (page.new.text ≡ page.old.text ++ train_text plan.now layout.now rear way behind words.now) }
    ensures tags { OnOk result (page.new.open_tags ≡ page.old.open_tags) }
{
    let name = on_line_words(alloc, plan, rear, way, words)?;
    begin_group(page, name.as_str())?;
    put_block(page, layout.train_at(rear, way, behind), words)?;
    page.end()
}

/// Draws the train that is so far behind the first on a plain line, if there is one.
pub fn put_on_line(
    page: &mut Page,
    alloc: Global,
    plan: &Plan,
    layout: &Layout,
    rear: u32,
    way: Way,
    behind: u32,
    train: Option<u32>,
    is_portion: bool,
) -> Result<(), AllocError>
    requires { 0 < length page.old.open_tags }
    ensures text { OnOk result (page.new.text
        ≡ page.old.text ++ on_line_text plan.now layout.now rear way behind train is_portion) }
    ensures tags { OnOk result (page.new.open_tags ≡ page.old.open_tags) }
{
    let Some(train) = train else {
        return Ok(());
    };
    let words = train_words(alloc, plan, train, is_portion)?;
    put_train(page, alloc, plan, layout, rear, way, behind, words.as_str())
}
