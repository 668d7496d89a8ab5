//! The drawing of the things of a box.

ghost use Rattle.std.specs.Prelude.{◌≡◌, ◌++◌, ◌<◌, ◌≤◌, ◌^◌, OnOk, length};
ghost use Rattle.line_picture.specs.Boxes.{arm_shape, arm_shapes, arm_text, block_text, body_class, box_text};
ghost use Rattle.line_picture.specs.Boxes.{boxes_text, drop_of, kind_letter, letter_class, lever_shapes, lever_text};
ghost use Rattle.line_picture.specs.Boxes.{place_shapes, place_text, road_text, standing_block};

use crate::layout::{LEFT, Layout};
use crate::words::{arm_name, arm_words, lever_words, place_name, place_words, train_name};
use line_plan::{BoxPlan, Kind, Plan, To};
use line_scene::Spot;
use mark_up::Page;
use picture_shapes::{Point, begin_group, put_line, put_number, put_rect, put_words};
use std::alloc::{AllocError, Global};

// ---- places

/// Draws a road of this length.
#[tactic(auto, unfolding(crate::specs::Boxes::road_text))]
pub fn put_road(page: &mut Page, at: Point, length: u64) -> Result<(), AllocError>
    requires at { (at.x < 2 ^ 50) × (at.y < 2 ^ 50) }
    requires length { length < 2 ^ 50 }
    ensures text { OnOk result (page.new.text ≡ page.old.text ++ road_text at length) }
    ensures tags { OnOk result (page.new.open_tags ≡ page.old.open_tags) }
{
    let back = (at.x + length).saturating_sub(8);
    let tip = Point::new(at.x + length, at.y + 2);
    put_rect(page, "road", at, length, 4)?;
    put_line(page, "tip", Point::new(back, at.y.saturating_sub(4)), tip)?;
    put_line(page, "tip", Point::new(back, at.y + 8), tip)
}

/// Draws a train on a road, with words on it.
#[tactic(auto, unfolding(crate::specs::Boxes::block_text))]
pub fn put_block(page: &mut Page, at: Point, words: &str) -> Result<(), AllocError>
    requires { (at.x < 2 ^ 50) × (at.y < 2 ^ 50) }
    ensures text { OnOk result (page.new.text ≡ page.old.text ++ block_text at words.now) }
    ensures tags { OnOk result (page.new.open_tags ≡ page.old.open_tags) }
{
    put_rect(page, "block", at, 162, 20)?;
    put_words(page, "train", Point::new(at.x + 81, at.y + 14), words)
}

// Draws the train that stands at a place, if one does.
fn put_standing(
    page: &mut Page,
    plan: &Plan,
    at: Point,
    train: Option<u32>,
) -> Result<(), AllocError>
    requires { (at.x < 2 ^ 50) × (at.y < 2 ^ 50) }
    ensures text { OnOk result (page.new.text ≡ page.old.text ++ standing_block plan.now at train) }
    ensures tags { OnOk result (page.new.open_tags ≡ page.old.open_tags) }
{
    match train {
        Some(train) => put_block(page, at, train_name(plan, train)),
        None => Ok(()),
    }
}

// Draws the shapes of a place with this name.
#[tactic(auto, unfolding(crate::specs::Boxes::place_shapes))]
fn put_place_shapes(
    page: &mut Page,
    plan: &Plan,
    at: Point,
    name: &str,
    train: Option<u32>,
) -> Result<(), AllocError>
    requires { (at.x < 2 ^ 42) × (at.y < 2 ^ 42) }
    ensures text { OnOk result (page.new.text ≡ page.old.text ++ place_shapes plan.now at name.now train) }
    ensures tags { OnOk result (page.new.open_tags ≡ page.old.open_tags) }
{
    let (x, y) = (at.x, at.y);
    put_words(page, "place", Point::new(x, y + 8), name)?;
    put_road(page, Point::new(x, y + 22), 204)?;
    put_standing(page, plan, Point::new(x + 8, y + 14), train)
}

/// Draws a place of a box, with the train on it.
#[tactic(auto, unfolding(crate::specs::Boxes::place_text))]
pub fn put_place(
    page: &mut Page,
    alloc: Global,
    plan: &Plan,
    layout: &Layout,
    box_no: u32,
    place: u32,
    spot: Spot,
    train: Option<u32>,
) -> Result<(), AllocError>
    requires { 0 < length page.old.open_tags }
    ensures text { OnOk result
        (page.new.text ≡ page.old.text ++ place_text plan.now layout.now box_no place spot train) }
    ensures tags { OnOk result (page.new.open_tags ≡ page.old.open_tags) }
{
    let words = place_words(alloc, plan, box_no, place, train)?;
    begin_group(page, words.as_str())?;
    let at = layout.spot_at(box_no, spot);
    let name = place_name(plan, box_no, place);
    put_place_shapes(page, plan, at, name, train)?;
    page.end()
}

// ---- arms

// Draws an arm: level where it is on, inclined where it is off.
fn put_arm_shape(page: &mut Page, at: Point, is_off: bool) -> Result<(), AllocError>
    requires { (at.x < 2 ^ 50) × (at.y < 2 ^ 50) }
    ensures text { OnOk result (page.new.text ≡ page.old.text ++ arm_shape at is_off) }
    ensures tags { OnOk result (page.new.open_tags ≡ page.old.open_tags) }
{
    let root = Point::new(at.x + 8, at.y + 3);
    if is_off {
        put_line(page, "off", root, Point::new(at.x + 24, at.y + 14))
    } else {
        put_line(page, "on", root, Point::new(at.x + 28, at.y + 3))
    }
}

// Draws the shapes of an arm, with words.
#[tactic(auto, unfolding(crate::specs::Boxes::arm_shapes))]
fn put_arm_shapes(page: &mut Page, at: Point, is_off: bool, words: &str) -> Result<(), AllocError>
    requires { (at.x < 2 ^ 50) × (at.y < 2 ^ 50) }
    ensures text { OnOk result (page.new.text ≡ page.old.text ++ arm_shapes at is_off words.now) }
    ensures tags { OnOk result (page.new.open_tags ≡ page.old.open_tags) }
{
    let (x, y) = (at.x, at.y);
    put_line(
        page,
        "post",
        Point::new(x + 8, y),
        Point::new(x + 8, y + 16),
    )?;
    put_arm_shape(page, at, is_off)?;
    put_words(page, "arm", Point::new(x + 34, y + 11), words)
}

/// Draws an arm of a box on its post.
#[tactic(auto, unfolding(crate::specs::Boxes::arm_text))]
pub fn put_arm(
    page: &mut Page,
    alloc: Global,
    plan: &Plan,
    layout: &Layout,
    box_no: u32,
    lever: u32,
    spot: Spot,
    rank: u32,
    to: To,
    is_off: bool,
) -> Result<(), AllocError>
    requires { 0 < length page.old.open_tags }
    ensures text { OnOk result
        (page.new.text ≡ page.old.text ++ arm_text plan.now layout.now box_no lever spot rank to is_off) }
    ensures tags { OnOk result (page.new.open_tags ≡ page.old.open_tags) }
{
    let words = arm_words(alloc, plan, box_no, lever, to, is_off)?;
    let name = arm_name(alloc, plan, box_no, words.as_str())?;
    begin_group(page, name.as_str())?;
    let at = layout.arm_at(box_no, spot, rank);
    put_arm_shapes(page, at, is_off, words.as_str())?;
    page.end()
}

// ---- levers

// The class of a lever's body.
fn body_class(kind: Kind) -> &'static str
    ensures { result.now ≡ body_class kind }
{
    match kind {
        Kind::Signal => "lever stop",
        Kind::Points => "lever points",
        Kind::Lock => "lever lock",
        Kind::Distant => "lever distant",
        Kind::Spare => "lever spare",
    }
}

// The letter of a lever's kind.
fn kind_letter(kind: Kind) -> &'static str
    ensures { result.now ≡ kind_letter kind }
{
    match kind {
        Kind::Signal => "S",
        Kind::Points => "P",
        Kind::Lock => "L",
        Kind::Distant => "D",
        Kind::Spare => "",
    }
}

// The class of that letter.
fn letter_class(kind: Kind) -> &'static str
    ensures { result.now ≡ letter_class kind }
{
    match kind {
        Kind::Signal | Kind::Points | Kind::Lock => "letter bright",
        Kind::Distant | Kind::Spare => "letter dark",
    }
}

// How far down a lever stands.
fn drop_of(is_reversed: bool) -> u64
    ensures value { result ≡ drop_of is_reversed }
    ensures most { result ≤ 28 }
{
    if is_reversed { 28 } else { 14 }
}

// Draws the shapes of a lever.
#[tactic(auto, unfolding(crate::specs::Boxes::lever_shapes))]
fn put_lever_shapes(
    page: &mut Page,
    alloc: Global,
    number: u32,
    kind: Kind,
    down: u64,
    at: Point,
) -> Result<(), AllocError>
    requires at { (at.x < 2 ^ 50) × (at.y < 2 ^ 50) }
    requires down { down ≤ 28 }
    ensures text { OnOk result (page.new.text ≡ page.old.text ++ lever_shapes number kind down at) }
    ensures tags { OnOk result (page.new.open_tags ≡ page.old.open_tags) }
{
    let (x, y) = (at.x, at.y);
    put_number(page, alloc, "number", Point::new(x + 13, y + 10), number)?;
    put_rect(page, "slot", Point::new(x + 4, y + 14), 18, 28)?;
    put_rect(page, body_class(kind), Point::new(x + 4, y + down), 18, 14)?;
    put_words(
        page,
        letter_class(kind),
        Point::new(x + 13, y + down + 11),
        kind_letter(kind),
    )
}

/// Draws a lever of a box.
#[tactic(auto, unfolding(crate::specs::Boxes::lever_text))]
pub fn put_lever(
    page: &mut Page,
    alloc: Global,
    plan: &Plan,
    layout: &Layout,
    box_no: u32,
    number: u32,
    kind: Kind,
    is_reversed: bool,
) -> Result<(), AllocError>
    requires { 0 < length page.old.open_tags }
    ensures text { OnOk result
        (page.new.text ≡ page.old.text ++ lever_text plan.now layout.now box_no number kind is_reversed) }
    ensures tags { OnOk result (page.new.open_tags ≡ page.old.open_tags) }
{
    let words = lever_words(alloc, plan, box_no, number, kind, is_reversed)?;
    begin_group(page, words.as_str())?;
    let at = layout.lever_at(box_no, number);
    put_lever_shapes(page, alloc, number, kind, drop_of(is_reversed), at)?;
    page.end()
}

// ---- boxes

// Draws a box with its name.
#[tactic(auto, unfolding(crate::specs::Boxes::box_text))]
fn put_box(
    page: &mut Page,
    layout: &Layout,
    box_no: u32,
    box_plan: &BoxPlan,
) -> Result<(), AllocError>
    ensures text { OnOk result (page.new.text ≡ page.old.text ++ box_text layout.now box_no box_plan.now) }
    ensures tags { OnOk result (page.new.open_tags ≡ page.old.open_tags) }
{
    let top = layout.top_at(box_no);
    let high = layout.foot_at(box_no).saturating_sub(top);
    put_rect(page, "box", Point::new(16, top), 1068, high)?;
    put_words(
        page,
        "name",
        Point::new(LEFT, top + 22),
        box_plan.name.as_str(),
    )
}

/// Draws boxes, without their things.
pub fn put_boxes(page: &mut Page, layout: &Layout, boxes: &[BoxPlan]) -> Result<(), AllocError>
    requires { length boxes.now ≤ 64 }
    ensures text { OnOk result (page.new.text ≡ page.old.text ++ boxes_text layout.now 0 boxes.now) }
    ensures tags { OnOk result (page.new.open_tags ≡ page.old.open_tags) }
{
    for (at, box_plan) in boxes.iter().enumerate() {
        put_box(page, layout, at as u32, box_plan)?;
    }
    Ok(())
}
