//! The drawing of the levers.

ghost use Rattle.std.specs.Prelude.{◌≡◌, ◌++◌, ◌<◌, ◌^◌, IfOk, OnOk, length, string_bytes};
ghost use Rattle.frame_picture.specs.Levers.{body_class, kind_letter, letter_class, lever_name, lever_shapes};
ghost use Rattle.frame_picture.specs.Levers.{lever_text, levers_text};

use crate::places::{Layout, column_of};
use crate::works::works;
use line_plan::{BoxPlan, Kind, Lever};
use mark_up::Page;
use picture_shapes::{Point, begin_group, put_number, put_rect, put_upright, put_words};
use std::alloc::{AllocError, Global};
use std::fmt::Write;

// The letter of a lever's kind, by which it is known without its colour.
pub fn kind_letter(kind: Kind) -> &'static str
    ensures { result.now ≡ kind_letter kind }
{
    match kind {
        Kind::Signal => "S",
        Kind::Points => "P",
        Kind::Lock => "L",
        Kind::Distant => "D",
        Kind::Spare => "",
    }
}

// The class of a lever's body.
pub fn body_class(kind: Kind) -> &'static str
    ensures { result.now ≡ body_class kind }
{
    match kind {
        Kind::Signal => "lever stop",
        Kind::Points => "lever points",
        Kind::Lock => "lever lock",
        Kind::Distant => "lever distant",
        Kind::Spare => "lever spare",
    }
}

// The class of the letter on a lever's body.
pub fn letter_class(kind: Kind) -> &'static str
    ensures { result.now ≡ letter_class kind }
{
    match kind {
        Kind::Signal | Kind::Points | Kind::Lock => "mid bright",
        Kind::Distant | Kind::Spare => "mid dark",
    }
}

// The name by which a lever is told: its number and what it works.
fn lever_name(alloc: Global, number: u32, words: &str) -> Result<String, AllocError>
    ensures { IfOk result (λ text. string_bytes text ≡ lever_name number words.now) }
{
    let mut text = String::new(alloc);
    write!(text, "lever {number}: {words}")?;
    Ok(text)
}

// The shapes of a lever whose column begins at `x`.
#[tactic(auto, unfolding(crate::specs::Levers::lever_shapes))]
fn put_lever_shapes(
    page: &mut Page,
    alloc: Global,
    lever: Lever,
    words: &str,
    corner: Point,
) -> Result<(), AllocError>
    requires { (corner.x < 2 ^ 40) × (corner.y < 2 ^ 40) }
    ensures text { OnOk result (page.new.text ≡ page.old.text ++ lever_shapes lever words.now corner) }
    ensures tags { OnOk result (page.new.open_tags ≡ page.old.open_tags) }
{
    let (x, y) = (corner.x, corner.y);
    put_upright(page, alloc, "small", Point::new(x + 21, y), words)?;
    put_rect(page, "handle", Point::new(x + 15, y + 8), 6, 30)?;
    put_rect(
        page,
        body_class(lever.kind),
        Point::new(x + 9, y + 34),
        18,
        86,
    )?;
    put_rect(page, "plate", Point::new(x + 5, y + 50), 26, 16)?;
    put_number(
        page,
        alloc,
        "mid dark",
        Point::new(x + 18, y + 62),
        lever.number,
    )?;
    put_words(
        page,
        letter_class(lever.kind),
        Point::new(x + 18, y + 88),
        kind_letter(lever.kind),
    )
}

// Draws a lever.
#[tactic(auto, unfolding(crate::specs::Levers::lever_text))]
fn put_lever(
    page: &mut Page,
    alloc: Global,
    plan: &BoxPlan,
    layout: &Layout,
    lever: Lever,
) -> Result<(), AllocError>
    requires { 0 < length page.old.open_tags }
    ensures text { OnOk result (page.new.text ≡ page.old.text ++ lever_text plan.now layout.now lever) }
    ensures tags { OnOk result (page.new.open_tags ≡ page.old.open_tags) }
{
    let words = works(alloc, plan, lever)?;
    let name = lever_name(alloc, lever.number, words.as_str())?;
    begin_group(page, name.as_str())?;
    let at = Point::new(column_of(lever.number), layout.levers_top());
    put_lever_shapes(page, alloc, lever, words.as_str(), at)?;
    page.end()
}

/// Draws the levers, each in its column.
pub fn put_levers(
    page: &mut Page,
    alloc: Global,
    plan: &BoxPlan,
    layout: &Layout,
    levers: &[Lever],
) -> Result<(), AllocError>
    requires { 0 < length page.old.open_tags }
    ensures text { OnOk result (page.new.text ≡ page.old.text ++ levers_text plan.now layout.now levers.now) }
    ensures tags { OnOk result (page.new.open_tags ≡ page.old.open_tags) }
{
    for lever in levers {
        put_lever(page, alloc, plan, layout, *lever)?;
    }
    Ok(())
}
