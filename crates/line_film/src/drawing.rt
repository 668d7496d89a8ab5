//! The drawing of the line, and of what each entry changes.

ghost use Rattle.std.specs.Prelude.{◌≡◌, ◌++◌, ◌∷◌, ◌<◌, ◌-◌, IfOk, OnOk, length, string_bytes};
ghost use Rattle.line_film.specs.Drawing.{change_html, changes_html, first_html, frame_html, frames_html, picture_start};
ghost use Rattle.line_film.specs.Drawing.{inert_html, picture_html, seen_html, view_text};
ghost use Rattle.mark_up.specs.declared.tags.Tag.TheVariants.{Group, Svg};

use crate::changes::Change;
use line_picture::{Layout, put_ground, put_key, put_style, put_thing};
use line_plan::{Items, Plan};
use mark_up::{Name, Page, Tag, Value};
use picture_shapes::{Point, put_rect};
use std::alloc::{AllocError, Global};
use std::fmt::Write;

// The width of a picture, and how much of it is left out at its top, where a picture by itself has its head.
const WIDE: u64 = 1100;

const HEAD: u64 = 64;

// ---- things

// Puts a thing as it is drawn, in a group that has its number.
#[tactic(auto, unfolding(crate::specs::Drawing::change_html))]
fn put_change(
    page: &mut Page,
    alloc: Global,
    plan: &Plan,
    layout: &Layout,
    change: Change,
) -> Result<(), AllocError>
    requires { 0 < length page.old.open_tags }
    ensures text { OnOk result (page.new.text ≡ page.old.text ++ change_html plan.now layout.now change) }
    ensures tags { OnOk result (page.new.open_tags ≡ page.old.open_tags) }
{
    page.start(
        Tag::Group,
        &[(Name::Class, Value::Number(change.slot as u64))],
    )?;
    put_thing(page, alloc, plan, layout, change.thing)?;
    page.end()
}

// Puts things, in order.
fn put_changes(
    page: &mut Page,
    alloc: Global,
    plan: &Plan,
    layout: &Layout,
    changes: &[Change],
) -> Result<(), AllocError>
    requires { 0 < length page.old.open_tags }
    ensures text { OnOk result (page.new.text ≡ page.old.text ++ changes_html plan.now layout.now changes.now) }
    ensures tags { OnOk result (page.new.open_tags ≡ page.old.open_tags) }
{
    for change in changes {
        put_change(page, alloc, plan, layout, *change)?;
    }
    Ok(())
}

// Puts the changes of an entry, on a line of their own.
#[tactic(auto, unfolding(crate::specs::Drawing::frame_html))]
fn put_frame(
    page: &mut Page,
    alloc: Global,
    plan: &Plan,
    layout: &Layout,
    frame: &Items<Change>,
) -> Result<(), AllocError>
    requires { 0 < length page.old.open_tags }
    ensures text { OnOk result (page.new.text ≡ page.old.text ++ frame_html plan.now layout.now frame.now) }
    ensures tags { OnOk result (page.new.open_tags ≡ page.old.open_tags) }
{
    page.say("\n")?;
    page.start(Tag::Group, &[])?;
    put_changes(page, alloc, plan, layout, frame.as_slice())?;
    page.end()
}

// Puts the changes of the entries, one after another.
fn put_frames(
    page: &mut Page,
    alloc: Global,
    plan: &Plan,
    layout: &Layout,
    frames: &[Items<Change>],
) -> Result<(), AllocError>
    requires { 0 < length page.old.open_tags }
    ensures text { OnOk result (page.new.text ≡ page.old.text ++ frames_html plan.now layout.now frames.now) }
    ensures tags { OnOk result (page.new.open_tags ≡ page.old.open_tags) }
{
    for frame in frames {
        put_frame(page, alloc, plan, layout, frame)?;
    }
    Ok(())
}

// ---- the picture

// The part of a picture that is seen: all below its head.
#[tactic(auto, unfolding(crate::specs::Drawing::view_text))]
fn view_text(alloc: Global, high: u64) -> Result<String, AllocError>
    ensures { IfOk result (λ text. string_bytes text ≡ view_text high) }
{
    let mut text = String::new(alloc);
    write!(text, "0 64 1100 {high}")?;
    Ok(text)
}

// Begins the picture, of which so much is seen, under this name.
#[tactic(auto, unfolding(crate::specs::Drawing::picture_start))]
fn begin_picture<'a>(
    page: &mut Page,
    high: u64,
    name: &'a str,
    view: &'a str,
) -> Result<(), AllocError>
    ensures text { OnOk result (page.new.text ≡ page.old.text ++ picture_start high name.now view.now) }
    ensures tags { OnOk result (page.new.open_tags ≡ Svg ∷ page.old.open_tags) }
{
    page.start(
        Tag::Svg,
        &[
            (Name::Width, Value::Number(WIDE)),
            (Name::Height, Value::Number(high)),
            (Name::ViewBox, Value::Text(view)),
            (Name::Role, Value::Text("group")),
            (Name::Label, Value::Text(name)),
        ],
    )
}

// Puts the style of the picture, its background, its key, and the boxes and roads.
#[tactic(auto, unfolding(crate::specs::Drawing::seen_html))]
fn put_seen(
    page: &mut Page,
    alloc: Global,
    plan: &Plan,
    layout: &Layout,
    high: u64,
) -> Result<(), AllocError>
    ensures text { OnOk result (page.new.text ≡ page.old.text ++ seen_html plan.now layout.now high) }
    ensures tags { OnOk result (page.new.open_tags ≡ page.old.open_tags) }
{
    put_style(page)?;
    put_rect(page, "background", Point::new(0, 0), WIDE, high)?;
    put_key(page, high)?;
    put_ground(page, alloc, plan, layout)
}

// Puts all things as they are seen before the first entry.
#[tactic(auto, unfolding(crate::specs::Drawing::first_html))]
fn put_first(
    page: &mut Page,
    alloc: Global,
    plan: &Plan,
    layout: &Layout,
    first: &[Change],
) -> Result<(), AllocError>
    requires { 0 < length page.old.open_tags }
    ensures text { OnOk result (page.new.text ≡ page.old.text ++ first_html plan.now layout.now first.now) }
    ensures tags { OnOk result (page.new.open_tags ≡ page.old.open_tags) }
{
    page.start(Tag::Group, &[(Name::Id, Value::Text("line"))])?;
    put_changes(page, alloc, plan, layout, first)?;
    page.end()
}

// Puts the changes of the entries where they aren't seen.
#[tactic(auto, unfolding(crate::specs::Drawing::inert_html))]
fn put_inert(
    page: &mut Page,
    alloc: Global,
    plan: &Plan,
    layout: &Layout,
    frames: &[Items<Change>],
) -> Result<(), AllocError>
    requires { 0 < length page.old.open_tags }
    ensures text { OnOk result (page.new.text ≡ page.old.text ++ inert_html plan.now layout.now frames.now) }
    ensures tags { OnOk result (page.new.open_tags ≡ page.old.open_tags) }
{
    page.start(Tag::Definitions, &[(Name::Id, Value::Text("changes"))])?;
    put_frames(page, alloc, plan, layout, frames)?;
    page.end()
}

/// Puts the picture of the line under this name: as it is seen before the first entry, and what each entry changes.
#[tactic(auto, unfolding(crate::specs::Drawing::picture_html))]
pub fn put_picture(
    page: &mut Page,
    alloc: Global,
    plan: &Plan,
    layout: &Layout,
    name: &str,
    first: &[Change],
    frames: &[Items<Change>],
) -> Result<(), AllocError>
    requires { 0 < length page.old.open_tags }
    ensures text { OnOk result
        (page.new.text ≡ page.old.text ++ picture_html plan.now layout.now name.now first.now frames.now) }
    ensures tags { OnOk result (page.new.open_tags ≡ page.old.open_tags) }
{
    plan.meets_conditions();
    let high = layout.height(plan.boxes.len() as u32);
    let seen = high.saturating_sub(HEAD);
    let view = view_text(alloc, seen)?;
    begin_picture(page, seen, name, view.as_str())?;
    put_seen(page, alloc, plan, layout, high)?;
    put_first(page, alloc, plan, layout, first)?;
    put_inert(page, alloc, plan, layout, frames)?;
    page.end()
}
