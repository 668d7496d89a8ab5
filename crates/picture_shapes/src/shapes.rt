//! The shapes of a picture.

ghost use Rattle.std.specs.Prelude.{◌≡◌, ◌++◌, ◌∷◌, IfOk, OnErr, OnOk, string_bytes};
ghost use Rattle.picture_shapes.specs.Shapes.{group_start, line_text, number_text, polygon_text, rect_text, turn_text};
ghost use Rattle.picture_shapes.specs.Shapes.{upright_text, words_text};
ghost use Rattle.mark_up.specs.declared.tags.Tag.TheVariants.{Group};

use mark_up::{EmptyTag, Name, Page, Tag, Value};
use std::alloc::{AllocError, Global};
use std::fmt::Write;

/// A point, counted from the left and from the top.
#[derive(Clone, Copy, Debug)]
pub struct Point {
    pub x: u64,
    pub y: u64,
}

impl Point {
    /// The point so far from the left and from the top.
    pub fn new(x: u64, y: u64) -> Point
        ensures { result ≡ record { x = x; y = y } }
    {
        Point { x, y }
    }
}

/// Puts a rectangle with this corner at its left and top.
#[tactic(auto, unfolding(crate::specs::Shapes::rect_text))]
pub fn put_rect(
    page: &mut Page,
    class: &str,
    corner: Point,
    width: u64,
    height: u64,
) -> Result<(), AllocError>
    ensures text { OnOk result (page.new.text ≡ page.old.text ++ rect_text class.now corner width height) }
    ensures tags { OnOk result (page.new.open_tags ≡ page.old.open_tags) }
    ensures err { OnErr result (page.new ≡ page.old) }
{
    page.put(
        EmptyTag::Rect,
        &[
            (Name::Class, Value::Text(class)),
            (Name::X, Value::Number(corner.x)),
            (Name::Y, Value::Number(corner.y)),
            (Name::Width, Value::Number(width)),
            (Name::Height, Value::Number(height)),
        ],
    )
}

/// Puts a line from one point to another.
#[tactic(auto, unfolding(crate::specs::Shapes::line_text))]
pub fn put_line(page: &mut Page, class: &str, from: Point, to: Point) -> Result<(), AllocError>
    ensures text { OnOk result (page.new.text ≡ page.old.text ++ line_text class.now from to) }
    ensures tags { OnOk result (page.new.open_tags ≡ page.old.open_tags) }
    ensures err { OnErr result (page.new ≡ page.old) }
{
    page.put(
        EmptyTag::Line,
        &[
            (Name::Class, Value::Text(class)),
            (Name::FromX, Value::Number(from.x)),
            (Name::FromY, Value::Number(from.y)),
            (Name::ToX, Value::Number(to.x)),
            (Name::ToY, Value::Number(to.y)),
        ],
    )
}

/// Puts a closed figure with these corners, written as SVG has them.
#[tactic(auto, unfolding(crate::specs::Shapes::polygon_text))]
pub fn put_polygon(page: &mut Page, class: &str, corners: &str) -> Result<(), AllocError>
    ensures text { OnOk result (page.new.text ≡ page.old.text ++ polygon_text class.now corners.now) }
    ensures tags { OnOk result (page.new.open_tags ≡ page.old.open_tags) }
    ensures err { OnErr result (page.new ≡ page.old) }
{
    page.put(
        EmptyTag::Polygon,
        &[
            (Name::Class, Value::Text(class)),
            (Name::Points, Value::Text(corners)),
        ],
    )
}

/// Puts words at a point.
#[tactic(auto, unfolding(crate::specs::Shapes::words_text))]
pub fn put_words(page: &mut Page, class: &str, at: Point, text: &str) -> Result<(), AllocError>
    ensures text { OnOk result (page.new.text ≡ page.old.text ++ words_text class.now at text.now) }
    ensures tags { OnOk result (page.new.open_tags ≡ page.old.open_tags) }
    ensures err { OnErr result (page.new ≡ page.old) }
{
    page.put_text(
        Tag::Text,
        &[
            (Name::Class, Value::Text(class)),
            (Name::X, Value::Number(at.x)),
            (Name::Y, Value::Number(at.y)),
        ],
        text,
    )
}

/// Puts a number at a point.
#[tactic(auto, unfolding(crate::specs::Shapes::number_text))]
pub fn put_number(
    page: &mut Page,
    alloc: Global,
    class: &str,
    at: Point,
    number: u32,
) -> Result<(), AllocError>
    ensures text { OnOk result (page.new.text ≡ page.old.text ++ number_text class.now at number) }
    ensures tags { OnOk result (page.new.open_tags ≡ page.old.open_tags) }
    ensures err { OnErr result (page.new ≡ page.old) }
{
    let text = format!(in alloc; "{number}")?;
    put_words(page, class, at, text.as_str())
}

// The turn by which words at a point are read upwards.
#[tactic(auto, unfolding(crate::specs::Shapes::turn_text))]
fn turn_text(alloc: Global, at: Point) -> Result<String, AllocError>
    ensures { IfOk result (λ text. string_bytes text ≡ turn_text at) }
{
    let (x, y) = (at.x, at.y);
    let mut text = String::new(alloc);
    text.push_str("translate(")?;
    write!(text, "{x} {y}")?;
    text.push_str(") rotate(-90)")?;
    Ok(text)
}

/// Puts words that are read from a point upwards.
#[tactic(auto, unfolding(crate::specs::Shapes::upright_text))]
pub fn put_upright(
    page: &mut Page,
    alloc: Global,
    class: &str,
    at: Point,
    text: &str,
) -> Result<(), AllocError>
    ensures text { OnOk result (page.new.text ≡ page.old.text ++ upright_text class.now at text.now) }
    ensures tags { OnOk result (page.new.open_tags ≡ page.old.open_tags) }
    ensures err { OnErr result (page.new ≡ page.old) }
{
    let turn = turn_text(alloc, at)?;
    page.put_text(
        Tag::Text,
        &[
            (Name::Class, Value::Text(class)),
            (Name::Transform, Value::Text(turn.as_str())),
        ],
        text,
    )
}

/// Begins a group of shapes that is told as one by this name, for readers by ear.
#[tactic(auto, unfolding(crate::specs::Shapes::group_start))]
pub fn begin_group(page: &mut Page, name: &str) -> Result<(), AllocError>
    ensures text { OnOk result (page.new.text ≡ page.old.text ++ group_start name.now) }
    ensures tags { OnOk result (page.new.open_tags ≡ Group ∷ page.old.open_tags) }
{
    page.start(
        Tag::Group,
        &[
            (Name::Role, Value::Text("img")),
            (Name::Label, Value::Text(name)),
        ],
    )?;
    page.put_text(Tag::Title, &[], name)
}
