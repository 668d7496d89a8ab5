//! The attributes of an element.

ghost use Rattle.std.specs.Prelude.{◌≡◌, ◌++◌, OnOk, string_bytes};
ghost use Rattle.std.specs.List.{flat_map};
ghost use Rattle.mark_up.specs.Attributes.{attribute_name, attribute_text, told, told_value, value_text};

use crate::escapes::put_quoted;
use std::alloc::AllocError;
use std::fmt::Write;

/// What an attribute tells.
#[derive(Clone, Copy, Debug, PartialEq, Eq)]
pub enum Name {
    X,
    Y,
    Width,
    Height,
    FromX,
    FromY,
    ToX,
    ToY,
    CentreX,
    CentreY,
    Radius,
    Corner,
    Data,
    Points,
    ViewBox,
    Transform,
    Anchor,
    Class,
    Id,
    Href,
    Role,
    Label,
    Namespace,
    Language,
    Charset,
    Kind,
    Scope,
    Span,
    ColumnSpan,
    RowSpan,
    Fill,
    Units,
}

/// A number, or a text that is escaped.
#[derive(Clone, Copy, Debug)]
pub enum Value<'a> {
    Number(u64),
    Text(&'a str),
}

/// An attribute with its value.
pub type Attribute<'a> = (Name, Value<'a>);

/// The name of an attribute.
pub fn attribute_name(name: Name) -> &'static str
    ensures { result.now ≡ attribute_name name }
{
    match name {
        Name::X => "x",
        Name::Y => "y",
        Name::Width => "width",
        Name::Height => "height",
        Name::FromX => "x1",
        Name::FromY => "y1",
        Name::ToX => "x2",
        Name::ToY => "y2",
        Name::CentreX => "cx",
        Name::CentreY => "cy",
        Name::Radius => "r",
        Name::Corner => "rx",
        Name::Data => "d",
        Name::Points => "points",
        Name::ViewBox => "viewBox",
        Name::Transform => "transform",
        Name::Anchor => "text-anchor",
        Name::Class => "class",
        Name::Id => "id",
        Name::Href => "href",
        Name::Role => "role",
        Name::Label => "aria-label",
        Name::Namespace => "xmlns",
        Name::Language => "lang",
        Name::Charset => "charset",
        Name::Kind => "type",
        Name::Scope => "scope",
        Name::Span => "span",
        Name::ColumnSpan => "colspan",
        Name::RowSpan => "rowspan",
        Name::Fill => "fill",
        Name::Units => "patternUnits",
    }
}

fn put_value(out: &mut String, value: Value<'_>) -> Result<(), AllocError>
    ensures { OnOk result (string_bytes out.new ≡ string_bytes out.old ++ value_text (told_value value.entry)) }
{
    match value {
        Value::Number(number) => write!(out, "{number}"),
        Value::Text(text) => put_quoted(out, text),
    }
}

#[tactic(auto, unfolding(crate::specs::Attributes::attribute_text))]
fn put_attribute(out: &mut String, attribute: &Attribute<'_>) -> Result<(), AllocError>
    ensures { OnOk result (string_bytes out.new
        ≡ string_bytes out.old ++ attribute_text (attribute.now.0, told_value attribute.now.1)) }
{
    let (name, value) = *attribute;
    out.push_str(" ")?;
    out.push_str(attribute_name(name))?;
    out.push_str("=\"")?;
    put_value(out, value)?;
    out.push_str("\"")
}

/// Puts attributes behind a text.
pub fn put_attributes(out: &mut String, attributes: &[Attribute<'_>]) -> Result<(), AllocError>
    ensures { OnOk result (string_bytes out.new
        ≡ string_bytes out.old ++ flat_map attribute_text (told attributes.now)) }
{
    for attribute in attributes {
        put_attribute(out, attribute)?;
    }
    Ok(())
}
