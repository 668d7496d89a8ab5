//! The elements of a page.

ghost use Rattle.std.specs.Prelude.{◌≡◌};
ghost use Rattle.mark_up.specs.Tags.{empty_name, prolog, tag_name};

/// An element with content between its start tag and its end tag, of HTML or of SVG.
#[derive(Clone, Copy, Debug, PartialEq, Eq)]
pub enum Tag {
    Html,
    Head,
    Title,
    Style,
    Script,
    Body,
    Heading,
    Subheading,
    Paragraph,
    Division,
    Section,
    Button,
    Table,
    Caption,
    ColumnGroup,
    TableHead,
    TableBody,
    TableRow,
    HeadCell,
    Cell,
    Svg,
    Definitions,
    Pattern,
    Group,
    Text,
    Description,
}

/// An element without content, which is written as an empty-element tag.
#[derive(Clone, Copy, Debug, PartialEq, Eq)]
pub enum EmptyTag {
    Meta,
    Input,
    Rect,
    Line,
    Path,
    Circle,
    Polygon,
    Polyline,
    Use,
}

/// The name of an element.
pub fn tag_name(tag: Tag) -> &'static str
    ensures { result.now ≡ tag_name tag }
{
    match tag {
        Tag::Html => "html",
        Tag::Head => "head",
        Tag::Title => "title",
        Tag::Style => "style",
        Tag::Script => "script",
        Tag::Body => "body",
        Tag::Heading => "h1",
        Tag::Subheading => "h2",
        Tag::Paragraph => "p",
        Tag::Division => "div",
        Tag::Section => "section",
        Tag::Button => "button",
        Tag::Table => "table",
        Tag::Caption => "caption",
        Tag::ColumnGroup => "colgroup",
        Tag::TableHead => "thead",
        Tag::TableBody => "tbody",
        Tag::TableRow => "tr",
        Tag::HeadCell => "th",
        Tag::Cell => "td",
        Tag::Svg => "svg",
        Tag::Definitions => "defs",
        Tag::Pattern => "pattern",
        Tag::Group => "g",
        Tag::Text => "text",
        Tag::Description => "desc",
    }
}

/// The name of an element without content.
pub fn empty_name(tag: EmptyTag) -> &'static str
    ensures { result.now ≡ empty_name tag }
{
    match tag {
        EmptyTag::Meta => "meta",
        EmptyTag::Input => "input",
        EmptyTag::Rect => "rect",
        EmptyTag::Line => "line",
        EmptyTag::Path => "path",
        EmptyTag::Circle => "circle",
        EmptyTag::Polygon => "polygon",
        EmptyTag::Polyline => "polyline",
        EmptyTag::Use => "use",
    }
}

/// What stands before the root of a document.
pub fn prolog(root: Tag) -> &'static str
    ensures { result.now ≡ prolog root }
{
    match root {
        Tag::Html => "<!DOCTYPE html>\n",
        _ => "<?xml version=\"1.0\" encoding=\"UTF-8\"?>\n",
    }
}
