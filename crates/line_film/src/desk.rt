//! What stands above the picture: the buttons, the slider, and what is told of the entry.

ghost use Rattle.std.specs.Prelude.{◌≡◌, ◌++◌, ◌<◌, [], OnOk, length};
ghost use Rattle.line_film.specs.Desk.{button_html, buttons_html, desk_html, keys_html, line_html, slider_html};
ghost use Rattle.line_film.specs.Desk.{steps_html, told_html};

use mark_up::{EmptyTag, Name, Page, Tag, Value};
use std::alloc::AllocError;

// How the page is used.
const KEYS: &str = "Left and right arrow step, Home and End go to the ends, the space bar plays. \
An outline shows what the entry changed.";

// Puts a button.
#[tactic(auto, unfolding(crate::specs::Desk::button_html))]
fn put_button(page: &mut Page, id: &str, text: &str) -> Result<(), AllocError>
    ensures text { OnOk result (page.new.text ≡ page.old.text ++ button_html id.now text.now) }
    ensures tags { OnOk result (page.new.open_tags ≡ page.old.open_tags) }
{
    page.put_text(
        Tag::Button,
        &[
            (Name::Id, Value::Text(id)),
            (Name::Kind, Value::Text("button")),
        ],
        text,
    )
}

// Puts the buttons.
#[tactic(auto, unfolding(crate::specs::Desk::buttons_html))]
fn put_buttons(page: &mut Page) -> Result<(), AllocError>
    ensures text { OnOk result (page.new.text ≡ page.old.text ++ buttons_html) }
    ensures tags { OnOk result (page.new.open_tags ≡ page.old.open_tags) }
{
    put_button(page, "back", "Back")?;
    put_button(page, "next", "Next")?;
    put_button(page, "play", "Play")
}

// Puts the slider.
#[tactic(auto, unfolding(crate::specs::Desk::slider_html))]
fn put_slider(page: &mut Page) -> Result<(), AllocError>
    ensures text { OnOk result (page.new.text ≡ page.old.text ++ slider_html) }
    ensures tags { OnOk result (page.new.open_tags ≡ page.old.open_tags) }
{
    page.put(
        EmptyTag::Input,
        &[
            (Name::Id, Value::Text("slider")),
            (Name::Kind, Value::Text("range")),
            (Name::Label, Value::Text("Entry")),
        ],
    )
}

// Puts the buttons and the slider.
#[tactic(auto, unfolding(crate::specs::Desk::steps_html))]
fn put_steps(page: &mut Page) -> Result<(), AllocError>
    requires { 0 < length page.old.open_tags }
    ensures text { OnOk result (page.new.text ≡ page.old.text ++ steps_html) }
    ensures tags { OnOk result (page.new.open_tags ≡ page.old.open_tags) }
{
    page.start(Tag::Division, &[(Name::Id, Value::Text("steps"))])?;
    put_buttons(page)?;
    put_slider(page)?;
    page.end()
}

// Puts a paragraph of this name, in which the page tells something of the entry.
#[tactic(auto, unfolding(crate::specs::Desk::line_html))]
fn put_line(page: &mut Page, id: &str) -> Result<(), AllocError>
    ensures text { OnOk result (page.new.text ≡ page.old.text ++ line_html id.now) }
    ensures tags { OnOk result (page.new.open_tags ≡ page.old.open_tags) }
{
    page.put_text(Tag::Paragraph, &[(Name::Id, Value::Text(id))], "")
}

// Puts where the page tells the number of the entry, its words, and why it is refused.
#[tactic(auto, unfolding(crate::specs::Desk::told_html))]
fn put_told(page: &mut Page) -> Result<(), AllocError>
    requires { 0 < length page.old.open_tags }
    ensures text { OnOk result (page.new.text ≡ page.old.text ++ told_html) }
    ensures tags { OnOk result (page.new.open_tags ≡ page.old.open_tags) }
{
    page.start(Tag::Division, &[(Name::Role, Value::Text("status"))])?;
    put_line(page, "count")?;
    put_line(page, "words")?;
    put_line(page, "says")?;
    page.end()
}

// Puts how the page is used.
#[tactic(auto, unfolding(crate::specs::Desk::keys_html))]
fn put_keys(page: &mut Page) -> Result<(), AllocError>
    ensures text { OnOk result (page.new.text ≡ page.old.text ++ keys_html) }
    ensures tags { OnOk result (page.new.open_tags ≡ page.old.open_tags) }
{
    page.put_text(Tag::Paragraph, &[(Name::Id, Value::Text("keys"))], KEYS)
}

/// Puts what stands above the picture.
#[tactic(auto, unfolding(crate::specs::Desk::desk_html))]
pub fn put_desk(page: &mut Page) -> Result<(), AllocError>
    requires { 0 < length page.old.open_tags }
    ensures text { OnOk result (page.new.text ≡ page.old.text ++ desk_html) }
    ensures tags { OnOk result (page.new.open_tags ≡ page.old.open_tags) }
{
    page.start(Tag::Section, &[(Name::Id, Value::Text("desk"))])?;
    put_steps(page)?;
    put_told(page)?;
    put_keys(page)?;
    page.end()
}
