//! Text as it stands in a page.

ghost use Rattle.std.specs.Prelude.{◌≡◌, ◌++◌, OnOk, string_bytes};
ghost use Rattle.mark_up.specs.Escapes.{escaped, escaped_char, quoted, quoted_char};

use std::alloc::AllocError;

// Puts a character of a text.
fn put_escaped_char(out: &mut String, c: char) -> Result<(), AllocError>
    ensures { OnOk result (string_bytes out.new ≡ string_bytes out.old ++ escaped_char c) }
{
    match c {
        '&' => out.push_str("&amp;"),
        '<' => out.push_str("&lt;"),
        '>' => out.push_str("&gt;"),
        '\t' | '\n' => out.push(c),
        '\r' => out.push_str("&#13;"),
        '\0'..='\u{1f}' | '\u{fffe}' | '\u{ffff}' => out.push('\u{fffd}'),
        _ => out.push(c),
    }
}

// Puts a character of a value.
fn put_quoted_char(out: &mut String, c: char) -> Result<(), AllocError>
    ensures { OnOk result (string_bytes out.new ≡ string_bytes out.old ++ quoted_char c) }
{
    match c {
        '"' => out.push_str("&quot;"),
        '\t' => out.push_str("&#9;"),
        '\n' => out.push_str("&#10;"),
        _ => put_escaped_char(out, c),
    }
}

/// Puts a text behind another, escaped as content of an element.
#[tactic(auto, unfolding(crate::specs::Escapes::escaped))]
pub fn put_escaped(out: &mut String, text: &str) -> Result<(), AllocError>
    ensures { OnOk result (string_bytes out.new ≡ string_bytes out.old ++ escaped text.now) }
{
    for c in text.chars() {
        put_escaped_char(out, c)?;
    }
    Ok(())
}

/// Puts a text behind another, escaped as the value of an attribute between double quotes.
#[tactic(auto, unfolding(crate::specs::Escapes::quoted))]
pub fn put_quoted(out: &mut String, text: &str) -> Result<(), AllocError>
    ensures { OnOk result (string_bytes out.new ≡ string_bytes out.old ++ quoted text.now) }
{
    for c in text.chars() {
        put_quoted_char(out, c)?;
    }
    Ok(())
}
