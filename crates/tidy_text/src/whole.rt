//! A text whose form is mended.

ghost use Rattle.std.specs.Prelude.{◌≡◌, ◌^◌, ◌<◌, ◌≤◌, IfOk, length};
ghost use Rattle.tidy_text.specs.Tidy.{has_mark, tidy_text, without_marks};

use crate::line::put_tidy_line;
use rail_text::Lines;
use std::alloc::{AllocError, Global};

// The bytes of a byte order mark.
const MARK: &[u8] = &[0xEF, 0xBB, 0xBF];

// Whether a byte order mark stands in front.
fn has_mark(bytes: &[u8]) -> bool
    ensures { result ≡ has_mark bytes.now }
{
    bytes.starts_with(MARK)
}

// Without the byte order marks in front.
fn without_marks(bytes: &[u8]) -> &[u8]
    ensures left { result.now ≡ without_marks bytes.now }
    ensures fewer { length result.now ≤ length bytes.now }
{
    let mut rest = bytes;
    while has_mark(rest) {
        rest = &rest[MARK.len()..];
    }
    rest
}

/// The text with its form mended: without byte order marks in front, each line with an end that is one line feed, its
/// words with single spaces between them and none around them. Tabs and carriage returns are blanks as spaces are. In a
/// comment, a line that begins with `#`, the spaces stay. Nothing else is changed, so that a text which is tidy already
/// stays as it is. It takes any bytes, fewer than 2^32.
pub fn tidy(alloc: Global, bytes: &[u8]) -> Result<Vec<u8>, AllocError>
    requires { length bytes.now < 2 ^ 32 }
    ensures { IfOk result (λ text. text.items ≡ tidy_text bytes.now) }
{
    let mut text = Vec::new(alloc);
    let mut lines = Lines::new(without_marks(bytes));
    while let Some(line) = lines.next() {
        put_tidy_line(&mut text, line.text)?;
    }
    Ok(text)
}
