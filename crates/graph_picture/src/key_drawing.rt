//! The key of a picture.

ghost use Rattle.std.specs.Prelude.{◌≡◌, ◌++◌, ◌<◌, ◌^◌, OnOk};
ghost use Rattle.graph_picture.specs.Pictures.{bars_key, key_text};

use mark_up::Page;
use picture_shapes::{Point, put_rect, put_words};
use std::alloc::AllocError;

// What the marks of trains are.
pub const MARKS: &str =
    "A square: a train comes to a stand, or enters a section. An arrow head: it goes away.";

// What the marks of what isn't right are.
pub const WARNINGS: &str =
    "A triangle: a signal passed at danger. A diamond: a divided train, whose left portion is dashed.";

// Puts what the bars are.
#[tactic(auto, unfolding(crate::specs::Pictures::bars_key))]
fn put_bars_key(page: &mut Page, y: u64) -> Result<(), AllocError>
    requires { y < 2 ^ 50 }
    ensures text { OnOk result (page.new.text ≡ page.old.text ++ bars_key y) }
    ensures tags { OnOk result (page.new.open_tags ≡ page.old.open_tags) }
{
    put_rect(page, "clear", Point::new(16, y + 2), 40, 4)?;
    put_words(page, "word", Point::new(64, y + 9), "Line Clear")?;
    put_rect(page, "occupied", Point::new(160, y + 1), 40, 6)?;
    put_words(page, "word", Point::new(208, y + 9), "Train on Line")
}

/// Puts the key: what the bars and the marks of trains are.
#[tactic(auto, unfolding(crate::specs::Pictures::key_text))]
pub fn put_key(page: &mut Page, y: u64) -> Result<(), AllocError>
    requires { y < 2 ^ 50 }
    ensures text { OnOk result (page.new.text ≡ page.old.text ++ key_text y) }
    ensures tags { OnOk result (page.new.open_tags ≡ page.old.open_tags) }
{
    put_bars_key(page, y)?;
    put_words(page, "word", Point::new(16, y + 30), MARKS)?;
    put_words(page, "word", Point::new(16, y + 48), WARNINGS)
}
