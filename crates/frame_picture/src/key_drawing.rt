//! The key of a picture: what its colours, letters and shapes mean.

ghost use Rattle.std.specs.Prelude.{◌≡◌, ◌++◌, ◌<◌, ◌^◌, OnOk, codes};
ghost use Rattle.frame_picture.specs.Pictures.{key_text, kind_text, other_kinds_text, signal_kinds_text};
ghost use Rattle.frame_picture.specs.Places.{point};
ghost use Rattle.picture_shapes.specs.Shapes.{words_text};

use crate::frame_drawing::{body_class, kind_letter, letter_class};
use line_plan::Kind;
use mark_up::Page;
use picture_shapes::{Point, put_rect, put_words};
use std::alloc::AllocError;

// What bars and dogs are.
pub const BRIDLES: &str =
    "Each bar is a bridle, with the number of its row; a dog on it has a notch in the tappet of its lever,";

// What the letters on dogs mean.
pub const NOTCHES: &str =
    "N where the lever is normal, R where it is reversed, B at both. Each bar has a dog in a notch at every moment.";

// A lever's colour and letter, and its kind.
#[tactic(auto, unfolding(crate::specs::Pictures::kind_text))]
fn put_kind(page: &mut Page, corner: Point, kind: Kind, words: &str) -> Result<(), AllocError>
    requires { (corner.x < 2 ^ 40) × (corner.y < 2 ^ 60) }
    ensures text { OnOk result (page.new.text ≡ page.old.text ++ kind_text corner kind words.now) }
    ensures tags { OnOk result (page.new.open_tags ≡ page.old.open_tags) }
{
    let (x, y) = (corner.x, corner.y);
    put_rect(page, body_class(kind), corner, 18, 18)?;
    put_words(
        page,
        letter_class(kind),
        Point::new(x + 9, y + 13),
        kind_letter(kind),
    )?;
    put_words(page, "row", Point::new(x + 26, y + 13), words)
}

// Puts what the colours and letters of the levers of signals mean.
#[tactic(auto, unfolding(crate::specs::Pictures::signal_kinds_text))]
fn put_signal_kinds(page: &mut Page, y: u64) -> Result<(), AllocError>
    requires { y < 2 ^ 50 }
    ensures text { OnOk result (page.new.text ≡ page.old.text ++ signal_kinds_text y) }
    ensures tags { OnOk result (page.new.open_tags ≡ page.old.open_tags) }
{
    put_kind(page, Point::new(48, y), Kind::Signal, "stop signal")?;
    put_kind(page, Point::new(178, y), Kind::Distant, "distant signal")
}

// The same of the other levers.
#[tactic(auto, unfolding(crate::specs::Pictures::other_kinds_text))]
fn put_other_kinds(page: &mut Page, y: u64) -> Result<(), AllocError>
    requires { y < 2 ^ 50 }
    ensures text { OnOk result (page.new.text ≡ page.old.text ++ other_kinds_text y) }
    ensures tags { OnOk result (page.new.open_tags ≡ page.old.open_tags) }
{
    put_kind(page, Point::new(328, y), Kind::Points, "points")?;
    put_kind(page, Point::new(428, y), Kind::Lock, "facing point lock")?;
    put_kind(page, Point::new(598, y), Kind::Spare, "spare")
}

// Puts a line that tells what the chart means.
fn put_sentence(page: &mut Page, y: u64, said: &str) -> Result<(), AllocError>
    ensures text { OnOk result (page.new.text ≡ page.old.text ++ words_text (codes "row") (point 48 y) said.now) }
    ensures tags { OnOk result (page.new.open_tags ≡ page.old.open_tags) }
{
    put_words(page, "row", Point::new(48, y), said)
}

/// Puts the key: what the colours, letters and shapes of a picture mean.
#[tactic(auto, unfolding(crate::specs::Pictures::key_text))]
pub fn put_key(page: &mut Page, y: u64) -> Result<(), AllocError>
    requires { y < 2 ^ 50 }
    ensures text { OnOk result (page.new.text ≡ page.old.text ++ key_text y) }
    ensures tags { OnOk result (page.new.open_tags ≡ page.old.open_tags) }
{
    put_signal_kinds(page, y)?;
    put_other_kinds(page, y)?;
    put_sentence(page, y + 42, BRIDLES)?;
    put_sentence(page, y + 58, NOTCHES)
}
