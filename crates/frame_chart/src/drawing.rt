//! The drawing of a channel: what it shows at each lever.

ghost use Rattle.std.specs.Prelude.{◌≡◌, ◌<◌, ◌^◌, length};
ghost use Rattle.frame_chart.specs.Printing.{drawn, drawn_from, mark_of, mark_over, mark_text};
ghost use Rattle.frame_chart.specs.Spans.{span_of};

use crate::span::{Span, span_of};
use bridle_frame::{Bridle, Dog, Notches};

/// What a channel shows where it crosses a tappet.
#[derive(Clone, Copy, Debug, PartialEq, Eq)]
pub enum Mark {
    /// No bridle of the channel crosses it.
    Outside,
    /// A bridle crosses it, without a dog there.
    Inside,
    /// A bridle has a dog there, with these notches.
    Notched(Notches),
}

// The mark as it is printed.
pub fn mark_text(mark: Mark) -> &'static str
    ensures { result.now ≡ mark_text mark }
{
    match mark {
        Mark::Outside => ".",
        Mark::Inside => "-",
        Mark::Notched(Notches::Normal) => "N",
        Mark::Notched(Notches::Reversed) => "R",
        Mark::Notched(Notches::Both) => "B",
    }
}

// What a bridle with these dogs shows at a lever in its span.
fn mark_of(lever: u32, dogs: &[Dog]) -> Mark
    ensures { result ≡ mark_of lever dogs.now }
{
    for dog in dogs {
        if dog.lever == lever {
            return Mark::Notched(dog.notches);
        }
    }
    Mark::Inside
}

// The mark at a lever once a bridle with this span is drawn over it.
fn mark_over(lever: u32, bridle: &Bridle, span: Span, mark: Mark) -> Mark
    requires { span ≡ span_of bridle.now }
    ensures { result ≡ mark_over lever bridle.now mark }
{
    if span.is_crossed_by(lever) {
        mark_of(lever, bridle.dogs.as_slice())
    } else {
        mark
    }
}

// Draws a bridle over the marks from lever 1 on.
fn draw(drawing: &mut [Mark], bridle: &Bridle)
    requires { length drawing.old < 2 ^ 32 }
    ensures { drawing.new ≡ drawn_from 1 bridle.now drawing.old }
{
    let span = span_of(bridle);
    for (place, mark) in drawing.iter_mut().enumerate() {
        *mark = mark_over(place as u32 + 1, bridle, span, *mark);
    }
}

// Draws the bridles of a channel over the marks from lever 1 on.
pub fn draw_channel(drawing: &mut [Mark], channel: u32, bridles: &[Bridle], channels: &[u32])
    requires few { length drawing.old < 2 ^ 32 }
    requires each { length channels.now ≡ length bridles.now }
    ensures { drawing.new ≡ drawn channel drawing.old bridles.now channels.now }
{
    for (i, bridle) in bridles.iter().enumerate() {
        if channels[i] == channel {
            draw(drawing, bridle);
        }
    }
}
