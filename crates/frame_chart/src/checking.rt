//! Whether a chart, whoever made it, is shown.

ghost use Rattle.std.specs.Prelude.{◌≡◌, ◌≤◌, ◌↔◌, ℕ, All, IsTrue, List, length, option_map};
ghost use Rattle.frame_chart.specs.Charts.{IsShownChart, IsSoundLayout, different};
ghost use Rattle.frame_chart.specs.Checking.{ColumnShows, are_sound, behind, meets_any, are_crossed};
ghost use Rattle.frame_chart.specs.Spans.{spans_of};

use crate::charts::Chart;
use crate::span::{Span, span_of};
use bridle_frame::Bridle;

// Whether a span meets that of a bridle in this channel.
fn meets_any(span: Span, channel: u32, bridles: &[Bridle], channels: &[u32]) -> bool
    requires { length channels.now ≡ length bridles.now }
    ensures { result ≡ meets_any span channel (spans_of bridles.now) channels.now }
{
    for (i, bridle) in bridles.iter().enumerate() {
        if channels[i] == channel && span.meets(&span_of(bridle)) {
            return true;
        }
    }
    false
}

// Whether the channels are a sound layout of the bridles.
fn are_sound(bridles: &[Bridle], channels: &[u32]) -> bool
    ensures { result ≡ are_sound (spans_of bridles.now) channels.now }
{
    if channels.len() != bridles.len() {
        return false;
    }
    for (i, bridle) in bridles.iter().enumerate() {
        let channel = channels[i];
        let span = span_of(bridle);
        if channel == 0 || meets_any(span, channel, &bridles[i + 1..], &channels[i + 1..]) {
            return false;
        }
    }
    true
}

fn are_within(channels: &[u32], count: u32) -> bool
    ensures { IsTrue result ↔ All (λ channel. channel ≤ count) channels.now }
{
    channels.iter().all(|channel| *channel <= count)
}

// The numbers behind this one, where it is the first.
fn behind(number: usize, numbers: &[u32]) -> Option<&[u32]>
    ensures { option_map (λ others. others.now) result ≡ behind number numbers.now }
{
    match numbers {
        [] => None,
        [first, others @ ..] => {
            if *first as usize == number {
                Some(others)
            } else {
                None
            }
        }
    }
}

// Whether the numbers are those of all bridles that a lever crosses, in order.
fn are_crossed(lever: u32, bridles: &[Bridle], numbers: &[u32]) -> bool
    ensures { result ≡ are_crossed 1 lever (spans_of bridles.now) numbers.now }
{
    let mut left = numbers;
    for (i, bridle) in bridles.iter().enumerate() {
        if span_of(bridle).is_crossed_by(lever) {
            match behind(i + 1, left) {
                Some(others) => left = others,
                None => return false,
            }
        }
    }
    left.is_empty()
}

// Whether `crossing` names all bridles that the column crosses, in order, as many as there are channels, and without
// bridles there is no column.
fn column_shows(bridles: &[Bridle], chart: &Chart) -> bool
    ensures { IsTrue result ↔ ColumnShows (spans_of bridles.now) chart.now }
{
    let crossing = chart.crossing.as_slice();
    are_crossed(chart.column, bridles, crossing)
        && crossing.len() == chart.count as usize
        && (!bridles.is_empty() || chart.column == 0)
}

/// Whether a chart of these bridles is shown: its channels are a sound layout, each at most `count`, and `crossing`
/// names all bridles that the column crosses, in order, `count` of them; without bridles there is no column. Then no
/// sound layout has fewer channels. It takes no memory.
pub fn chart_holds(bridles: &[Bridle], chart: &Chart) -> bool
    ensures shown { IsTrue result ↔ IsShownChart (spans_of bridles.now) chart.now }
    ensures fewest { IsTrue result → (channels : List ℕ)
        → IsSoundLayout (spans_of bridles.now) channels → chart.now.count ≤ different channels }
{
    let channels = chart.channels.as_slice();
    are_sound(bridles, channels)
        && are_within(channels, chart.count)
        && column_shows(bridles, chart)
}
