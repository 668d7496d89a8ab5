//! The chart of a frame's bridles.

ghost use Rattle.std.specs.Prelude.{◌≡◌, ◌<◌, ◌≤◌, ◌^◌, ℕ, All, IfOk, List, length};
ghost use Rattle.locking_table.specs.Places.{most_levers};
ghost use Rattle.bridle_frame.specs.Seated.{BridleFits};
ghost use Rattle.frame_chart.specs.Charts.{IsChartOf};
ghost use Rattle.frame_chart.specs.Laying.{chart_of, chart_of_spans};
ghost use Rattle.frame_chart.specs.Spans.{spans_of};

use crate::charts::Chart;
use crate::column::{column_of, crossed_by};
use crate::layout::channels_of;
use crate::span::{Span, spans_of};
use bridle_frame::Bridle;
use line_plan::Items;
use rail_text::NoMemory;
use std::alloc::Global;

// The chart of bridles with these spans.
fn chart_of_spans(alloc: Global, spans: &[Span]) -> Result<Chart, NoMemory>
    requires { length spans.now < 2 ^ 32 }
    ensures { IfOk result (λ chart. chart ≡ chart_of_spans spans.now) }
{
    let channels = channels_of(alloc, spans)?;
    let column = column_of(spans);
    let crossing = crossed_by(alloc, spans, column)?;
    Ok(Chart {
        channels: Items::from_vec(channels),
        count: crossing.len() as u32,
        column,
        crossing: Items::from_vec(crossing),
    })
}

/// The chart of a frame's bridles: they are laid by lowest lever, then highest, then number, each into the least
/// channel that stays sound, and no sound layout has fewer channels. The column is the least lever that as many
/// bridles cross as there are channels. `Frame::accepts` with the most levers tells whether bridles fit.
pub fn chart(alloc: Global, bridles: &[Bridle]) -> Result<Chart, NoMemory>
    requires few { length bridles.now < 2 ^ 32 }
    requires fits { All (BridleFits most_levers) bridles.now }
    ensures chart { IfOk result (λ chart. chart ≡ chart_of bridles.now) }
    ensures holds { IfOk result (λ chart. IsChartOf (spans_of bridles.now) chart) }
{
    let spans = spans_of(alloc, bridles)?;
    chart_of_spans(alloc, &spans)
}
