//! The tappet column that crosses the most bridles.

ghost use Rattle.std.specs.Prelude.{◌≡◌, ◌<◌, ◌≤◌, ◌^◌, IfOk, length};
ghost use Rattle.locking_table.specs.Places.{most_levers};
ghost use Rattle.frame_chart.specs.Charts.{count_crossed, crossed_by};
ghost use Rattle.frame_chart.specs.Laying.{column_of};

use crate::span::Span;
use locking_table::MOST_LEVERS;
use rail_text::NoMemory;
use std::alloc::Global;

// How many spans a lever crosses.
fn count_crossed(spans: &[Span], lever: u32) -> usize
    ensures { result ≡ count_crossed lever spans.now }
{
    spans
        .iter()
        .filter(|span| span.is_crossed_by(lever))
        .count()
}

// The least lever that crosses the most spans; 0 where none crosses any.
pub fn column_of(spans: &[Span]) -> u32
    ensures { result ≡ column_of most_levers spans.now }
{
    let mut column = 0;
    let mut most = 0;
    for before in 0..MOST_LEVERS {
        let crossed = count_crossed(spans, before + 1);
        if most < crossed {
            column = before + 1;
            most = crossed;
        }
    }
    column
}

// The numbers of the bridles whose spans a lever crosses, in order.
pub fn crossed_by(alloc: Global, spans: &[Span], lever: u32) -> Result<Vec<u32>, NoMemory>
    requires { length spans.now < 2 ^ 32 }
    ensures numbers { IfOk result (λ numbers. numbers.items ≡ crossed_by lever spans.now) }
    ensures few { IfOk result (λ numbers. length numbers.items ≤ length spans.now) }
{
    let mut numbers = Vec::new(alloc);
    for (i, span) in spans.iter().enumerate() {
        if span.is_crossed_by(lever) {
            numbers.push(i as u32 + 1)?;
        }
    }
    Ok(numbers)
}
