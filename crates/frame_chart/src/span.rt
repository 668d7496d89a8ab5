//! The span of a bridle.

ghost use Rattle.std.specs.Prelude.{◌≡◌, IfOk};
ghost use Rattle.frame_chart.specs.Checking.{meet};
ghost use Rattle.frame_chart.specs.Spans.{crosses, span_of, spans_of, widened_by};

use bridle_frame::{Bridle, Dog};
use rail_text::NoMemory;
use std::alloc::Global;

/// From the lowest to the highest lever of a bridle.
#[derive(Clone, Copy, Debug, PartialEq, Eq)]
pub struct Span {
    pub lowest: u32,
    pub highest: u32,
}

impl Span {
    // Whether a lever lies in the span.
    pub fn is_crossed_by(&self, lever: u32) -> bool
        ensures { result ≡ crosses lever self.now }
    {
        self.lowest <= lever && lever <= self.highest
    }

    // Whether a lever crosses both spans.
    pub fn meets(&self, other: &Span) -> bool
        ensures { result ≡ meet self.now other.now }
    {
        self.lowest <= other.highest && other.lowest <= self.highest
    }
}

// The span once these dogs are added.
fn widened_by(span: Span, dogs: &[Dog]) -> Span
    ensures { result ≡ widened_by span dogs.now }
{
    let mut wide = span;
    for dog in dogs {
        wide = Span {
            lowest: wide.lowest.min(dog.lever),
            highest: wide.highest.max(dog.lever),
        };
    }
    wide
}

// The span of a bridle.
pub fn span_of(bridle: &Bridle) -> Span
    ensures { result ≡ span_of bridle.now }
{
    match bridle.dogs.as_slice() {
        [] => Span {
            lowest: 0,
            highest: 0,
        },
        [first, others @ ..] => {
            let narrow = Span {
                lowest: first.lever,
                highest: first.lever,
            };
            widened_by(narrow, others)
        }
    }
}

// The spans of bridles.
pub fn spans_of(alloc: Global, bridles: &[Bridle]) -> Result<Vec<Span>, NoMemory>
    ensures { IfOk result (λ spans. spans.items ≡ spans_of bridles.now) }
{
    let mut spans = Vec::new(alloc);
    for bridle in bridles {
        spans.push(span_of(bridle))?;
    }
    Ok(spans)
}
