//! The shared words of a line as it opens.
ghost use Rattle.std.specs.Prelude.{◌≡◌, IfOk, replicate};
ghost use Rattle.instrument_rule.specs.Posts.{plan_of, view_of};
ghost use Rattle.instrument_rule.specs.Views.{first_view};

use crate::line::Line;
use crate::post::Post;
use atomic_table::Table;
use line_plan::Plan;
use rail_text::NoMemory;
use std::alloc::{AllocError, Global};

// So many words, all 0.
fn opening_words(alloc: Global, count: usize) -> Result<Vec<u64>, AllocError>
    ensures { IfOk result (λ v. v.items ≡ replicate count 0) }
{
    let mut words = Vec::new(alloc);
    for _ in 0..count {
        words.push(0)?;
    }
    Ok(words)
}

/// The shared words of a line as it opens, all 0, and its first post, which holds no box and has seen nothing. No other
/// call on a line takes memory.
pub fn open_words(alloc: Global, plan: &Plan) -> Result<(Line, Post), NoMemory>
    ensures line { IfOk result (λ r. plan_of r.0 ≡ plan.now) }
    ensures post { IfOk result (λ r. (r.1.seat.table_id ≡ r.0.table.shared.table_id)
        × (view_of r.1 ≡ first_view plan.now)) }
{
    let boxes = plan.boxes.len();
    let words = opening_words(alloc, 1 + boxes + 6 * (boxes - 1))?;
    let (table, seat) = Table::of_words(alloc, words.as_slice(), plan)?;
    Ok((
        Line {
            table,
            boxes: boxes as u32,
        },
        Post { seat, first: None },
    ))
}
