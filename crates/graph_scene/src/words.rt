//! The words that stand beside the marks of trains.

ghost use Rattle.std.specs.Prelude.{◌≡◌, length};
ghost use Rattle.graph_scene.specs.Words.{overrun_words, train_name, words_of};

use crate::deeds::Deed;
use line_plan::Plan;

/// The name of a train of the plan; nothing of another.
pub fn train_name(plan: &Plan, train: u32) -> &str
    ensures { result.now ≡ train_name plan.now train }
{
    if plan.is_train(train) {
        plan.train(train).name.as_str()
    } else {
        ""
    }
}

// How many letters tell of a signal passed at danger.
fn overrun_letters(at_danger: bool) -> usize
    ensures { result ≡ length (overrun_words at_danger) }
{
    if at_danger { 7 } else { 0 }
}

/// How many letters stand beside the mark of a deed of a train with this name.
pub fn letters_of(name: &str, deed: Deed) -> usize
    ensures { result ≡ length (words_of name.now deed) }
{
    match deed {
        Deed::Brought { .. } | Deed::Berthed { .. } => name.len(),
        Deed::PartBerthed { .. } => name.len() + 8,
        Deed::Passed { at_danger, .. }
        | Deed::Entered { at_danger, .. }
        | Deed::Away { at_danger, .. } => overrun_letters(at_danger),
        Deed::Cleared { .. } => 0,
    }
}
