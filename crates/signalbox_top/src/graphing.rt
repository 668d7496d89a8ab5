//! `graph PLAN OUTPUT`: the train graph of a journal is drawn.

ghost use Rattle.std.specs.Prelude.{◌≡◌, ◌≢◌, ℕ, List, IfOk, Some, string_bytes};
ghost use Rattle.signalbox_words.specs.Commands.{Command};
ghost use Rattle.signalbox_top.specs.Graphing.{IsGraphOf};
ghost use Rattle.signalbox_top.specs.Top.{Headline, TakesFront};
ghost use Rattle.signalbox_top.specs.Told.{TellsWhy};

use crate::answering::{put_result, tell_trouble};
use crate::status::Status;
use explained_texts::{ReasonedShelf, Trouble, fetch_journal};
use graph_picture::train_graph;
use rail_text::Sink;
use std::alloc::Global;

// The train graph of a journal.
fn graphed<S: ReasonedShelf>(
    alloc: Global,
    plan_name: &str,
    output_name: &str,
    shelf: &mut S,
) -> Result<String, Trouble>
    ensures picture { IfOk result
        (λ text. IsGraphOf (S.held shelf.old) plan_name.now output_name.now (string_bytes text)) }
    ensures same { (n : List ℕ) → S.held shelf.new n ≡ S.held shelf.old n }
{
    let texts = fetch_journal(alloc, shelf, plan_name, output_name)?;
    let graph = train_graph(alloc, &texts.plan, texts.journal.entries.as_slice());
    drop(texts);
    Ok(graph?)
}

/// Puts the train graph of a journal.
pub(crate) fn serve_graph<S: ReasonedShelf, K: Sink, L: Sink>(
    alloc: Global,
    plan_name: &str,
    output_name: &str,
    shelf: &mut S,
    out: &mut K,
    told: &mut L,
) -> Status
    ensures headline { result ≢ Status.Failed → Headline (S.held shelf.old)
        (Some (Command.Graph plan_name.now output_name.now)) result (K.taken out.old) (K.taken out.new) }
    ensures part { result ≡ Status.Failed → TakesFront (K.taken out.old) (K.taken out.new) }
    ensures why { result ≡ Status.Failed
        → TellsWhy (L.taken told.old) (L.taken told.new) (L.faults told.old) (L.faults told.new) }
    ensures same { (n : List ℕ) → S.held shelf.new n ≡ S.held shelf.old n }
{
    match graphed(alloc, plan_name, output_name, shelf) {
        Ok(text) => put_result(out, told, text.as_bytes(), Status::Done),
        Err(trouble) => tell_trouble(told, &trouble),
    }
}
