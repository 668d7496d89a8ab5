//! `tidy FILE`: a text is put with its form mended.

ghost use Rattle.std.specs.Prelude.{◌≡◌, ◌≢◌, ◌≤◌, ℕ, List, IfOk, IfSome, length};
ghost use Rattle.rail_text.specs.Bytes.{appended};
ghost use Rattle.signalbox_top.specs.Top.{TakesFront};
ghost use Rattle.signalbox_top.specs.Told.{TellsWhy};
ghost use Rattle.tidy_text.specs.Tidy.{tidy_text};

use crate::answering::{put_result, tell_trouble};
use crate::status::Status;
use explained_texts::{ReasonedShelf, Trouble, fetch_text, trouble_with};
use rail_text::Sink;
use std::alloc::Global;
use tidy_text::tidy;

// The most bytes that a text has which is mended.
const MOST_BYTES: usize = 4_294_967_294;

// The bytes of a text that a shelf gives, where they are no more than the most.
fn whole_text(alloc: Global, file: &str, bytes: Vec<u8>) -> Result<Vec<u8>, Trouble>
    ensures same { IfOk result (λ whole. whole.items ≡ bytes.items) }
    ensures few { IfOk result (λ whole. length whole.items ≤ 4294967294) }
{
    if bytes.len() > MOST_BYTES {
        drop(bytes);
        return Err(trouble_with(alloc, file, "too long"));
    }
    Ok(bytes)
}

/// The text under a name.
#[tactic(auto, using(crate::proofs::Fetched::whole_held))]
pub(crate) fn fetched<S: ReasonedShelf>(
    alloc: Global,
    file: &str,
    shelf: &mut S,
) -> Result<Vec<u8>, Trouble>
    ensures text { IfOk result (λ text. IfSome (S.held shelf.old file.now) (λ all. text.items ≡ all)) }
    ensures few { IfOk result (λ text. length text.items ≤ 4294967294) }
    ensures same { (n : List ℕ) → S.held shelf.new n ≡ S.held shelf.old n }
{
    let bytes = fetch_text(alloc, shelf, file, MOST_BYTES)?;
    whole_text(alloc, file, bytes)
}

// The text under a name with its form mended.
fn tidied<S: ReasonedShelf>(alloc: Global, file: &str, shelf: &mut S) -> Result<Vec<u8>, Trouble>
    ensures text { IfOk result
        (λ text. IfSome (S.held shelf.old file.now) (λ all. text.items ≡ tidy_text all)) }
    ensures same { (n : List ℕ) → S.held shelf.new n ≡ S.held shelf.old n }
{
    let bytes = fetched(alloc, file, shelf)?;
    Ok(tidy(alloc, &bytes)?)
}

/// Puts the text under a name with its form mended.
pub(crate) fn serve_tidy<S: ReasonedShelf, K: Sink, L: Sink>(
    alloc: Global,
    file: &str,
    shelf: &mut S,
    out: &mut K,
    told: &mut L,
) -> Status
    ensures all { result ≢ Status.Failed → (result ≡ Status.Done)
        × IfSome (S.held shelf.old file.now) (λ all. K.taken out.new ≡ appended (K.taken out.old) (tidy_text all))
        × (told.new ≡ told.old) }
    ensures part { result ≡ Status.Failed → TakesFront (K.taken out.old) (K.taken out.new) }
    ensures why { result ≡ Status.Failed
        → TellsWhy (L.taken told.old) (L.taken told.new) (L.faults told.old) (L.faults told.new) }
    ensures same { (n : List ℕ) → S.held shelf.new n ≡ S.held shelf.old n }
{
    match tidied(alloc, file, shelf) {
        Ok(text) => put_result(out, told, &text, Status::Done),
        Err(trouble) => tell_trouble(told, &trouble),
    }
}
