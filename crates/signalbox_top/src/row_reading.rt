//! `rows FILE`: the rows of a locking table that is written as a text are printed for a plan.

ghost use Rattle.std.specs.Prelude.{◌≡◌, ◌≢◌, ℕ, List, IfOk, IfSome, Some, string_bytes};
ghost use Rattle.signalbox_words.specs.Commands.{Command};
ghost use Rattle.signalbox_top.specs.RowReading.{AreRowsOf};
ghost use Rattle.signalbox_top.specs.Top.{Headline, TakesFront};
ghost use Rattle.signalbox_top.specs.Told.{TellsWhy};

use crate::answering::{put_result, tell_trouble};
use crate::status::Status;
use crate::tidying::fetched;
use explained_texts::{ReasonedShelf, Trouble, trouble_with};
use locking_table::NoMemory;
use rail_text::Sink;
use row_texts::{RowsCause, RowsError, cause_sentence, read_rows, row_lines};
use std::alloc::{AllocError, Global};

// The most bytes that the text of a locking table has.
const MOST_BYTES: usize = 4_194_304;

// What is told of a line that is off the form of a locking table.
fn refused(alloc: Global, file: &str, line: u32, cause: RowsCause) -> Trouble {
    let sentence = cause_sentence(cause);
    match format!(in alloc; "line {line}: {sentence}") {
        Ok(what) => trouble_with(alloc, file, what.as_str()),
        Err(AllocError) => Trouble::NoMemory,
    }
}

// The rows of a locking table that is written as a text, as lines of a plan.
fn lines_of(alloc: Global, file: &str, text: &[u8]) -> Result<String, Trouble>
    ensures { IfOk result (λ lines. AreRowsOf text.now (string_bytes lines)) }
{
    if text.len() > MOST_BYTES {
        return Err(trouble_with(alloc, file, "too long"));
    }
    match read_rows(alloc, text) {
        Ok(rows) => match row_lines(alloc, &rows) {
            Ok(lines) => Ok(lines),
            Err(NoMemory) => Err(Trouble::NoMemory),
        },
        Err(RowsError::Refused { line, cause }) => Err(refused(alloc, file, line, cause)),
        Err(RowsError::NoMemory) => Err(Trouble::NoMemory),
    }
}

// The rows of the text under a name.
fn rows_read<S: ReasonedShelf>(alloc: Global, file: &str, shelf: &mut S) -> Result<String, Trouble>
    ensures rows { IfOk result
        (λ lines. IfSome (S.held shelf.old file.now) (λ all. AreRowsOf all (string_bytes lines))) }
    ensures same { (n : List ℕ) → S.held shelf.new n ≡ S.held shelf.old n }
{
    let text = fetched(alloc, file, shelf)?;
    lines_of(alloc, file, &text)
}

/// Puts the rows of the locking table under a name, as lines of a plan.
pub(crate) fn serve_rows<S: ReasonedShelf, K: Sink, L: Sink>(
    alloc: Global,
    file: &str,
    shelf: &mut S,
    out: &mut K,
    told: &mut L,
) -> Status
    ensures headline { result ≢ Status.Failed → Headline (S.held shelf.old)
        (Some (Command.Rows file.now)) result (K.taken out.old) (K.taken out.new) }
    ensures part { result ≡ Status.Failed → TakesFront (K.taken out.old) (K.taken out.new) }
    ensures why { result ≡ Status.Failed
        → TellsWhy (L.taken told.old) (L.taken told.new) (L.faults told.old) (L.faults told.new) }
    ensures same { (n : List ℕ) → S.held shelf.new n ≡ S.held shelf.old n }
{
    match rows_read(alloc, file, shelf) {
        Ok(text) => put_result(out, told, text.as_bytes(), Status::Done),
        Err(trouble) => tell_trouble(told, &trouble),
    }
}
