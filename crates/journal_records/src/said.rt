//! What is said of an entry.

ghost use Rattle.std.specs.Prelude.{◌<◌, IfOk, option_map, string_bytes};
ghost use Rattle.line_law.specs.Refusals.{is_refused};
ghost use Rattle.script_text.specs.Entries.{IsSpelled};
ghost use Rattle.journal_records.specs.Said.{IsSaid};

use line_law::{Entry, is_refused};
use line_plan::Plan;
use reply_sentences::sentence_of;
use std::alloc::{AllocError, Global};

/// A sentence that says why a call is refused, where it is.
pub fn said_of(alloc: Global, plan: &Plan, entry: &Entry) -> Result<Option<String>, AllocError>
    requires { IsSpelled plan.now entry.now }
    ensures { IfOk result
        (λ said. IsSaid (is_refused entry.now.reply) (option_map (λ text. string_bytes text) said)) }
{
    if !is_refused(&entry.reply) {
        return Ok(None);
    }
    let sentence = sentence_of(alloc, plan, entry)?;
    Ok(Some(sentence.into_string()))
}
