//! Why the text of a plan is refused.

ghost use Rattle.std.specs.Prelude.{IfOk, option_map, string_bytes};
ghost use Rattle.plan_draft.specs.Reading.{plan_of};
ghost use Rattle.line_engine.specs.Explained.{IsToldOf};

use fault_sentences::{TextKind, explain};
use plan_text::read_plan;
use rail_text::{NoMemory, ReadError};
use std::alloc::Global;

/// Why the text of a plan is refused, as it is told to people: its first fault, the line as it stands, and a sentence
/// with what is known there. Nothing of a text that spells a plan.
pub fn why_refused(alloc: Global, text: &[u8]) -> Result<Option<String>, NoMemory>
    ensures { IfOk result (λ told. IsToldOf text.now (plan_of text.now) (option_map string_bytes told)) }
{
    match read_plan(alloc, text) {
        Ok(_) => Ok(None),
        Err(ReadError::NoMemory) => Err(NoMemory),
        Err(ReadError::Refused { line, cause }) => {
            let told = explain(alloc, "plan", text, TextKind::Plan, line, cause)?;
            Ok(Some(told))
        }
    }
}
