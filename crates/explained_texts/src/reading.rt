//! Texts that are read; where one is refused, it is told why.

ghost use Rattle.std.specs.Prelude.{◌≡◌, ℕ, ◌+◌, ◌<◌, List, IfErr, IfOk, IfSome, Option, length, take};
ghost use Rattle.line_plan.specs.Limits.{most_bytes};
ghost use Rattle.plan_draft.specs.Reading.{plan_of};
ghost use Rattle.script_text.specs.Scripts.{IsScriptOf, most_script_bytes, script_of};
ghost use Rattle.text_fetch.specs.FromTexts.{text_told};
ghost use Rattle.explained_texts.specs.Troubles.{IsExplained, IsRefusalOf, MakesOr};

use crate::trouble::Trouble;
use fault_sentences::{TextKind, explain};
use line_plan::Plan;
use plan_text::read_plan;
use rail_text::{Cause, NoMemory, ReadError};
use script_text::{Script, read_script};
use std::alloc::Global;

/// Text `text` is refused, with the explanation.
pub fn refused(
    alloc: Global,
    name: &str,
    bytes: &[u8],
    kind: TextKind<'_>,
    text: u32,
    line: u32,
    cause: Cause,
) -> Trouble
    ensures refusal { IsRefusalOf text line cause result }
    ensures explained { IsExplained text name.now bytes.now result }
{
    match explain(alloc, name, bytes, kind, line, cause) {
        Ok(told) => Trouble::Refused {
            text,
            line,
            cause,
            told,
        },
        Err(NoMemory) => Trouble::NoMemory,
    }
}

/// The plan that the bytes of text 1 spell.
pub fn read_plan_text(alloc: Global, name: &str, bytes: &[u8]) -> Result<Plan, Trouble>
    ensures told { (held : Option (List ℕ)) → IfSome held (λ all. bytes.now ≡ take (most_bytes + 1) all)
        → MakesOr (λ plan. plan) result (text_told 1 plan_of held) }
    ensures explained { IfErr result (IsExplained 1 name.now bytes.now) }
{
    match read_plan(alloc, bytes) {
        Ok(plan) => Ok(plan),
        Err(ReadError::Refused { line, cause }) => {
            Err(refused(alloc, name, bytes, TextKind::Plan, 1, line, cause))
        }
        Err(ReadError::NoMemory) => Err(Trouble::NoMemory),
    }
}

/// The script of a box that the bytes of text `box_no + 2` spell.
pub fn read_script_text(
    alloc: Global,
    plan: &Plan,
    box_no: u32,
    name: &str,
    bytes: &[u8],
) -> Result<Script, Trouble>
    requires { box_no < length plan.now.boxes }
    ensures told { (held : Option (List ℕ)) → IfSome held (λ all. bytes.now ≡ take (most_script_bytes + 1) all)
        → MakesOr (λ script. script) result (text_told (box_no + 2) (script_of plan.now box_no) held) }
    ensures own { IfOk result (λ script. IsScriptOf plan.now box_no script) }
    ensures explained { IfErr result (IsExplained (box_no + 2) name.now bytes.now) }
{
    plan.meets_conditions();
    match read_script(alloc, plan, box_no, bytes) {
        Ok(script) => Ok(script),
        Err(ReadError::Refused { line, cause }) => {
            let kind = TextKind::Script { plan, box_no };
            Err(refused(alloc, name, bytes, kind, box_no + 2, line, cause))
        }
        Err(ReadError::NoMemory) => Err(Trouble::NoMemory),
    }
}
