//! What stands in the columns of a line: where a call stands, and the call.

ghost use Rattle.std.specs.Prelude.{◌≡◌, IfOk, string_bytes};
ghost use Rattle.line_law.specs.Known.{KnowsCall};
ghost use Rattle.script_text.specs.Calls.{call_text};
ghost use Rattle.rehearsal_report.specs.CallLines.{place_text};

use crate::call_lines::NumberedScript;
use line_law::Call;
use line_plan::Plan;
use script_text::put_call;
use std::alloc::{AllocError, Global};

/// The bytes that most columns have room in.
pub const ROOM: usize = 48;

/// Where a call of a script stands.
pub fn place_of(
    alloc: Global,
    script: &NumberedScript<'_>,
    number: usize,
) -> Result<String, AllocError>
    ensures { IfOk result (λ text. string_bytes text ≡ place_text script.now number) }
{
    let mut text = String::with_capacity(alloc, ROOM)?;
    script.put_place(&mut text, number)?;
    Ok(text)
}

/// A call of a box.
pub fn call_of(alloc: Global, plan: &Plan, box_no: u32, call: &Call) -> Result<String, AllocError>
    requires { KnowsCall plan.now box_no call.now }
    ensures { IfOk result (λ text. string_bytes text ≡ call_text plan.now call.now) }
{
    let mut text = String::with_capacity(alloc, ROOM)?;
    put_call(&mut text, plan, box_no, call)?;
    Ok(text)
}
