//! Hints as text.

ghost use Rattle.std.specs.Prelude.{◌≡◌, ◌++◌, ◌∷◌, [], OnOk, string_bytes};
ghost use Rattle.line_plan.specs.Ways.{way_word};
ghost use Rattle.due_hints.specs.Hints.{due_line, hint_text, typed_code};

use crate::hint::Hint;
use bell_codes::CodeNo;
use block_words::Way;
use line_law::is_code_no;
use line_plan::{Plan, way_word};
use script_text::put_code;
use std::alloc::AllocError;

// Puts what is due behind a text: the call, about a way, and why.
fn put_due(out: &mut String, call: &str, way: Way, why: &str) -> Result<(), AllocError>
    ensures { OnOk result (string_bytes out.new ≡ string_bytes out.old ++ due_line call.now way why.now) }
{
    out.push_str(call)?;
    out.push_str(way_word(way))?;
    out.push_str(why)?;
    out.push('\n')
}

// Puts a code behind a text.
fn put_typed_code(out: &mut String, plan: &Plan, code: CodeNo) -> Result<(), AllocError>
    ensures { OnOk result (string_bytes out.new ≡ string_bytes out.old ++ typed_code plan.now code) }
{
    if is_code_no(plan, code) {
        put_code(out, plan, code)
    } else {
        out.push_str("an unknown code")
    }
}

// Puts behind a text that a code has to be rung back.
fn put_back(out: &mut String, plan: &Plan, side: Way, code: CodeNo) -> Result<(), AllocError>
    ensures { OnOk result (string_bytes out.new
        ≡ string_bytes out.old ++ hint_text plan.now (Hint.RingBack side code)) }
{
    out.push_str("ring ")?;
    out.push_str(way_word(side))?;
    out.push(' ')?;
    put_typed_code(out, plan, code)?;
    out.push_str(": it was heard and isn't rung back\n")
}

/// Puts a hint as a line behind a text: the call, and why it is due. Where memory runs out a part may stand behind the
/// text.
pub fn put_hint(out: &mut String, plan: &Plan, hint: Hint) -> Result<(), AllocError>
    ensures { OnOk result (string_bytes out.new ≡ string_bytes out.old ++ hint_text plan.now hint) }
{
    match hint {
        Hint::RingBack(side, code) => put_back(out, plan, side, code),
        Hint::Hear(side) => put_due(out, "hear ", side, ": a code stands unheard"),
        Hint::TurnTrainOnLine(way) => put_due(
            out,
            "turn ",
            way,
            " train_on_line: a train is in the section",
        ),
        Hint::RingOut(side) => put_due(out, "ring ", side, " 2-1: a train has left the section"),
        Hint::TurnNormal(way) => put_due(
            out,
            "turn ",
            way,
            " normal: the train has left the section",
        ),
        Hint::RingEntering(side) => {
            put_due(out, "ring ", side, " 2: a train is to pass the starter")
        }
    }
}
