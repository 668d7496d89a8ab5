//! The code table of a plan, as text.

ghost use Rattle.std.specs.Prelude.{◌≡◌, ◌<◌, ◌++◌, IsTrue, OnOk, length, string_bytes};
ghost use Rattle.line_law.specs.Known.{is_code_no};
ghost use Rattle.box_view.specs.Meanings.{code_line, code_lines, codes_text};

use crate::meaning::put_asked;
use bell_codes::{Code, CodeNo};
use line_plan::Plan;
use script_text::put_code;
use std::alloc::AllocError;

// Puts the line of a code behind a text.
fn put_code_line(out: &mut String, plan: &Plan, code: CodeNo) -> Result<(), AllocError>
    requires { IsTrue (is_code_no plan.now code) }
    ensures { OnOk result (string_bytes out.new ≡ string_bytes out.old ++ code_line plan.now code) }
{
    put_code(out, plan, code)?;
    out.push_str(": ")?;
    put_asked(out, plan, code)?;
    out.push('\n')
}

// Puts the lines of all codes behind a text.
fn put_lines(out: &mut String, plan: &Plan, codes: &[Code]) -> Result<(), AllocError>
    requires all { codes.now ≡ plan.now.codes }
    requires few { length codes.now < 256 }
    ensures { OnOk result (string_bytes out.new ≡ string_bytes out.old ++ code_lines plan.now 0 codes.now) }
{
    for (at, _) in codes.iter().enumerate() {
        put_code_line(out, plan, at as CodeNo + 1)?;
    }
    Ok(())
}

/// Puts the code table of a plan behind a text, a line for each code with what it asks or means, as
/// `3-1: is line clear for an ordinary passenger train?`. Where memory runs out a part may stand behind the text.
pub fn put_codes(out: &mut String, plan: &Plan) -> Result<(), AllocError>
    ensures { OnOk result (string_bytes out.new ≡ string_bytes out.old ++ codes_text plan.now) }
{
    let _few = plan.codes.len();
    put_lines(out, plan, plan.codes.codes())
}
