//! Scripts as they are printed.

ghost use Rattle.std.specs.Prelude.{◌≡◌, ◌<◌, ◌++◌, OnOk, IfOk, length, string_bytes, All};
ghost use Rattle.std.specs.List.{flat_map};
ghost use Rattle.line_law.specs.Known.{KnowsCall};
ghost use Rattle.script_text.specs.Scripts.{IsScriptOf, call_line, script_text};

use crate::calls::put_call;
use crate::script::Script;
use line_law::Call;
use line_plan::Plan;
use rail_text::NoMemory;
use std::alloc::{AllocError, Global};

// Puts the lines of calls behind a text.
#[tactic(auto, using(rail_text::proofs::Texts::texts))]
fn put_calls(out: &mut String, plan: &Plan, box_no: u32, calls: &[Call]) -> Result<(), AllocError>
    requires { All (λ call. KnowsCall plan.now box_no call) calls.now }
    ensures { OnOk result (string_bytes out.new
        ≡ string_bytes out.old ++ flat_map (λ call. call_line plan.now call) calls.now) }
{
    for call in calls {
        put_call(out, plan, box_no, call)?;
        out.push('\n')?;
    }
    Ok(())
}

/// A script as it is printed: the text from which `read_script` gives it.
#[tactic(auto, using(crate::proofs::InTurn::script_known), unfolding(crate::specs::Scripts::script_text))]
pub fn print_script(alloc: Global, plan: &Plan, script: &Script) -> Result<Vec<u8>, NoMemory>
    requires at { script.now.box_no < length plan.now.boxes }
    requires script { IsScriptOf plan.now script.now.box_no script.now }
    ensures { IfOk result (λ text. text.items ≡ script_text plan.now script.now) }
{
    let mut out = String::new(alloc);
    out.push_str("script ")?;
    out.push_str(plan.box_name(script.box_no))?;
    out.push('\n')?;
    put_calls(&mut out, plan, script.box_no, script.calls.as_slice())?;
    out.push_str("end\n")?;
    Ok(out.into_bytes())
}
