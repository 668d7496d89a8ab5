//! A call's line: the moment, then what is done.

ghost use Rattle.std.specs.Prelude.{◌≡◌, ◌↔◌, ◌<◌, ◌++◌, IfOk, OnOk, IsErr, length, string_bytes};
ghost use Rattle.line_plan.specs.Plans.{IsPlan};
ghost use Rattle.line_law.specs.Known.{KnowsCall, moments_of};
ghost use Rattle.line_law.specs.declared.call.Call.{Call};
ghost use Rattle.script_text.specs.Calls.{moment_in, call_of, call_text};
ghost use Rattle.script_text.specs.Spelled.{SpellsCall};

use crate::moments::{put_moment, read_moment};
use crate::printing_acts::put_act;
use crate::reading_acts::read_act;
use line_law::Call;
use line_plan::Plan;
use rail_text::{Cause, KeptEnds, LineWords, NoMemory};
use std::alloc::{AllocError, Global};

/// The moment that begins the words of a line, in the form of the plan's version.
#[tactic(auto, unfolding(crate::specs::Calls::moment_in))]
pub fn moment_in(version: u8, words: &LineWords<'_>) -> Result<u32, Cause>
    ensures exact { result ≡ moment_in version words.now }
    ensures day { IfOk result (λ moment. moment < moments_of version) }
{
    read_moment(version, words.keyword()).ok_or(Cause::BadMoment)
}

// The call of a box that a text spells, or the first cause.
#[tactic(auto, unfolding(crate::specs::Calls::call_of, crate::specs::Calls::call_in))]
fn call_of(plan: &Plan, box_no: u32, text: &[u8]) -> Result<Call, Cause>
    requires { box_no < length plan.now.boxes }
    ensures exact { result ≡ call_of plan.now box_no text.now }
    ensures plan { IsPlan plan.now }
{
    let mut ends = KeptEnds::none();
    let words = LineWords::new(text, &mut ends);
    let moment = moment_in(plan.version, &words)?;
    let act = read_act(plan, box_no, &words)?;
    Ok(Call { moment, act })
}

/// The call of a box that a line's text spells: the moment in the form of the plan's version, then the call. Each call
/// has one spelling, and any other text is refused by its first cause: `BadMoment`; `UnknownWord` for the call's word;
/// `WordCount`; then the words from left to right. A way or a position is `UnknownWord`; then the line is `NoLine`
/// where no neighbour is on that side, and `NoBerth` where it has no berth. A side without a neighbour is `NoLine`
/// before a code is `BadCode` or, off the code table, `UnknownCode`. A lever is `BadNumber`, `OutOfRange` off 1 to 120,
/// `UnknownLever` off the frame, and `NoArm` where a signal is needed that it doesn't work. A train is `UnknownName`,
/// or `OtherBox` where it isn't of this box.
#[tactic(auto, using(crate::proofs::CallTexts::reading_rules))]
pub fn read_call(plan: &Plan, box_no: u32, text: &[u8]) -> Result<Call, Cause>
    requires { box_no < length plan.now.boxes }
    ensures exact { result ≡ call_of plan.now box_no text.now }
    ensures spelled { IfOk result (λ call. SpellsCall plan.now box_no text.now call) }
    ensures refused { IsErr result ↔ ((call : Call) → ¬ SpellsCall plan.now box_no text.now call) }
{
    call_of(plan, box_no, text)
}

/// Puts a call of a box behind a text: its moment, then what is done.
#[tactic(auto, unfolding(crate::specs::Calls::call_text, line_law::specs::Known::knows_call))]
pub fn put_call(out: &mut String, plan: &Plan, box_no: u32, call: &Call) -> Result<(), AllocError>
    requires { KnowsCall plan.now box_no call.now }
    ensures { OnOk result (string_bytes out.new ≡ string_bytes out.old ++ call_text plan.now call.now) }
{
    put_moment(out, plan.version, call.moment)?;
    out.push(' ')?;
    put_act(out, plan, box_no, call.act)
}

/// A call of a box as it is printed: its moment, then what is done.
pub fn print_call(alloc: Global, plan: &Plan, box_no: u32, call: &Call) -> Result<Vec<u8>, NoMemory>
    requires { KnowsCall plan.now box_no call.now }
    ensures { IfOk result (λ text. text.items ≡ call_text plan.now call.now) }
{
    let mut out = String::new(alloc);
    put_call(&mut out, plan, box_no, call)?;
    Ok(out.into_bytes())
}
