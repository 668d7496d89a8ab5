//! The calls that are asked for.

ghost use Rattle.std.specs.Prelude.{◌≡◌, ◌<◌, IfOk, length, string_bytes};
ghost use Rattle.line_law.specs.Known.{KnowsCall};
ghost use Rattle.line_service.specs.Calls.{MayFollow, box_named, call_in, call_line, entry_made, entry_on};

use crate::service::Service;
use line_law::{Call, Entry};
use line_plan::Plan;
use line_requests::Fault;
use rail_text::Cause;
use script_text::read_call;
use std::alloc::{AllocError, Global};

/// The box of that name.
#[tactic(auto, unfolding(crate::specs::Calls::box_named))]
pub(crate) fn box_named(plan: &Plan, name: &str) -> Result<u32, Fault>
    ensures exact { result ≡ box_named plan.now name.now }
    ensures there { IfOk result (λ b. b < length plan.now.boxes) }
{
    plan.box_names.number_of(name).ok_or(Fault::UnknownBox)
}

/// The call of a box that a line of its script spells.
#[tactic(auto, unfolding(crate::specs::Calls::call_in))]
pub fn call_in(plan: &Plan, box_no: u32, line: &[u8]) -> Result<Call, Fault>
    requires { box_no < length plan.now.boxes }
    ensures exact { result ≡ call_in plan.now box_no line.now }
    ensures known { IfOk result (λ call. KnowsCall plan.now box_no call) }
{
    match read_call(plan, box_no, line) {
        Ok(call) => Ok(call),
        Err(cause) => Err(Fault::Cause(cause)),
    }
}

/// The entry of a call that the plan knows. Nothing is changed.
#[tactic(auto, unfolding(crate::specs::Calls::entry_made))]
pub fn entry_made(service: &Service, box_no: u32, call: &Call) -> Result<Entry, Fault>
    requires at { box_no < length service.now.plan.boxes }
    requires known { KnowsCall service.now.plan box_no call.now }
    ensures exact { result ≡ entry_made service.now box_no call.now }
    ensures may { IfOk result (λ entry. MayFollow service.now entry) }
{
    if service.has_script(box_no) {
        return Err(Fault::HasScript);
    }
    if service.is_full() {
        return Err(Fault::Full);
    }
    if call.moment < service.last_moment(box_no) {
        return Err(Fault::Cause(Cause::MomentFalls));
    }
    Ok(service.entry_of(box_no, call))
}

/// The entry of a call that a box makes now, by the box's name and a line of its script. Nothing is changed.
#[tactic(auto, unfolding(crate::specs::Calls::entry_on))]
pub(crate) fn entry_on(service: &Service, name: &str, line: &[u8]) -> Result<Entry, Fault>
    ensures exact { result ≡ entry_on service.now name.now line.now }
    ensures may { IfOk result (λ entry. MayFollow service.now entry) }
{
    let box_no = box_named(service.plan(), name)?;
    let call = call_in(service.plan(), box_no, line)?;
    entry_made(service, box_no, &call)
}

/// The line of a script: the moment, and what is done.
pub(crate) fn call_line(alloc: Global, at: &str, call: &str) -> Result<String, AllocError>
    ensures { IfOk result (λ line. string_bytes line ≡ call_line at.now call.now) }
{
    let mut line = String::new(alloc);
    line.push_str(at)?;
    line.push(' ')?;
    line.push_str(call)?;
    Ok(line)
}
