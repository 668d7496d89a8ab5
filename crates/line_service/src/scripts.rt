//! The scripts that are given.

ghost use Rattle.std.specs.Prelude.{◌≡◌, ◌<◌, ◌∷◌, Bool, IfOk, false, length};
ghost use Rattle.rail_text.specs.Gives.{GivesText};
ghost use Rattle.script_text.specs.Scripts.{IsScriptOf};
ghost use Rattle.line_service.specs.Scripts.{MayWork, begins_before, is_of_other, read_counts};
ghost use Rattle.line_service.specs.Scripts.{script_allowed, script_given, script_in};

use crate::service::Service;
use line_law::Call;
use line_plan::Plan;
use line_requests::Fault;
use rail_text::{Cause, NoMemory, ReadError};
use script_text::{Script, read_script};
use std::alloc::Global;

// Whether a text is refused since it is another box's.
fn is_of_other(cause: Cause) -> bool
    ensures { result ≡ is_of_other cause }
{
    matches!(cause, Cause::WrongBox)
}

// Whether what was read counts: it isn't refused since the text is another box's.
fn counts(read: &Result<Script, ReadError>) -> bool
    ensures { result ≡ read_counts read.now }
{
    match read {
        Err(ReadError::Refused { line: _, cause }) => !is_of_other(*cause),
        _ => true,
    }
}

// The script that a text spells, of the box that it names.
#[tactic(auto, unfolding(crate::specs::Scripts::script_in))]
fn script_in(alloc: Global, plan: &Plan, text: &[u8]) -> Result<Script, ReadError>
    ensures exact { GivesText (λ script. script) result (script_in plan.now text.now) }
    ensures at { IfOk result (λ script. script.box_no < length plan.now.boxes) }
    ensures script { IfOk result (λ script. IsScriptOf plan.now script.box_no script) }
{
    plan.meets_conditions();
    let last = plan.boxes.len() - 1;
    for box_no in 0..last {
        let read = read_script(alloc, plan, box_no as u32, text);
        if counts(&read) {
            return read;
        }
    }
    read_script(alloc, plan, last as u32, text)
}

// Whether the first of these calls comes before a moment.
fn begins_before(moment: u32, calls: &[Call]) -> bool
    ensures { result ≡ begins_before moment calls.now }
{
    match calls.first() {
        Some(call) => call.moment < moment,
        None => false,
    }
}

// A script, where its box may work by it now.
#[tactic(auto, unfolding(crate::specs::Scripts::script_allowed))]
fn script_allowed(service: &Service, script: Script) -> Result<Script, Fault>
    requires at { script.box_no < length service.now.plan.boxes }
    requires script { IsScriptOf service.now.plan script.box_no script }
    ensures exact { result ≡ script_allowed service.now script }
    ensures may { IfOk result (λ script. MayWork service.now script) }
{
    if !service.has_room(&script) {
        return Err(Fault::Full);
    }
    if begins_before(service.last_moment(script.box_no), script.calls.as_slice()) {
        return Err(Fault::Cause(Cause::MomentFalls));
    }
    Ok(script)
}

/// The script that a text spells, where the box that it names may work by it now. Nothing is changed.
#[tactic(auto, unfolding(crate::specs::Scripts::script_given))]
pub(crate) fn script_given(
    alloc: Global,
    service: &Service,
    text: &[u8],
) -> Result<Result<Script, Fault>, NoMemory>
    ensures exact { IfOk result (λ given. given ≡ script_given service.now text.now) }
    ensures may { IfOk result (λ given. IfOk given (λ script. MayWork service.now script)) }
{
    match script_in(alloc, service.plan(), text) {
        Ok(script) => Ok(script_allowed(service, script)),
        Err(ReadError::Refused { line, cause }) => Ok(Err(Fault::Script { line, cause })),
        Err(ReadError::NoMemory) => Err(NoMemory),
    }
}
