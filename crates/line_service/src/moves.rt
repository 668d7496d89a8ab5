//! The calls that would move a lever.

ghost use Rattle.std.specs.Prelude.{◌≡◌, ◌<◌, IfOk, IsTrue, length};
ghost use Rattle.line_law.specs.Known.{knows_lever, moments_of};
ghost use Rattle.line_law.specs.States.{box_at};
ghost use Rattle.script_text.specs.Moments.{moment_of};
ghost use Rattle.box_view.specs.Moves.{move_entry, move_of};
ghost use Rattle.line_service.specs.Calls.{MayFollow};
ghost use Rattle.line_service.specs.Lists.{IsPresent, moment_or, present_at, present_of};
ghost use Rattle.line_service.specs.Services.{line_of};

use crate::calls::box_named;
use crate::service::Service;
use line_law::{Act, BoxState, Call, Entry, is_pulled};
use line_requests::Fault;
use rail_text::Cause;
use script_text::read_moment;

/// A box at a moment.
#[derive(Clone, Copy)]
pub struct Present {
    pub box_no: u32,
    pub moment: u32,
}

// The moment of a word.
fn moment_in(version: u8, word: &str) -> Result<u32, Fault>
    ensures exact { result ≡ moment_or (moment_of version word.now) }
    ensures day { IfOk result (λ moment. moment < moments_of version) }
{
    read_moment(version, word.as_bytes()).ok_or(Fault::Cause(Cause::BadMoment))
}

// A box at a moment, where it may make a call then.
#[tactic(auto, unfolding(crate::specs::Lists::present_at))]
fn present_at(service: &Service, box_no: u32, moment: u32) -> Result<Present, Fault>
    requires at { box_no < length service.now.plan.boxes }
    requires day { moment < moments_of service.now.plan.version }
    ensures exact { result ≡ present_at service.now box_no moment }
    ensures present { IfOk result (λ here. IsPresent service.now here) }
{
    if service.has_script(box_no) {
        return Err(Fault::HasScript);
    }
    if service.is_full() {
        return Err(Fault::Full);
    }
    if moment < service.last_moment(box_no) {
        return Err(Fault::Cause(Cause::MomentFalls));
    }
    Ok(Present { box_no, moment })
}

/// The box of that name at the moment of that word, where it may make a call then.
#[tactic(auto, unfolding(crate::specs::Lists::present_of))]
pub(crate) fn present_of(service: &Service, name: &str, at: &str) -> Result<Present, Fault>
    ensures exact { result ≡ present_of service.now name.now at.now }
    ensures present { IfOk result (λ here. IsPresent service.now here) }
{
    let box_no = box_named(service.plan(), name)?;
    let moment = moment_in(service.plan().version, at)?;
    present_at(service, box_no, moment)
}

// What moves a lever to its other end.
fn move_of(here: &BoxState, lever: u32) -> Act
    ensures { result ≡ move_of here.now lever }
{
    if is_pulled(here.ends.as_slice(), lever) {
        Act::Put { lever }
    } else {
        Act::Pull { lever }
    }
}

/// The entry of the call that moves a lever. Nothing is changed.
#[tactic(auto, using(crate::proofs::Moving::move_may))]
pub(crate) fn move_entry(service: &Service, here: Present, lever: u32) -> Entry
    requires here { IsPresent service.now here }
    requires lever { IsTrue (knows_lever service.now.plan here.box_no lever) }
    ensures law { result ≡ move_entry service.now.plan (line_of service.now) here.box_no here.moment lever }
    ensures may { MayFollow service.now result }
{
    let standing = &service.line().boxes()[here.box_no as usize];
    let act = move_of(standing, lever);
    let moment = here.moment;
    service.entry_of(here.box_no, &Call { moment, act })
}
