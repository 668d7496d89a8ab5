//! `serve PLAN`: the line of a plan is held for another program, whose requests are answered.

ghost use Rattle.std.specs.Prelude.{◌≡◌, ◌≢◌, ℕ, List, IfOk};
ghost use Rattle.hand_working.specs.Works.{Grows};
ghost use Rattle.line_service.specs.Services.{opening};
ghost use Rattle.signalbox_top.specs.Serving.{IsServedOn, IsServedTo};
ghost use Rattle.signalbox_top.specs.Top.{TakesFront};
ghost use Rattle.signalbox_top.specs.Told.{TellsWhy};

use crate::answering::tell_trouble;
use crate::status::Status;
use explained_texts::{ReasonedShelf, Trouble, fetch_plan, trouble_with};
use line_plan::Plan;
use line_service::Service;
use line_serving::{RequestSource, ServeFault, serve};
use rail_text::Sink;
use std::alloc::Global;

// What is told where lines couldn't be answered any more.
fn trouble_of(alloc: Global, fault: ServeFault) -> Trouble {
    match fault {
        ServeFault::NoLines => trouble_with(alloc, "-", "could not be read"),
        ServeFault::NoOutput => trouble_with(alloc, "the output", "could not be written"),
        ServeFault::NoMemory => Trouble::NoMemory,
    }
}

// Lines are answered by a service that has made no call yet.
#[tactic(auto, using(crate::proofs::Served::served_grows, crate::proofs::Served::cut_grows))]
fn serve_opening<R: RequestSource, K: Sink>(
    alloc: Global,
    service: &mut Service,
    requests: &mut R,
    out: &mut K,
) -> Result<(), Trouble>
    requires { service.old ≡ opening service.old.plan }
    ensures served { IfOk result (λ _. IsServedOn service.old.plan (R.given requests.old) (R.given requests.new)
        (K.taken out.old) (K.taken out.new)) }
    ensures grows { Grows (K.taken out.old) (K.taken out.new) }
{
    match serve(alloc, service, requests, out) {
        Ok(()) => Ok(()),
        Err(fault) => Err(trouble_of(alloc, fault)),
    }
}

// The line of a plan is held, and lines are answered.
#[tactic(auto, using(crate::proofs::Served::nothing_grows, crate::proofs::Served::served_of))]
fn serve_plan<R: RequestSource, K: Sink>(
    alloc: Global,
    plan: Plan,
    requests: &mut R,
    out: &mut K,
) -> Result<(), Trouble>
    ensures served { IfOk result (λ _. IsServedOn plan (R.given requests.old) (R.given requests.new)
        (K.taken out.old) (K.taken out.new)) }
    ensures grows { Grows (K.taken out.old) (K.taken out.new) }
{
    let mut service = Service::new(alloc, plan)?;
    serve_opening(alloc, &mut service, requests, out)
}

// The same of the plan of that name.
#[tactic(auto, using(crate::proofs::Served::nothing_grows))]
fn served<S: ReasonedShelf, R: RequestSource, K: Sink>(
    alloc: Global,
    plan_name: &str,
    shelf: &mut S,
    requests: &mut R,
    out: &mut K,
) -> Result<(), Trouble>
    ensures served { IfOk result (λ _. IsServedTo (S.held shelf.old) plan_name.now (R.given requests.old)
        (R.given requests.new) (K.taken out.old) (K.taken out.new)) }
    ensures grows { Grows (K.taken out.old) (K.taken out.new) }
    ensures same { (n : List ℕ) → S.held shelf.new n ≡ S.held shelf.old n }
{
    let plan = fetch_plan(alloc, shelf, plan_name)?;
    serve_plan(alloc, plan, requests, out)
}

/// Holds the line of the plan of that name, and answers requests.
pub(crate) fn serve_requests<S: ReasonedShelf, R: RequestSource, K: Sink, L: Sink>(
    alloc: Global,
    plan_name: &str,
    shelf: &mut S,
    requests: &mut R,
    out: &mut K,
    told: &mut L,
) -> Status
    ensures served { result ≢ Status.Failed → IsServedTo (S.held shelf.old) plan_name.now (R.given requests.old)
        (R.given requests.new) (K.taken out.old) (K.taken out.new) }
    ensures done { result ≢ Status.Failed → result ≡ Status.Done }
    ensures part { result ≡ Status.Failed → TakesFront (K.taken out.old) (K.taken out.new) }
    ensures why { result ≡ Status.Failed
        → TellsWhy (L.taken told.old) (L.taken told.new) (L.faults told.old) (L.faults told.new) }
    ensures same { (n : List ℕ) → S.held shelf.new n ≡ S.held shelf.old n }
{
    match served(alloc, plan_name, shelf, requests, out) {
        Ok(()) => Status::Done,
        Err(trouble) => tell_trouble(told, &trouble),
    }
}
