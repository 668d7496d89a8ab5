//! What the calls of a lever need of its box's plan.

ghost use Rattle.std.specs.Prelude.{◌≡◌, ◌+◌, ◌∷◌, ◌++◌, [], IfOk, OnOk};
ghost use Rattle.line_plan.specs.Frames.{frame_size};
ghost use Rattle.lever_frame.specs.LeverPlans.{AreLeverPlans, is_spare, lever_plan_of};

use line_plan::{BoxPlan, Items, Kind};
use rail_text::NoMemory;
use std::alloc::Global;

/// What a frame keeps of a lever's plan.
#[derive(Debug, Drop)]
pub struct LeverPlan {
    /// Whether it is a spare lever, which is never pulled.
    pub spare: bool,
    /// Whether it works the arm of a signal or starter.
    pub arm: bool,
    /// The places that lock it while a train stands on one of them.
    pub places: Items<u32>,
}

fn is_spare(kind: Option<Kind>) -> bool
    ensures { result ≡ is_spare kind }
{
    match kind {
        Some(Kind::Spare) => true,
        Some(_) | None => false,
    }
}

fn items_of(alloc: Global, places: &[u32]) -> Result<Items<u32>, NoMemory>
    ensures { IfOk result (λ items. items ≡ places.now) }
{
    let copied = places.to_vec(alloc)?;
    Ok(Items::from_vec(copied))
}

fn lever_plan_of(alloc: Global, plan: &BoxPlan, lever: u32) -> Result<LeverPlan, NoMemory>
    ensures { IfOk result (λ lever_plan. lever_plan ≡ lever_plan_of plan.now lever) }
{
    let spare = is_spare(plan.kind(lever));
    let arm = plan.signal(lever).is_some();
    let places = items_of(alloc, plan.track(lever))?;
    Ok(LeverPlan { spare, arm, places })
}

// Puts the plan of a lever behind the others.
fn push_plan(
    alloc: Global,
    plan: &BoxPlan,
    lever: u32,
    plans: &mut Vec<LeverPlan>,
) -> Result<(), NoMemory>
    ensures { OnOk result (plans.new.items ≡ plans.old.items ++ lever_plan_of plan.now lever ∷ []) }
{
    let lever_plan = lever_plan_of(alloc, plan, lever)?;
    plans.push(lever_plan)?;
    Ok(())
}

/// The plans of the levers of a box, that of lever 1 first.
pub fn lever_plans(alloc: Global, plan: &BoxPlan) -> Result<Vec<LeverPlan>, NoMemory>
    ensures { IfOk result (λ plans. AreLeverPlans plan.now (frame_size plan.now.levers) plans.items) }
{
    let mut plans = Vec::new(alloc);
    for before in 0..plan.frame_size() {
        push_plan(alloc, plan, before + 1, &mut plans)?;
    }
    Ok(plans)
}
