//! The made line.

ghost use Rattle.std.specs.Prelude.{◌≡◌, ◌↔◌, ◌⊎◌, ℕ, ◌*◌, ◌<◌, ◌≤◌, IfOk, IsErrOf, Ok, length, sum_by};
ghost use Rattle.plan_draft.specs.Reading.{plan_of};
ghost use Rattle.line_maker.specs.MadeCalls.{AreLineScripts, made_scripts};
ghost use Rattle.line_maker.specs.MadeTexts.{made_plan_text};

use crate::error::MakeError;
use crate::made_text::made_plan_text;
use crate::scripts::made_scripts;
use line_plan::Plan;
use plan_text::read_plan;
use rail_text::ReadError;
use script_text::Script;
use std::alloc::{AllocError, Global};

/// The most trains of a made line.
pub const MOST_MADE_TRAINS: u32 = 200;

// The plan of n trains, by its text. The text spells a plan, so it is never refused.
#[tactic(auto, using(crate::proofs::PlanRead::plan_rules))]
fn made_plan(alloc: Global, n: u32) -> Result<Plan, MakeError>
    requires low { 1 ≤ n }
    requires high { n ≤ 200 }
    ensures plan { IfOk result (λ plan. plan_of (made_plan_text n) ≡ Ok plan) }
    ensures memory { (k : ℕ) → IsErrOf result (MakeError.OutOfRange k) → ⊥ }
{
    let text = made_plan_text(alloc, n)?;
    match read_plan(alloc, text.as_bytes()) {
        Ok(plan) => Ok(plan),
        Err(ReadError::NoMemory) => Err(MakeError::NoMemory),
        Err(ReadError::Refused { .. }) => unreachable!(),
    }
}

/// The line of n trains, 1 to 200, and the scripts of its three boxes in box order, by which each train is worked from
/// box to box without a call that is refused. Odd trains run down from Ash, even ones up from Cedar, one every five
/// minutes from 06:00 on; their classes are ordinary, express, empty and light in turn. A train has 60 calls.
///
/// `OutOfRange` comes exactly where n is 0 or above 200, before any memory is asked for.
pub fn make_line(alloc: Global, n: u32) -> Result<(Plan, Vec<Script>), MakeError>
    ensures range { IsErrOf result (MakeError.OutOfRange n) ↔ ((n < 1) ⊎ (200 < n)) }
    ensures other { (k : ℕ) → IsErrOf result (MakeError.OutOfRange k) → k ≡ n }
    ensures plan { IfOk result (λ made. plan_of (made_plan_text n) ≡ Ok made.0) }
    ensures scripts { IfOk result (λ made. made.1.items ≡ made_scripts n) }
    ensures known { IfOk result (λ made. AreLineScripts made.0 made.1.items) }
{
    if n < 1 || MOST_MADE_TRAINS < n {
        return Err(MakeError::OutOfRange { n });
    }
    let plan = made_plan(alloc, n)?;
    match made_scripts(alloc, n) {
        Ok(scripts) => Ok((plan, scripts)),
        Err(AllocError) => {
            drop(plan);
            Err(MakeError::NoMemory)
        }
    }
}

/// A law: the scripts of the made line of n trains have 60 calls for each train.
#[tactic(auto, using(crate::proofs::CallCount::scripts_counted))]
pub fn made_calls_law()
    ensures { (n : ℕ) → sum_by (λ script. length script.calls) (made_scripts n) ≡ 60 * n }
{}
