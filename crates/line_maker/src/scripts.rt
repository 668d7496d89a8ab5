//! The scripts of the made line.

ghost use Rattle.std.specs.Prelude.{◌≡◌, ◌≤◌, ◌++◌, IfOk, OnOk};
ghost use Rattle.line_maker.specs.MadeCalls.{acts_for, calls_at, made_calls, made_scripts};
ghost use Rattle.line_maker.specs.MadeTrains.{train_moment};

use crate::working::{MadeBox, put_working};
use line_law::Call;
use line_plan::Items;
use script_text::Script;
use std::alloc::{AllocError, Global};

// The calls of a box for trains 1 to n, in order.
#[tactic(auto, using(crate::proofs::Growing::growing))]
fn made_calls(alloc: Global, at: MadeBox, n: u32) -> Result<Vec<Call>, AllocError>
    requires { n ≤ 200 }
    ensures { IfOk result (λ calls. calls.items ≡ made_calls at n) }
{
    let mut calls = Vec::new(alloc);
    for before in 0..n {
        put_working(&mut calls, at, before + 1)?;
    }
    Ok(calls)
}

// The script of a box with that number.
fn made_script(alloc: Global, box_no: u32, at: MadeBox, n: u32) -> Result<Script, AllocError>
    requires { n ≤ 200 }
    ensures { IfOk result (λ script. script ≡ record { box_no = box_no; calls = made_calls at n }) }
{
    let calls = made_calls(alloc, at, n)?;
    Ok(Script {
        box_no,
        calls: Items::from_vec(calls),
    })
}

/// The scripts of the three boxes for trains 1 to n, in box order.
#[tactic(auto, unfolding(crate::specs::MadeCalls::made_scripts))]
pub fn made_scripts(alloc: Global, n: u32) -> Result<Vec<Script>, AllocError>
    requires { n ≤ 200 }
    ensures { IfOk result (λ scripts. scripts.items ≡ made_scripts n) }
{
    let mut scripts = Vec::new(alloc);
    scripts.push(made_script(alloc, 0, MadeBox::Ash, n)?)?;
    scripts.push(made_script(alloc, 1, MadeBox::Beech, n)?)?;
    scripts.push(made_script(alloc, 2, MadeBox::Cedar, n)?)?;
    Ok(scripts)
}
