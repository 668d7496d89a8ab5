//! The text of the made line's plan.

ghost use Rattle.std.specs.Prelude.{◌≡◌, ◌++◌, IfOk, OnOk, string_bytes};
ghost use Rattle.line_maker.specs.MadeTexts.{ash_text, beech_text, brought_text, cedar_text, class_name, head_text};
ghost use Rattle.line_maker.specs.MadeTexts.{made_plan_text, train_text, trains_text};

use crate::working::runs_down;
use std::alloc::{AllocError, Global};
use std::fmt::Write;

const HEAD: &str = "plan 1\nboxes 3\ndelay 2\nlooks 1000000000\n";

const ASH: &str = "box Ash\nplace DP\nplace UB\nplace UP\n\
lever 1 spare\nlever 2 signal\nlever 3 signal\nlever 4 signal\nlever 5 points\n\
signal 3 UB UP\nsignal 4 UP away\nstarter down 2 DP\nberth up UB\nclear up UP\n\
row 2 locks 5 normal\nrow 3 locks 5 normal\n";

const BEECH: &str = "box Beech\nplace DB\nplace DP\nplace UB\nplace UP\n\
lever 1 signal\nlever 2 signal\nlever 3 signal\nlever 4 signal\nlever 5 points\n\
signal 1 DB DP\nsignal 3 UB UP\nstarter down 2 DP\nstarter up 4 UP\nberth up UB\nberth down DB\n\
clear up UP\nclear down DP\ntrack 5 DP\nrow 1 locks 5 normal\nrow 3 locks 5 normal\n";

const CEDAR: &str = "box Cedar\nplace DB\nplace DP\nplace UP\n\
lever 1 signal\nlever 2 signal\nlever 3 spare\nlever 4 signal\nlever 5 points\n\
signal 1 DB DP\nsignal 2 DP away\nstarter up 4 UP\nberth down DB\nclear down DP\n\
row 1 locks 5 normal\nrow 4 locks 5 normal\n";

// The lines of the boxes, behind the first four.
#[tactic(auto, unfolding(crate::specs::MadeTexts::head_text, crate::specs::MadeTexts::ash_text, crate::specs::MadeTexts::beech_text, crate::specs::MadeTexts::cedar_text))]
fn base_text(alloc: Global) -> Result<String, AllocError>
    ensures { IfOk result (λ text. string_bytes text ≡ head_text ++ ash_text ++ beech_text ++ cedar_text) }
{
    let mut out = String::new(alloc);
    out.push_str(HEAD)?;
    out.push_str(ASH)?;
    out.push_str(BEECH)?;
    out.push_str(CEDAR)?;
    Ok(out)
}

// The name of a train's class: ordinary, express, empty and light in turn.
fn class_name(train: u32) -> &'static str
    ensures { result.now ≡ class_name train }
{
    match train % 4 {
        1 => "ordinary",
        2 => "express",
        3 => "empty",
        _ => "light",
    }
}

// Where a train is brought, and the end of its line.
fn brought_text(train: u32) -> &'static str
    ensures { result.now ≡ brought_text train }
{
    if runs_down(train) {
        " Ash DP\n"
    } else {
        " Cedar UP\n"
    }
}

// Puts the line of a train.
#[tactic(auto, using(rail_text::proofs::Texts::texts), unfolding(crate::specs::MadeTexts::train_text))]
fn put_train(out: &mut String, train: u32) -> Result<(), AllocError>
    ensures { OnOk result (string_bytes out.new ≡ string_bytes out.old ++ train_text train) }
{
    write!(out, "train t{train} ")?;
    out.push_str(class_name(train))?;
    out.push_str(brought_text(train))
}

// Puts the lines of trains 1 to n.
#[tactic(auto, using(crate::proofs::Growing::growing))]
fn put_trains(out: &mut String, n: u32) -> Result<(), AllocError>
    ensures { OnOk result (string_bytes out.new ≡ string_bytes out.old ++ trains_text n) }
{
    for before in 0..n {
        put_train(out, before + 1)?;
    }
    Ok(())
}

/// The text of the plan of n trains.
#[tactic(auto, using(rail_text::proofs::Texts::texts), unfolding(crate::specs::MadeTexts::made_plan_text))]
pub fn made_plan_text(alloc: Global, n: u32) -> Result<String, AllocError>
    ensures { IfOk result (λ text. string_bytes text ≡ made_plan_text n) }
{
    let mut out = base_text(alloc)?;
    put_trains(&mut out, n)?;
    out.push_str("end\n")?;
    Ok(out)
}
