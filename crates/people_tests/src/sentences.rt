//! What is told of a refused call and of a refused text.

use crate::facts::hold;
use fault_sentences::{TextKind, explain};
use line_law::{Act, Call, Entry, Reply};
use line_plan::Plan;
use plan_text::read_plan;
use rail_text::{NoMemory, ReadError};
use reply_sentences::put_sentence;
use script_text::is_spelled;
use std::alloc::{AllocError, Global};
use std::test::Fail;

const LOCKED: &[u8] = b"plan 1\nboxes 2\ndelay 2\nlooks 1000000\n\
    box Elm\nplace Yard\nplace Platform\nlever 1 points\nlever 2 signal\nlever 4 signal\n\
    signal 2 Yard Platform\nstarter down 4 Platform\nrow 2 released by 1\nrow 4 locks 1 normal\n\
    box Oak\nend\n";

// The starter of its last box leads to nowhere.
const NOWHERE: &[u8] =
    b"plan 1\nboxes 2\ndelay 2\nlooks 1000000\nbox Belper\nbox Quarndon\nplace DX\n\
    lever 6 signal\nstarter down 6 DX\nend\n";

const TOLD_OF_NOWHERE: &str = "valley.plan:9: no such line\n    starter down 6 DX\n    \
    Quarndon is the last of 2 boxes, so no down line leaves it. Is `boxes 2` right?\n";

// The sentence of an entry, where the line can spell it.
fn sentence_of(alloc: Global, plan: &Plan, entry: &Entry) -> Result<String, AllocError> {
    let mut sentence = String::new(alloc);
    if is_spelled(plan, entry) {
        put_sentence(&mut sentence, plan, entry)?;
    }
    Ok(sentence)
}

// Whether the pull of lever 4 is told to be held by lever 1.
fn tells_what_holds(alloc: Global, plan: &Plan) -> Result<bool, AllocError> {
    let entry = Entry {
        box_no: 0,
        call: Call {
            moment: 540,
            act: Act::Pull { lever: 4 },
        },
        reply: Reply::HeldByLever { lever: 1, row: 2 },
    };
    let sentence = sentence_of(alloc, plan, &entry)?;
    Ok(
        sentence.as_str()
            == "lever 4 is held by lever 1, which is reversed: row 2, `4 locks 1 normal`",
    )
}

#[test]
fn refused_call(rt: HostRuntime) -> Result<(), Fail> {
    let alloc = rt.alloc();
    match read_plan(alloc, LOCKED) {
        Ok(plan) => {
            let told = tells_what_holds(alloc, &plan);
            drop(plan);
            hold(&rt, "what holds the lever is told", told == Ok(true));
        }
        Err(_) => hold(&rt, "the plan is read", false),
    }
    Ok(())
}

// What is told of a plan that is refused.
fn told_of(alloc: Global, bytes: &[u8]) -> Result<Option<String>, NoMemory> {
    match read_plan(alloc, bytes) {
        Ok(plan) => {
            drop(plan);
            Ok(None)
        }
        Err(ReadError::Refused { line, cause }) => {
            let text = explain(alloc, "valley.plan", bytes, TextKind::Plan, line, cause)?;
            Ok(Some(text))
        }
        Err(ReadError::NoMemory) => Err(NoMemory),
    }
}

#[test]
fn refused_text(rt: HostRuntime) -> Result<(), Fail> {
    let told = match told_of(rt.alloc(), NOWHERE) {
        Ok(Some(text)) => text.as_str() == TOLD_OF_NOWHERE,
        _ => false,
    };
    hold(&rt, "the starter that leads nowhere is told", told);
    Ok(())
}
