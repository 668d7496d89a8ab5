//! Scripts that are rehearsed up to where nobody can go on, and up to a refused call.

ghost use Rattle.std.specs.Prelude.{IfOk};
ghost use Rattle.line_rehearsal.specs.Rehearsals.{IsUnderWay};
ghost use Rattle.text_fetch.specs.Runs.{AreScriptsOf};

use crate::facts::{all_hold, hold, shelf_of};
use line_law::Reply;
use line_rehearsal::{Rehearsal, Stop, Until, rehearse};
use rail_text::NoMemory;
use std::alloc::Global;
use std::process::Abort;
use std::test::Fail;
use std::thread::Threads;
use text_fetch::{Inputs, fetch_inputs};

const PLAN: &str = "plan 1\nboxes 2\ndelay 2\nlooks 1000000\nbox Ash\nbox Beech\nend\n";

// He rings once.
const ASH: &str = "script Ash\n09:00 ring down 1\nend\n";

// He hears that, and then awaits a code that nobody will ring.
const BEECH: &str =
    "script Beech\n09:01 await_bell up 1\n09:02 await_bell up 2-1\n09:03 ring up 1\nend\n";

// He listens before anything has rung.
const DEAF: &str = "script Ash\n08:59 hear down\n09:00 ring down 1\nend\n";

fn inputs_of<R: Threads + Sync>(
    rt: &R,
    alloc: Global,
    ash: &str,
) -> Result<Inputs, text_fetch::Stop>
    ensures { IfOk result (λ inputs. AreScriptsOf inputs.plan inputs.scripts.items) }
{
    let mut shelf = match shelf_of(alloc, &[("plan", PLAN), ("ash", ash), ("beech", BEECH)]) {
        Ok(shelf) => shelf,
        Err(NoMemory) => return Err(text_fetch::Stop::NoMemory),
    };
    let inputs = fetch_inputs(rt, alloc, &mut shelf, "plan", &["ash", "beech"]);
    drop(shelf);
    inputs
}

// What the man of a box waits for where a rehearsal ended.
fn stop_at(inputs: &Inputs, rehearsal: &Rehearsal, box_no: usize) -> Option<Stop>
    requires { IsUnderWay inputs.now.plan inputs.now.scripts.items rehearsal.now.made.items rehearsal.now.line }
{
    if box_no < inputs.scripts.len() {
        rehearsal.stop_of(&inputs.plan, &inputs.scripts, box_no)
    } else {
        None
    }
}

// Whether it is his second call, at which the bell has rung once and shows nothing.
fn is_at_second_bell(stop: Option<Stop>) -> bool {
    match stop {
        Some(stop) => stop.number == 2
            && stop.reply.is_same(&Reply::BellNotYet { shown: None, k: 1 }),
        None => false,
    }
}

// Ash has rung and is done; Beech has heard it, and stands at his second call.
fn stops_at_second_bell(rt: &impl Abort, inputs: &Inputs, rehearsal: &Rehearsal)
    requires { IsUnderWay inputs.now.plan inputs.now.scripts.items rehearsal.now.made.items rehearsal.now.line }
{
    all_hold(
        rt,
        &[
            (
                "a call each",
                rehearsal.made.as_slice() == [1, 1].as_slice(),
            ),
            (
                "two entries",
                rehearsal.journal.entries.as_slice().len() == 2,
            ),
            ("Ash is done", stop_at(inputs, rehearsal, 0).is_none()),
            (
                "Beech stands there",
                is_at_second_bell(stop_at(inputs, rehearsal, 1)),
            ),
        ],
    );
}

// Ash has listened in vain, and nobody has done anything else.
fn ends_with_the_refusal(rt: &impl Abort, rehearsal: &Rehearsal) {
    all_hold(
        rt,
        &[
            (
                "his first call alone",
                rehearsal.made.as_slice() == [1, 0].as_slice(),
            ),
            ("one entry", rehearsal.journal.entries.as_slice().len() == 1),
        ],
    );
}

fn rehearse_to_stop(rt: &impl Abort, alloc: Global, inputs: &Inputs) -> Result<(), NoMemory>
    requires { AreScriptsOf inputs.now.plan inputs.now.scripts.items }
{
    let rehearsal = rehearse(alloc, &inputs.plan, &inputs.scripts, Until::Stop)?;
    stops_at_second_bell(rt, inputs, &rehearsal);
    drop(rehearsal);
    Ok(())
}

fn rehearse_to_refusal(rt: &impl Abort, alloc: Global, inputs: &Inputs) -> Result<(), NoMemory>
    requires { AreScriptsOf inputs.now.plan inputs.now.scripts.items }
{
    let rehearsal = rehearse(alloc, &inputs.plan, &inputs.scripts, Until::Refusal)?;
    ends_with_the_refusal(rt, &rehearsal);
    drop(rehearsal);
    Ok(())
}

#[test]
fn stops(rt: HostRuntime) -> Result<(), Fail> {
    let alloc = rt.alloc();
    match inputs_of(&rt, alloc, ASH) {
        Ok(inputs) => {
            let done = rehearse_to_stop(&rt, alloc, &inputs);
            drop(inputs);
            hold(&rt, "memory", done.is_ok());
        }
        Err(_) => hold(&rt, "the texts are read", false),
    }
    Ok(())
}

#[test]
fn ends_at_refusal(rt: HostRuntime) -> Result<(), Fail> {
    let alloc = rt.alloc();
    match inputs_of(&rt, alloc, DEAF) {
        Ok(inputs) => {
            let done = rehearse_to_refusal(&rt, alloc, &inputs);
            drop(inputs);
            hold(&rt, "memory", done.is_ok());
        }
        Err(_) => hold(&rt, "the texts are read", false),
    }
    Ok(())
}
