//! A man at Ash, and Beech by its script.

ghost use Rattle.std.specs.Prelude.{◌≡◌, ◌<◌, IfOk, length};
ghost use Rattle.text_fetch.specs.Runs.{AreScriptsOf};

use block_words::Way;
use box_session::{Session, has_empty_script};
use line_law::{Act, Call, Reply};
use rail_text::{MemShelf, NoMemory};
use std::alloc::Global;
use std::process::Abort;
use std::test::Fail;
use std::thread::Threads;
use text_fetch::{Inputs, fetch_inputs};

const PLAN: &str = "plan 1\nboxes 2\ndelay 2\nlooks 1000000\nbox Ash\nbox Beech\nend\n";

const ASH: &str = "script Ash\nend\n";

// He rings, and when he is answered he rings again.
const BEECH: &str =
    "script Beech\n09:00 ring up 1\n09:01 await_bell up 1\n09:02 ring up 2-1\n09:03 await_bell up 2-1\nend\n";

const HEAR: Call = Call {
    moment: 541,
    act: Act::Hear { side: Way::Down },
};

const RING: Call = Call {
    moment: 542,
    act: Act::Ring {
        side: Way::Down,
        code: 1,
    },
};

// A shelf of these texts, none of whose calls fails.
fn shelf_of(alloc: Global, texts: &[(&str, &str)]) -> Result<MemShelf, NoMemory> {
    let mut held = Vec::new(alloc);
    for (name, text) in texts {
        let name = String::from_str(alloc, name)?;
        let bytes = Vec::from_slice(alloc, text.as_bytes())?;
        held.push((name, bytes))?;
    }
    Ok(MemShelf::new(held, Vec::new(alloc)))
}

fn inputs_of<R: Threads + Sync>(rt: &R, alloc: Global) -> Result<Inputs, text_fetch::Stop>
    ensures { IfOk result (λ inputs. AreScriptsOf inputs.plan inputs.scripts.items) }
{
    let mut shelf = match shelf_of(alloc, &[("plan", PLAN), ("ash", ASH), ("beech", BEECH)]) {
        Ok(shelf) => shelf,
        Err(NoMemory) => return Err(text_fetch::Stop::NoMemory),
    };
    let inputs = fetch_inputs(rt, alloc, &mut shelf, "plan", &["ash", "beech"]);
    drop(shelf);
    inputs
}

// He makes a call that he may make, and is answered so.
fn makes(alloc: Global, session: &mut Session<'_>, call: &Call, reply: &Reply) -> bool {
    if session.is_full() || !session.may_call(call) {
        return false;
    }
    match session.make(alloc, call) {
        Ok(answered) => answered.is_same(reply),
        Err(NoMemory) => false,
    }
}

// What he would be answered, where the line is worked again first.
fn would_get(alloc: Global, session: &mut Session<'_>, call: &Call, reply: &Reply) -> bool {
    match session.work_again(alloc) {
        Ok(()) => session.may_call(call) && session.answer(call).is_same(reply),
        Err(NoMemory) => false,
    }
}

// He hears the other, answers, takes that back and answers once more.
fn facts(alloc: Global, session: &mut Session<'_>) -> [(&'static str, bool); 9] {
    let first = session.journal().len() == 1;
    let hears = makes(alloc, session, &HEAR, &Reply::Heard { code: 1, k: 1 });
    let rings = makes(alloc, session, &RING, &Reply::Rung { k: 1 });
    let goes_on = session.journal().len() == 5 && session.calls().len() == 2;
    let back = session.undo().is_some() && session.journal().len() == 2 && !session.is_worked();
    let silent = would_get(alloc, session, &HEAR, &Reply::Silent { k: 1 });
    let again = makes(alloc, session, &RING, &Reply::Rung { k: 1 });
    let same = session.journal().len() == 5 && session.moment() == 542;
    let early = session.may_call(&HEAR);
    [
        ("Beech has rung, and waits", first),
        ("he hears it", hears),
        ("he answers", rings),
        ("Beech goes on", goes_on),
        ("he takes it back", back),
        ("nothing more has rung", silent),
        ("he answers again", again),
        ("all as before", same),
        ("no call falls back", !early),
    ]
}

fn session_facts(rt: &impl Abort, alloc: Global, inputs: &Inputs) -> Result<(), NoMemory>
    requires { AreScriptsOf inputs.now.plan inputs.now.scripts.items }
{
    let scripts = inputs.scripts.as_slice();
    assert!(rt;
        scripts.len() == 2 && has_empty_script(scripts, 0),
        "a script for each box"
    );
    let mut session = Session::begin(alloc, &inputs.plan, 0, scripts)?;
    for (name, holds) in facts(alloc, &mut session) {
        assert!(rt; holds, "not so: {name}");
    }
    let journal = session.end();
    assert!(rt; journal.entries.len() == 5, "the journal has five entries");
    Ok(())
}

#[test]
fn man_at_ash(rt: HostRuntime) -> Result<(), Fail> {
    let inputs = match inputs_of(&rt, rt.alloc()) {
        Ok(inputs) => inputs,
        Err(_) => return Err(Fail::from("the texts are read")),
    };
    let told = session_facts(&rt, rt.alloc(), &inputs);
    drop(inputs);
    match told {
        Ok(()) => Ok(()),
        Err(NoMemory) => Err(Fail::from("there is memory")),
    }
}
