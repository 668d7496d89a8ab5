//! The calls of men, one after another: what they are answered, and the journal into which their registers are merged.

use crate::endings::merged;
use crate::facts::holds;
use crate::hands::{is_merged_as, opened, perform_all};
use crate::tests::plans::{ABSOLUTE, BELLS};
use block_words::Way;
use line_law::{Act, Call, Entry, Reply};
use line_plan::Plan;
use line_report::read_journal;
use plan_text::read_plan;
use rail_text::{NoMemory, ReadError};
use signalman_seats::{Signalman, refusal_law};
use std::alloc::Global;
use std::test::Fail;

// Beech waits for a bell that nobody has rung.
const IN_VAIN: Entry = Entry {
    box_no: 1,
    call: Call {
        moment: 600,
        act: Act::AwaitBell {
            side: Way::Up,
            code: 1,
        },
    },
    reply: Reply::BellNotYet { k: 0, shown: None },
};

// Then Ash rings it.
const RUNG: Entry = Entry {
    box_no: 0,
    call: Call {
        moment: 600,
        act: Act::Ring {
            side: Way::Down,
            code: 1,
        },
    },
    reply: Reply::Rung { k: 1 },
};

// The looks of a man.
fn looks_of(men: &[Signalman], box_no: usize) -> u64 {
    match men.get(box_no) {
        Some(man) => man.looks_taken(),
        None => 0,
    }
}

// Does Beech wait three looks and Ash none, and is Beech's entry told first, though Ash is the lower box?
fn is_told_first(alloc: Global, plan: &Plan) -> Result<bool, NoMemory> {
    let (line, mut men) = opened(alloc, plan, 100)?;
    let answered = perform_all(&mut men, &line, &[IN_VAIN, RUNG], 3);
    let looked = (looks_of(&men, 0) == 0) & (looks_of(&men, 1) == 3);
    let journal = merged(alloc, plan, line, men)?;
    let is_first = journal.entries.as_slice() == [IN_VAIN, RUNG].as_slice();
    drop(journal);
    Ok(answered & looked & is_first)
}

#[test]
fn a_man_waits_in_vain(rt: HostRuntime) -> Result<(), Fail> {
    let plan = read_plan(rt.alloc(), BELLS.as_bytes())?;
    let is_so = is_told_first(rt.alloc(), &plan);
    drop(plan);
    holds(&rt, "replies, looks and the journal", is_so?);
    Ok(())
}

// Beech looks for the second train before Ash brings it.
const OVERTAKEN: &str = "journal 1\n\
1 Ash 10:00 bring t1 -> brought\n\
2 Ash 10:00 overrun 8 -> entered 1 t1\n\
3 Beech 10:00 berth down -> berthed 1 t1\n\
4 Beech 10:00 await_train down -> not_yet 2\n\
5 Ash 10:00 bring t2 -> brought\n\
6 Ash 10:00 overrun 8 -> entered 2 t2\n\
end\n";

// The journal tells that it was brought before, and that it entered after.
const AS_MERGED: &str = "journal 1\n\
1 Ash 10:00 bring t1 -> brought\n\
2 Ash 10:00 overrun 8 -> entered 1 t1\n\
3 Ash 10:00 bring t2 -> brought\n\
4 Beech 10:00 berth down -> berthed 1 t1\n\
5 Beech 10:00 await_train down -> not_yet 2\n\
6 Ash 10:00 overrun 8 -> entered 2 t2\n\
end\n";

// Is what one text spells worked, with one look for each await, and merged into what is wanted?
fn merges_into(
    alloc: Global,
    plan: &Plan,
    worked: &str,
    wanted: &[Entry],
) -> Result<bool, ReadError> {
    let worked = read_journal(alloc, plan, worked.as_bytes())?;
    let is_so = is_merged_as(alloc, plan, worked.entries.as_slice(), 1, wanted);
    drop(worked);
    Ok(is_so?)
}

// The same with what another text spells.
fn merges(alloc: Global, plan: &Plan, worked: &str, wanted: &str) -> Result<bool, ReadError> {
    let wanted = read_journal(alloc, plan, wanted.as_bytes())?;
    let is_so = merges_into(alloc, plan, worked, wanted.entries.as_slice());
    drop(wanted);
    is_so
}

#[test]
fn a_look_overtakes_a_train(rt: HostRuntime) -> Result<(), Fail> {
    let plan = read_plan(rt.alloc(), ABSOLUTE.as_bytes())?;
    let is_so = merges(rt.alloc(), &plan, OVERTAKEN, AS_MERGED);
    drop(plan);
    holds(&rt, "replies and the journal", is_so?);
    Ok(())
}

#[test]
fn the_law_of_refusals_holds() {
    refusal_law();
}
