//! Journals as they are read and printed, byte for byte.

use crate::facts::{all_hold, is_text, none_is_wrong, shows_itself};
use crate::lines::NAMES;
use block_words::Way;
use line_law::{Act, Call, Entry, Reply};
use line_plan::Plan;
use line_report::{
    histories_can_be_printed, journals_law, most_journal_bytes, print_journal, put_entry,
    put_journal, read_journal,
};
use plan_text::read_plan;
use rail_text::ReadError;
use script_text::is_spelled;
use std::alloc::{AllocError, Global};
use std::test::Fail;

const IN_SECONDS: &str = "plan 2\nboxes 2\ndelay 2\nlooks 1000000000\nbox Ash\nbox Beech\nend\n";

const EXCHANGE: &str = "journal 1\n\
    1 Ash 10:00 ring down 1 -> rung 1\n\
    2 Beech 10:00 await_bell up 1 -> heard 1 1\n\
    3 Beech 10:00 ring up 1 -> rung 1\n\
    4 Ash 10:00 await_bell down 1 -> heard 1 1\n\
    end\n";

const REFUSED: &str = "journal 1\n\
    1 Ash 00:00 ring down 1 -> rung 1\n\
    2 Ash 10:00 ring down 4 -> bell_busy 1 1\n\
    3 Beech 10:00 await_bell up 4 -> not_yet 1 1\n\
    4 Ash 10:01 await_bell down 1 -> not_yet 0 none\n\
    5 Ash 23:59 hear down -> silent 0\n\
    end\n";

const HEARD: &str = "journal 2\n\
    1 Ash 10:00:00 ring down 1 -> rung 1\n\
    2 Beech 10:01:01 hear up -> heard 1 1\n\
    3 Ash 23:59:59 hear down -> silent 0\n\
    end\n";

const BUSY: &str = "journal 1\n1 Beech 10:00 ring up 3-1 -> bell_busy 4 1\nend\n";

const BUSY_SHOWN: &str = "Journal { entries: Items { items: [Entry { box_no: 1, \
    call: Call { moment: 600, act: Ring { side: Up, code: 3 } }, \
    reply: BellBusy { code: 1, k: 4 } }] } }";

// Whether a journal is printed back.
fn is_printed_back(alloc: Global, plan: &Plan, text: &str) -> Result<bool, ReadError> {
    let journal = read_journal(alloc, plan, text.as_bytes())?;
    let printed = print_journal(alloc, plan, &journal);
    drop(journal);
    Ok(is_text(printed?, text))
}

// The first of these journals that isn't printed back.
fn first_misprinted(alloc: Global, plan: &Plan, texts: &[&'static str]) -> Option<&'static str> {
    for text in texts {
        let Ok(true) = is_printed_back(alloc, plan, text) else {
            return Some(text);
        };
    }
    None
}

// Whether a journal shows itself so.
fn is_shown(alloc: Global, plan: &Plan, text: &str, wanted: &str) -> Result<bool, ReadError> {
    let journal = read_journal(alloc, plan, text.as_bytes())?;
    let is_wanted = shows_itself(alloc, &journal, wanted);
    drop(journal);
    Ok(is_wanted?)
}

// Puts an entry of Beech with another number behind a text.
fn put_renumbered(out: &mut String, plan: &Plan) -> Result<(), AllocError> {
    let side = Way::Up;
    let act = Act::Ring { side, code: 3 };
    let reply = Reply::BellBusy { k: 4, code: 1 };
    let call = Call { moment: 600, act };
    let entry = Entry {
        box_no: 1,
        call,
        reply,
    };
    if is_spelled(plan, &entry) {
        put_entry(out, plan, 2, &entry)?;
    }
    Ok(())
}

// Puts a journal behind a text.
fn put_whole(out: &mut String, alloc: Global, plan: &Plan, text: &str) -> Result<(), ReadError> {
    let journal = read_journal(alloc, plan, text.as_bytes())?;
    let done = put_journal(out, plan, &journal);
    drop(journal);
    Ok(done?)
}

// Puts an entry and the journal that has it behind a text.
fn put_both(out: &mut String, alloc: Global, plan: &Plan) -> Result<(), ReadError> {
    out.push_str("refusals 1\n")?;
    put_renumbered(out, plan)?;
    put_whole(out, alloc, plan, BUSY)
}

// Whether they stand there.
fn stand_behind_a_text(alloc: Global, plan: &Plan) -> Result<bool, ReadError> {
    let mut out = String::new(alloc);
    let done = put_both(&mut out, alloc, plan);
    let is_wanted = out.as_str()
        == "refusals 1\n2 Beech 10:00 ring up 3-1 -> bell_busy 4 1\n\
        journal 1\n1 Beech 10:00 ring up 3-1 -> bell_busy 4 1\nend\n";
    drop(out);
    done?;
    Ok(is_wanted)
}

#[test]
fn journals_in_minutes(rt: HostRuntime) -> Result<(), Fail> {
    let plan = read_plan(rt.alloc(), NAMES.as_bytes())?;
    let texts = &["journal 1\nend\n", EXCHANGE, REFUSED];
    let misprinted = first_misprinted(rt.alloc(), &plan, texts);
    let is_shown = is_shown(rt.alloc(), &plan, BUSY, BUSY_SHOWN);
    let stand_behind = stand_behind_a_text(rt.alloc(), &plan);
    drop(plan);
    none_is_wrong(&rt, misprinted);
    let facts = [("the entry", is_shown?), ("behind a text", stand_behind?)];
    all_hold(&rt, &facts);
    Ok(())
}

#[test]
fn journals_in_seconds(rt: HostRuntime) -> Result<(), Fail> {
    let plan = read_plan(rt.alloc(), IN_SECONDS.as_bytes())?;
    let misprinted = first_misprinted(rt.alloc(), &plan, &["journal 2\nend\n", HEARD]);
    drop(plan);
    none_is_wrong(&rt, misprinted);
    Ok(())
}

#[test]
fn limits_and_laws(rt: HostRuntime) {
    all_hold(
        &rt,
        &[
            ("64 MiB in minutes", most_journal_bytes(1) == 67_108_864),
            ("128 MiB in seconds", most_journal_bytes(2) == 134_217_728),
        ],
    );
    histories_can_be_printed();
    journals_law();
}
