//! Replies and entries: those that have no text, and what no journal can show. Replies that are read are worked rows.

use crate::facts::all_hold;
use crate::lines::{NAMES, plan_of_three};
use block_words::{Position, Way, WelwynState};
use line_law::{Act, Call, Entry, Reply};
use line_plan::Plan;
use plan_text::read_plan;
use script_text::{is_spelled, is_spelled_reply, position_word, put_told, spent_word};
use std::alloc::{AllocError, Global};
use std::process::Abort;

// Whether no text spells a reply at Beech.
fn has_no_text(plan: &Plan, reply: Reply) -> bool {
    plan.boxes.len() == 3 && !is_spelled_reply(plan, 1, &reply)
}

// Replies with a field off the plan.
fn have_no_text(rt: &impl Abort, plan: &Plan) {
    let shown = Some(12);
    let state = WelwynState::Ready;
    for reply in [
        Reply::Rung { k: 10_000_000_000 },
        Reply::BellBusy { k: 1, code: 0 },
        Reply::Heard { k: 1, code: 12 },
        Reply::BellNotYet { k: 1, shown },
        Reply::HomeReversed { lever: 5 },
        Reply::HeldByLever { lever: 1, row: 3 },
        Reply::HeldByLever { lever: 1, row: 0 },
        Reply::Occupied { place: 4, train: 1 },
        Reply::Passed { train: 0 },
        Reply::Passed { train: 4 },
        Reply::WelwynHolds { state },
        Reply::Winding { ready_at: 1500 },
    ] {
        assert!(rt; has_no_text(plan, reply), "{reply:?}");
    }
}

#[test]
fn replies_off_a_line_of_three_have_no_text(rt: HostRuntime) {
    let plan = plan_of_three(rt.alloc(), 1).expect(&rt, "a plan");
    have_no_text(&rt, &plan);
    drop(plan);
    let plan = plan_of_three(rt.alloc(), 2).expect(&rt, "a plan");
    let is_late = has_no_text(&plan, Reply::TooSoon { ready_at: 90_000 });
    drop(plan);
    let is_spent = spent_word(true) == "spent";
    let is_clear = position_word(Position::LineClear) == "line_clear";
    assert!(rt; is_late && is_spent && is_clear);
}

// Whether the line spells what a box was told at a moment.
fn spells(plan: &Plan, box_no: u32, moment: u32, act: Act, reply: Reply) -> bool {
    let call = Call { moment, act };
    let entry = Entry {
        box_no,
        call,
        reply,
    };
    is_spelled(plan, &entry)
}

// No such box, no neighbour on that side, no moment of a day.
fn calls_facts(plan: &Plan) -> [(&'static str, bool); 4] {
    let hear = Act::Hear { side: Way::Up };
    let silent = Reply::Silent { k: 0 };
    [
        ("the second box", spells(plan, 1, 600, hear, silent)),
        ("no third box", !spells(plan, 2, 600, hear, silent)),
        ("no neighbour above", !spells(plan, 0, 600, hear, silent)),
        ("no moment 24:00", !spells(plan, 1, 1440, hear, silent)),
    ]
}

// Codes of a call and of replies: the last of the table, and those before its first and after its last.
fn codes_facts(plan: &Plan) -> [(&'static str, bool); 6] {
    let side = Way::Up;
    let hear = Act::Hear { side };
    let first = Act::Ring { side, code: 1 };
    let eleventh = Act::Ring { side, code: 11 };
    let awaited = Act::AwaitBell { side, code: 1 };
    let shown = Some(11);
    [
        (
            "heard the last",
            spells(plan, 1, 600, hear, Reply::Heard { k: 1, code: 10 }),
        ),
        (
            "heard none",
            !spells(plan, 1, 600, hear, Reply::Heard { k: 1, code: 0 }),
        ),
        (
            "heard one more",
            !spells(plan, 1, 600, hear, Reply::Heard { k: 1, code: 11 }),
        ),
        (
            "rings one more",
            !spells(plan, 1, 600, eleventh, Reply::Rung { k: 1 }),
        ),
        (
            "one more unheard",
            !spells(plan, 1, 600, first, Reply::BellBusy { k: 1, code: 11 }),
        ),
        (
            "shows one more",
            !spells(plan, 1, 600, awaited, Reply::BellNotYet { k: 1, shown }),
        ),
    ]
}

// Replies with a field off the line, and those beside them with none.
fn replies_are_spelled(rt: &impl Abort, plan: &Plan) {
    let hear = Act::Hear { side: Way::Up };
    let given = WelwynState::Given;
    let ready = WelwynState::Ready;
    for (reply, wanted) in [
        // The boxes have no places, levers and rows, and the line no trains.
        (Reply::Passed { train: 1 }, false),
        (Reply::Occupied { place: 0, train: 1 }, false),
        (Reply::HomeReversed { lever: 1 }, false),
        (Reply::HeldByLever { lever: 1, row: 1 }, false),
        // Ready holds nothing back.
        (Reply::WelwynHolds { state: given }, true),
        (Reply::WelwynHolds { state: ready }, false),
        // Counts of ten digits; moments of the day and of the hour behind it.
        (Reply::Turned { v: 9_999_999_999 }, true),
        (Reply::Turned { v: 10_000_000_000 }, false),
        (Reply::Winding { ready_at: 1499 }, true),
        (Reply::TooSoon { ready_at: 1500 }, false),
    ] {
        assert!(rt; spells(plan, 1, 600, hear, reply) == wanted, "{reply:?}");
    }
}

// Puts what the first box was told behind a text: it rang at ten o'clock while its bell was busy.
fn put_busy(text: &mut String, plan: &Plan) -> Result<(), AllocError> {
    let side = Way::Down;
    let act = Act::Ring { side, code: 2 };
    let reply = Reply::BellBusy { k: 1, code: 1 };
    let call = Call { moment: 600, act };
    let entry = Entry {
        box_no: 0,
        call,
        reply,
    };
    text.push_str("2 ")?;
    if is_spelled(plan, &entry) {
        put_told(text, plan, &entry)?;
    }
    Ok(())
}

// Whether it stands there.
fn stands_behind_a_text(alloc: Global, plan: &Plan) -> Result<bool, AllocError> {
    let mut text = String::new(alloc);
    let done = put_busy(&mut text, plan);
    let is_wanted = text.as_str() == "2 10:00 ring down 4 -> bell_busy 1 1";
    drop(text);
    done?;
    Ok(is_wanted)
}

#[test]
fn entries_on_a_line_of_names(rt: HostRuntime) {
    let plan = read_plan(rt.alloc(), NAMES.as_bytes()).expect(&rt, "a plan");
    replies_are_spelled(&rt, &plan);
    let calls = calls_facts(&plan);
    let codes = codes_facts(&plan);
    let stands_behind = stands_behind_a_text(rt.alloc(), &plan);
    drop(plan);
    all_hold(&rt, &calls);
    all_hold(&rt, &codes);
    all_hold(&rt, &[("behind a text", stands_behind == Ok(true))]);
}
