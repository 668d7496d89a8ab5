//! Why a man is stopped, and who could free him, as a sentence.

ghost use Rattle.std.specs.Prelude.{◌≤◌, ◌<◌, IfOk, IfSome, OnOk, length, string_bytes};
ghost use Rattle.script_text.specs.Entries.{IsSpelled};
ghost use Rattle.rehearsal_report.specs.Accounts.{IsAccount};
ghost use Rattle.rehearsal_report.specs.Reports.{IsSentence};

use crate::account::Account;
use crate::call_lines::NumberedScript;
use crate::refusals::refusal_sentence;
use block_words::Way;
use line_law::{Act, Call, Entry, Reply, starter_way};
use line_plan::Plan;
use reply_sentences::{Sentence, position_name};
use std::alloc::{AllocError, Global};

// The box on a side of another, where the line has one.
fn box_beside(plan: &Plan, box_no: u32, side: Way) -> Option<u32>
    requires { box_no < length plan.now.boxes }
    ensures { IfSome result (λ beside. beside < length plan.now.boxes) }
{
    match side {
        Way::Up => box_no.checked_sub(1),
        Way::Down => {
            if box_no as usize + 1 < plan.boxes.len() {
                Some(box_no + 1)
            } else {
                None
            }
        }
    }
}

// The box whose man could satisfy an await of another.
fn giver_of(plan: &Plan, box_no: u32, awaited: Act) -> Option<u32>
    requires { box_no < length plan.now.boxes }
    ensures { IfSome result (λ giver. giver < length plan.now.boxes) }
{
    match awaited {
        Act::AwaitBell { side, .. } => box_beside(plan, box_no, side),
        Act::AwaitBlock { way, .. } => box_beside(plan, box_no, way),
        Act::AwaitTrain { way } => box_beside(plan, box_no, way.opposite()),
        _ => None,
    }
}

// Whether a lever of a box works the starter of an outgoing line.
fn is_starter(plan: &Plan, box_no: u32, lever: u32, way: Way) -> bool
    requires { box_no < length plan.now.boxes }
{
    let here = &plan.boxes.as_slice()[box_no as usize];
    starter_way(here.signal(lever)) == Some(way)
}

// Whether a call of the neighbour's man could satisfy an await.
fn could_satisfy(plan: &Plan, giver: u32, act: Act, awaited: Act) -> bool
    requires { giver < length plan.now.boxes }
{
    match awaited {
        Act::AwaitBell { side, code } => {
            act == Act::Ring {
                side: side.opposite(),
                code,
            }
        }
        Act::AwaitBlock { way, position } => act == Act::Turn { way, position },
        Act::AwaitTrain { way } => match act {
            Act::Pass { lever } | Act::Overrun { lever } => is_starter(plan, giver, lever, way),
            _ => false,
        },
        _ => false,
    }
}

// Whether an entry of the neighbour's man changed what a man sees at his await: it rang the bell that he hears, or
// turned the instrument that he sees.
fn has_changed(entry: &Entry, awaited: Act) -> bool {
    match (entry.reply, entry.call.act) {
        (Reply::Rung { .. }, Act::Ring { side: towards, .. }) => match awaited {
            Act::AwaitBell { side, .. } => towards == side.opposite(),
            _ => false,
        },
        (Reply::Turned { .. }, Act::Turn { way: turned, .. }) => match awaited {
            Act::AwaitBlock { way, .. } => turned == way,
            _ => false,
        },
        _ => false,
    }
}

// Which call of his script the neighbour's man made last by which he changed what a man sees at his await.
fn last_change(entries: &[Entry], giver: u32, awaited: Act) -> Option<usize> {
    let mut number = 0usize;
    let mut last = None;
    for entry in entries {
        if entry.box_no == giver {
            number += 1;
            if has_changed(entry, awaited) {
                last = Some(number);
            }
        }
    }
    last
}

// The first call, behind so many, of the neighbour's man that could satisfy an await.
fn next_chance(plan: &Plan, giver: u32, calls: &[Call], made: usize, awaited: Act) -> Option<usize>
    requires { giver < length plan.now.boxes }
{
    for (at, call) in calls.iter().enumerate() {
        if made <= at && could_satisfy(plan, giver, call.act, awaited) {
            return Some(at + 1);
        }
    }
    None
}

// What the neighbour's man did to bring about what is seen at an await, where he has: he rang the code, or turned the
// instrument.
fn change_word(reply: &Reply) -> Option<&'static str> {
    match *reply {
        Reply::BellNotYet { shown: Some(_), .. } => Some(" rang it"),
        Reply::BlockNotYet { v, .. } if v > 0 => Some(" turned it"),
        _ => None,
    }
}

// Says by which line what is seen came about, where one has brought it about.
fn say_change(
    sentence: &mut Sentence,
    account: &Account<'_>,
    giver: u32,
    entry: &Entry,
) -> Result<(), AllocError>
    requires { giver < length account.now.texts.now }
    ensures { OnOk result (length sentence.old ≤ length sentence.new) }
{
    let Some(word) = change_word(&entry.reply) else {
        return Ok(());
    };
    let entries = account.rehearsal.journal.entries.as_slice();
    let Some(number) = last_change(entries, giver, entry.call.act) else {
        return Ok(());
    };
    say_line(sentence, &account.texts[giver as usize], number)?;
    sentence.say(word)
}

// Says where a call of a script stands.
fn say_line(
    sentence: &mut Sentence,
    script: &NumberedScript<'_>,
    number: usize,
) -> Result<(), AllocError>
    ensures { OnOk result (length sentence.old ≤ length sentence.new) }
{
    sentence.say("; ")?;
    sentence.say(script.name())?;
    sentence.say_count(":", u64::from(script.call_line(number)))
}

// Says what would satisfy an await.
#[tactic(auto, unfolding(line_law::specs::Known::knows_call))]
fn say_wanted(sentence: &mut Sentence, plan: &Plan, entry: &Entry) -> Result<(), AllocError>
    requires { IsSpelled plan.now entry.now }
    ensures { OnOk result (length sentence.old ≤ length sentence.new) }
{
    match entry.call.act {
        Act::AwaitBell { code, .. } => sentence.say_code(plan, " ring ", code),
        Act::AwaitBlock { position, .. } => {
            sentence.say(" turn it to ")?;
            sentence.say(position_name(position))
        }
        _ => sentence.say(" send it"),
    }
}

// Says by which line the neighbour's man could still satisfy an await, or that he has none.
fn say_chance(
    sentence: &mut Sentence,
    account: &Account<'_>,
    giver: u32,
    entry: &Entry,
) -> Result<(), AllocError>
    requires account { IsAccount account.now.plan.now account.now.scripts.now account.now.texts.now
        account.now.rehearsal.now }
    requires spelled { IsSpelled account.now.plan.now entry.now }
    requires giver { giver < length account.now.plan.now.boxes }
    ensures { OnOk result (length sentence.old ≤ length sentence.new) }
{
    let at = giver as usize;
    let script = &account.texts[at];
    let calls = account.scripts[at].calls.as_slice();
    let made = account.rehearsal.made[at];
    match next_chance(account.plan, giver, calls, made, entry.call.act) {
        Some(number) => {
            say_line(sentence, script, number)?;
            sentence.say(" is still to")?;
        }
        None => {
            sentence.say("; ")?;
            sentence.say(script.name())?;
            sentence.say(" has no call left that could")?;
        }
    }
    say_wanted(sentence, account.plan, entry)
}

// Says by which line of the neighbour's man came about what is seen at an await, and by which it could still be
// satisfied.
fn say_giver(
    sentence: &mut Sentence,
    account: &Account<'_>,
    entry: &Entry,
) -> Result<(), AllocError>
    requires account { IsAccount account.now.plan.now account.now.scripts.now account.now.texts.now
        account.now.rehearsal.now }
    requires spelled { IsSpelled account.now.plan.now entry.now }
    ensures { OnOk result (length sentence.old ≤ length sentence.new) }
{
    match giver_of(account.plan, entry.box_no, entry.call.act) {
        Some(giver) => {
            say_change(sentence, account, giver, entry)?;
            say_chance(sentence, account, giver, entry)
        }
        None => Ok(()),
    }
}

/// Why a man is stopped at his await: what he sees instead, which line brought that about, and which could still
/// satisfy him.
pub fn stop_sentence(
    alloc: Global,
    account: &Account<'_>,
    entry: &Entry,
) -> Result<String, AllocError>
    requires account { IsAccount account.now.plan.now account.now.scripts.now account.now.texts.now
        account.now.rehearsal.now }
    requires spelled { IsSpelled account.now.plan.now entry.now }
    ensures { IfOk result (λ text. IsSentence (string_bytes text)) }
{
    let mut text = refusal_sentence(alloc, account.plan, entry)?;
    let mut more = Sentence::new(alloc);
    say_giver(&mut more, account, entry)?;
    text.push_str(more.as_str())?;
    Ok(text)
}
