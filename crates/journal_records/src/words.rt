//! What is told of an entry, in words.

ghost use Rattle.std.specs.Prelude.{◌≡◌, IfOk, string_bytes};
ghost use Rattle.script_text.specs.Acts.{act_text};
ghost use Rattle.script_text.specs.Entries.{IsSpelled};
ghost use Rattle.script_text.specs.Moments.{moment_text};
ghost use Rattle.script_text.specs.Replies.{reply_text};
ghost use Rattle.journal_records.specs.Entries.{AreFieldsOf};

use crate::named::{lever_named, place_named, train_named};
use crate::said::said_of;
use entry_records::EntryWords;
use line_law::{Entry, is_refused};
use line_plan::Plan;
use script_text::{put_act, put_moment, put_reply};
use std::alloc::{AllocError, Global};

// The moment of an entry.
#[tactic(auto, unfolding(line_law::specs::Known::knows_call))]
fn moment_words(alloc: Global, plan: &Plan, entry: &Entry) -> Result<String, AllocError>
    requires { IsSpelled plan.now entry.now }
    ensures { IfOk result (λ text. string_bytes text ≡ moment_text plan.now.version entry.now.call.moment) }
{
    let mut text = String::new(alloc);
    put_moment(&mut text, plan.version, entry.call.moment)?;
    Ok(text)
}

// What was done.
#[tactic(auto, unfolding(line_law::specs::Known::knows_call))]
fn call_words(alloc: Global, plan: &Plan, entry: &Entry) -> Result<String, AllocError>
    requires { IsSpelled plan.now entry.now }
    ensures { IfOk result (λ text. string_bytes text ≡ act_text plan.now entry.now.call.act) }
{
    let mut text = String::new(alloc);
    put_act(&mut text, plan, entry.box_no, entry.call.act)?;
    Ok(text)
}

// The reply.
fn reply_words(alloc: Global, plan: &Plan, entry: &Entry) -> Result<String, AllocError>
    requires { IsSpelled plan.now entry.now }
    ensures { IfOk result (λ text. string_bytes text ≡ reply_text plan.now entry.now.box_no entry.now.reply) }
{
    let mut text = String::new(alloc);
    put_reply(&mut text, plan, entry.box_no, &entry.reply)?;
    Ok(text)
}

/// What is told of entry `n` of a journal, in words.
pub fn words_of<'a>(
    alloc: Global,
    plan: &'a Plan,
    n: u64,
    entry: &Entry,
) -> Result<EntryWords<'a>, AllocError>
    requires { IsSpelled plan.now entry.now }
    ensures { IfOk result (λ words. AreFieldsOf plan.now n entry.now words) }
{
    let at = moment_words(alloc, plan, entry)?;
    let call = call_words(alloc, plan, entry)?;
    let reply = reply_words(alloc, plan, entry)?;
    let says = said_of(alloc, plan, entry)?;
    Ok(EntryWords {
        n,
        box_name: plan.box_name(entry.box_no),
        at,
        call,
        reply,
        is_done: !is_refused(&entry.reply),
        lever: lever_named(&entry.reply),
        place: place_named(plan, entry.box_no, &entry.reply),
        train: train_named(plan, entry.box_no, &entry.reply),
        says,
    })
}
