//! How far a rehearsal came, and how each box stands where it ended.

ghost use Rattle.std.specs.Prelude.{◌≡◌, ◌+◌, ◌<◌, ◌++◌, ◌∷◌, ◌^◌, [], IfOk, IsTrue, OnOk, codes, is_some, length};
ghost use Rattle.std.specs.Prelude.{slice_index_or, string_bytes};
ghost use Rattle.line_law.specs.Known.{KnowsCall};
ghost use Rattle.line_law.specs.Serial.{first_free};
ghost use Rattle.script_text.specs.Calls.{call_text};
ghost use Rattle.script_text.specs.Entries.{IsSpelled};
ghost use Rattle.rehearsal_report.specs.Accounts.{IsAccount, left_in};
ghost use Rattle.rehearsal_report.specs.CallLines.{place_text, text_at};
ghost use Rattle.rehearsal_report.specs.Reports.{Reports, Tells};
ghost use Rattle.rehearsal_report.specs.Reports.Told.{Row, Said, Whole};
ghost use Rattle.rehearsal_report.specs.Standings.{IsKnownStanding, calls_in, heading, is_free, standing_at};
ghost use Rattle.rehearsal_report.specs.Standings.{standing_lines, standing_row, standing_rows};

use crate::account::Account;
use crate::call_lines::NumberedScript;
use crate::cells::{call_of, place_of};
use crate::columns::{ReportRow, put_rows};
use crate::progress::put_progress;
use crate::stop_sentences::stop_sentence;
use line_law::{Call, Entry};
use line_plan::Plan;
use line_rehearsal::Stop;
use serial_working::next_call;
use std::alloc::{AllocError, Global};

/// How a box stands where a rehearsal has ended.
#[derive(Clone, Copy, Debug)]
pub enum Standing {
    /// It has made all its calls.
    Done,
    /// Its man is stopped at his await.
    Stopped(Stop),
    /// It may make its next call, which is that one of its script, from 1.
    Free { call: Call, number: usize },
}

impl Standing {
    // Whether the box may go on.
    fn is_free(&self) -> bool
        ensures { result ≡ is_free self.now }
    {
        match self {
            Standing::Free { .. } => true,
            Standing::Done | Standing::Stopped(_) => false,
        }
    }
}

// How a box stands.
fn standing_at(account: &Account<'_>, box_no: usize) -> Standing
    requires account { IsAccount account.now.plan.now account.now.scripts.now account.now.texts.now
        account.now.rehearsal.now }
    requires box_no { box_no < length account.now.scripts.now }
    ensures exact { result ≡ standing_at account.now.plan.now account.now.scripts.now account.now.rehearsal.now
        box_no }
    ensures known { IsKnownStanding account.now.plan.now box_no result }
{
    let rehearsal = account.rehearsal;
    match rehearsal.stop_of(account.plan, account.scripts, box_no) {
        Some(stop) => Standing::Stopped(stop),
        None => match next_call(account.scripts, &rehearsal.made, box_no) {
            Some(call) => Standing::Free {
                call: *call,
                number: rehearsal.made[box_no] + 1,
            },
            None => Standing::Done,
        },
    }
}

// Whether some box may go on.
fn is_some_free(account: &Account<'_>) -> bool
    requires { IsAccount account.now.plan.now account.now.scripts.now account.now.texts.now
        account.now.rehearsal.now }
    ensures { result ≡ is_some (first_free account.now.plan.now account.now.rehearsal.now.line.line 0
        (left_in account.now.scripts.now account.now.rehearsal.now)) }
{
    for box_no in 0..account.scripts.len() {
        if standing_at(account, box_no).is_free() {
            return true;
        }
    }
    false
}

/// Puts how far a rehearsal came, which is the heading.
pub fn put_heading(out: &mut String, account: &Account<'_>, all: usize) -> Result<(), AllocError>
    requires account { IsAccount account.now.plan.now account.now.scripts.now account.now.texts.now
        account.now.rehearsal.now }
    requires all { all ≡ calls_in account.now.scripts.now }
    ensures { OnOk result (Tells (heading account.now.plan.now account.now.scripts.now account.now.rehearsal.now)
        (string_bytes out.old) (string_bytes out.new)) }
{
    let made = account.rehearsal.journal.entries.len();
    put_progress(out, made, all, is_some_free(account))?;
    Ok(())
}

// The line of a box that has made all its calls.
fn done_row(alloc: Global, script: &NumberedScript<'_>) -> Result<ReportRow, AllocError>
    ensures { IfOk result (λ row. row ≡ Row script.now.name (codes "has made all its calls")) }
{
    let mut name = String::new(alloc);
    name.push_str(script.name())?;
    let mut words = String::new(alloc);
    words.push_str("has made all its calls")?;
    Ok(ReportRow::pair(name, words))
}

// The line of a box that may make its next call.
fn free_row(
    alloc: Global,
    plan: &Plan,
    script: &NumberedScript<'_>,
    box_no: u32,
    call: &Call,
    number: usize,
) -> Result<ReportRow, AllocError>
    requires { KnowsCall plan.now box_no call.now }
    ensures { IfOk result (λ row. row ≡ Row (place_text script.now number)
        (call_text plan.now call.now ++ codes " comes next")) }
{
    let place = place_of(alloc, script, number)?;
    let mut words = call_of(alloc, plan, box_no, call)?;
    words.push_str(" comes next")?;
    Ok(ReportRow::pair(place, words))
}

// The line of a box whose man is stopped.
fn stopped_row(
    alloc: Global,
    account: &Account<'_>,
    box_no: usize,
    stop: &Stop,
) -> Result<ReportRow, AllocError>
    requires account { IsAccount account.now.plan.now account.now.scripts.now account.now.texts.now
        account.now.rehearsal.now }
    requires box_no { box_no < length account.now.texts.now }
    requires known { IsKnownStanding account.now.plan.now box_no (Standing.Stopped stop.now) }
    ensures { IfOk result (λ row. row ≡ standing_row account.now.plan.now (text_at account.now.texts.now box_no)
        (Standing.Stopped stop.now)) }
{
    account.plan.meets_conditions();
    let entry = Entry {
        box_no: box_no as u32,
        call: stop.call,
        reply: stop.reply,
    };
    let place = place_of(alloc, &account.texts[box_no], stop.number as usize)?;
    let words = call_of(alloc, account.plan, entry.box_no, &entry.call)?;
    let sentence = stop_sentence(alloc, account, &entry)?;
    Ok(ReportRow::said(place, words, sentence))
}

// The line of a box.
fn box_row(alloc: Global, account: &Account<'_>, box_no: usize) -> Result<ReportRow, AllocError>
    requires account { IsAccount account.now.plan.now account.now.scripts.now account.now.texts.now
        account.now.rehearsal.now }
    requires box_no { box_no < length account.now.scripts.now }
    ensures { IfOk result (λ row. row ≡ standing_row account.now.plan.now (text_at account.now.texts.now box_no)
        (standing_at account.now.plan.now account.now.scripts.now account.now.rehearsal.now box_no)) }
{
    account.plan.meets_conditions();
    let script = &account.texts[box_no];
    match standing_at(account, box_no) {
        Standing::Done => done_row(alloc, script),
        Standing::Stopped(stop) => stopped_row(alloc, account, box_no, &stop),
        Standing::Free { call, number } => {
            free_row(alloc, account.plan, script, box_no as u32, &call, number)
        }
    }
}

// The lines of all boxes.
fn box_rows(alloc: Global, account: &Account<'_>) -> Result<Vec<ReportRow>, AllocError>
    requires { IsAccount account.now.plan.now account.now.scripts.now account.now.texts.now
        account.now.rehearsal.now }
    ensures { IfOk result (λ rows. rows.items ≡ standing_rows account.now.plan.now account.now.texts.now
        account.now.rehearsal.now 0 (left_in account.now.scripts.now account.now.rehearsal.now)) }
{
    let mut rows = Vec::new(alloc);
    for box_no in 0..account.scripts.len() {
        rows.push(box_row(alloc, account, box_no)?)?;
    }
    Ok(rows)
}

/// Puts how each box stands, a line for each, where not all calls are made.
pub fn put_standings(out: &mut String, account: &Account<'_>, all: usize) -> Result<(), AllocError>
    requires account { IsAccount account.now.plan.now account.now.scripts.now account.now.texts.now
        account.now.rehearsal.now }
    requires all { all ≡ calls_in account.now.scripts.now }
    ensures { OnOk result (Reports (standing_lines account.now.plan.now account.now.scripts.now account.now.texts.now
        account.now.rehearsal.now) (string_bytes out.old) (string_bytes out.new)) }
{
    if account.rehearsal.journal.entries.len() == all {
        return Ok(());
    }
    let rows = box_rows(*out.allocator(), account)?;
    put_rows(out, &rows)?;
    Ok(())
}
