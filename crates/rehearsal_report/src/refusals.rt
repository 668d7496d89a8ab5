//! The refused calls of a rehearsal.

ghost use Rattle.std.specs.Prelude.{◌≡◌, ◌<◌, ◌++◌, ◌∷◌, [], IfOk, OnOk, length, string_bytes};
ghost use Rattle.script_text.specs.Calls.{call_text};
ghost use Rattle.script_text.specs.Entries.{IsSpelled};
ghost use Rattle.rehearsal_report.specs.Accounts.{IsAccount};
ghost use Rattle.rehearsal_report.specs.Numbers.{AreNumbers};
ghost use Rattle.rehearsal_report.specs.CallLines.{place_text, text_at};
ghost use Rattle.rehearsal_report.specs.ReportLines.{refused_lines, refused_rows, refused_text};
ghost use Rattle.rehearsal_report.specs.Reports.{IsSentence, PutsPair, Reports, Tells};
ghost use Rattle.rehearsal_report.specs.Reports.Told.{Said};

use crate::account::Account;
use crate::cells::ROOM;
use crate::columns::{Columns, put_blanks};
use crate::progress::{put_count, put_line};
use line_law::{Entry, is_refused};
use line_plan::Plan;
use reply_sentences::{put_sentence, sentence_of};
use script_text::put_call;
use std::alloc::{AllocError, Global};

// How many calls are refused, and how wide the columns of their lines are.
#[derive(Clone, Copy)]
struct Measure {
    many: usize,
    columns: Columns,
}

/// The sentence of a refused call.
pub fn refusal_sentence(alloc: Global, plan: &Plan, entry: &Entry) -> Result<String, AllocError>
    requires { IsSpelled plan.now entry.now }
    ensures { IfOk result (λ text. IsSentence (string_bytes text)) }
{
    let sentence = sentence_of(alloc, plan, entry)?;
    Ok(sentence.into_string())
}

// How wide the columns of a refused call are, which is this one of its script.
fn widths_of(
    scratch: &mut String,
    account: &Account<'_>,
    entry: &Entry,
    number: usize,
) -> Result<Columns, AllocError>
    requires spelled { IsSpelled account.now.plan.now entry.now }
    requires box_no { entry.now.box_no < length account.now.texts.now }
{
    scratch.clear();
    account.texts[entry.box_no as usize].put_place(scratch, number)?;
    let first = scratch.len();
    scratch.clear();
    put_call(scratch, account.plan, entry.box_no, &entry.call)?;
    Ok(Columns {
        first,
        second: scratch.len(),
    })
}

// How many calls are refused, and how wide the columns of their lines are.
fn measure_refused(
    alloc: Global,
    account: &Account<'_>,
    numbers: &[usize],
) -> Result<Measure, AllocError>
    requires account { IsAccount account.now.plan.now account.now.scripts.now account.now.texts.now
        account.now.rehearsal.now }
    requires numbers { AreNumbers account.now.rehearsal.now.journal.entries numbers.now }
    ensures { IfOk result (λ measure. measure.many ≡ length (refused_rows account.now.plan.now account.now.texts.now
        account.now.rehearsal.now.journal.entries 0 account.now.rehearsal.now.journal.entries)) }
{
    let mut scratch = String::with_capacity(alloc, ROOM)?;
    let mut many = 0;
    let mut columns = Columns {
        first: 0,
        second: 0,
    };
    let entries = account.rehearsal.journal.entries.as_slice();
    for (at, entry) in entries.iter().enumerate() {
        if is_refused(&entry.reply) {
            columns = columns.max(widths_of(&mut scratch, account, entry, numbers[at])?);
            many += 1;
        }
    }
    Ok(Measure { many, columns })
}

// Puts where a refused call stands, and the call, behind a text, the first so wide. Gives how wide the call is.
fn put_call_at(
    out: &mut String,
    account: &Account<'_>,
    entry: &Entry,
    number: usize,
    width: usize,
) -> Result<usize, AllocError>
    requires spelled { IsSpelled account.now.plan.now entry.now }
    requires box_no { entry.now.box_no < length account.now.texts.now }
    ensures { IfOk result (λ put. PutsPair (place_text (text_at account.now.texts.now entry.now.box_no) number)
        (call_text account.now.plan.now entry.now.call) (string_bytes out.old) (string_bytes out.new)) }
{
    let start = out.len();
    account.texts[entry.box_no as usize].put_place(out, number)?;
    let put = out.len().saturating_sub(start);
    put_blanks(out, width.saturating_sub(put))?;
    let start = out.len();
    put_call(out, account.plan, entry.box_no, &entry.call)?;
    Ok(out.len().saturating_sub(start))
}

// Puts the line of a refused call, which is this one of its script, its columns so wide.
fn put_refused_row(
    out: &mut String,
    account: &Account<'_>,
    entry: &Entry,
    number: usize,
    columns: Columns,
) -> Result<(), AllocError>
    requires spelled { IsSpelled account.now.plan.now entry.now }
    requires box_no { entry.now.box_no < length account.now.texts.now }
    ensures { OnOk result (Tells (Said (place_text (text_at account.now.texts.now entry.now.box_no) number)
        (call_text account.now.plan.now entry.now.call)) (string_bytes out.old) (string_bytes out.new)) }
{
    let put = put_call_at(out, account, entry, number, columns.first)?;
    put_blanks(out, columns.second.saturating_sub(put))?;
    put_sentence(out, account.plan, entry)?;
    out.push('\n')
}

// Puts the lines of the refused calls, their columns so wide.
fn put_refused_rows(
    out: &mut String,
    account: &Account<'_>,
    numbers: &[usize],
    columns: Columns,
) -> Result<(), AllocError>
    requires account { IsAccount account.now.plan.now account.now.scripts.now account.now.texts.now
        account.now.rehearsal.now }
    requires numbers { AreNumbers account.now.rehearsal.now.journal.entries numbers.now }
    ensures { OnOk result (Reports (refused_rows account.now.plan.now account.now.texts.now
        account.now.rehearsal.now.journal.entries 0 account.now.rehearsal.now.journal.entries)
        (string_bytes out.old) (string_bytes out.new)) }
{
    let entries = account.rehearsal.journal.entries.as_slice();
    for (at, entry) in entries.iter().enumerate() {
        if is_refused(&entry.reply) {
            put_refused_row(out, account, entry, numbers[at], columns)?;
        }
    }
    Ok(())
}

// Puts how many calls are refused.
fn put_refused_count(out: &mut String, many: usize) -> Result<(), AllocError>
    ensures { OnOk result (string_bytes out.new ≡ string_bytes out.old ++ refused_text many ++ 10 ∷ []) }
{
    if many == 0 {
        return put_line(out, "refused calls: none");
    }
    put_count(out, "refused calls: ", many)
}

/// Puts how many calls are refused, and a line for each.
pub fn put_refused(
    out: &mut String,
    account: &Account<'_>,
    numbers: &[usize],
) -> Result<(), AllocError>
    requires account { IsAccount account.now.plan.now account.now.scripts.now account.now.texts.now
        account.now.rehearsal.now }
    requires numbers { AreNumbers account.now.rehearsal.now.journal.entries numbers.now }
    ensures { OnOk result (Reports (refused_lines account.now.plan.now account.now.texts.now
        account.now.rehearsal.now.journal.entries) (string_bytes out.old) (string_bytes out.new)) }
{
    let measure = measure_refused(*out.allocator(), account, numbers)?;
    put_refused_count(out, measure.many)?;
    put_refused_rows(out, account, numbers, measure.columns)
}
