//! The whole report.

ghost use Rattle.std.specs.Prelude.{◌≡◌, ◌<◌, ◌^◌, All, OnOk, length, string_bytes};
ghost use Rattle.std.specs.List.{list_any};
ghost use mathlib.Core.List.{IsPrefix};
ghost use Rattle.line_law.specs.History.{IsLegal, state_of};
ghost use Rattle.line_law.specs.Refusals.{is_refused};
ghost use Rattle.line_law.specs.Serial.{serial_journal};
ghost use Rattle.line_rehearsal.specs.Rehearsals.{IsUnderWay};
ghost use Rattle.serial_working.specs.Rosters.{calls_of_scripts};
ghost use Rattle.text_fetch.specs.Runs.{AreScriptsOf};
ghost use Rattle.rehearsal_report.specs.Accounts.{IsAccount, IsWithin};
ghost use Rattle.rehearsal_report.specs.Numbers.{AreNumbers};
ghost use Rattle.rehearsal_report.specs.ReportLines.{has_found, report_lines};
ghost use Rattle.rehearsal_report.specs.Reports.{Reports};
ghost use Rattle.rehearsal_report.specs.Standings.{calls_in};

use crate::account::Account;
use crate::call_lines::{ScriptText, number_scripts};
use crate::call_numbers::number_calls;
use crate::differences::put_races;
use crate::progress::{count_calls, have_more};
use crate::refusals::put_refused;
use crate::standings::{put_heading, put_standings};
use line_law::{Entry, is_refused};
use line_plan::Plan;
use line_races::Race;
use line_rehearsal::Rehearsal;
use script_text::Script;
use std::alloc::AllocError;

// Puts the lines of the report.
fn put_lines(
    out: &mut String,
    account: &Account<'_>,
    numbers: &[usize],
    races: &[Race],
) -> Result<(), AllocError>
    requires account { IsAccount account.now.plan.now account.now.scripts.now account.now.texts.now
        account.now.rehearsal.now }
    requires few { calls_in account.now.scripts.now < 2 ^ 32 }
    requires numbers { AreNumbers account.now.rehearsal.now.journal.entries numbers.now }
    requires races { All (IsWithin (length account.now.rehearsal.now.journal.entries)) races.now }
    ensures { OnOk result (Reports (report_lines account.now.plan.now account.now.scripts.now account.now.texts.now
        account.now.rehearsal.now races.now) (string_bytes out.old) (string_bytes out.new)) }
{
    let all = count_calls(account.scripts);
    put_heading(out, account, all)?;
    put_standings(out, account, all)?;
    put_refused(out, account, numbers)?;
    put_races(out, account, numbers, races)?;
    Ok(())
}

/// Puts the report of a rehearsal behind a text: how far it came; where not all calls are made, how each box stands;
/// which calls were refused; and what may come about otherwise on threads, by the races of its journal. Each call is
/// told by its line in the text of its script. Where memory runs out a part may stand behind the text.
pub fn put_report(
    out: &mut String,
    plan: &Plan,
    scripts: &[Script],
    texts: &[ScriptText<'_>],
    rehearsal: &Rehearsal,
    races: &[Race],
) -> Result<(), AllocError>
    requires scripts { AreScriptsOf plan.now scripts.now }
    requires way { IsUnderWay plan.now scripts.now rehearsal.now.made.items rehearsal.now.line }
    requires state { rehearsal.now.line.line ≡ state_of plan.now rehearsal.now.journal.entries }
    requires legal { IsLegal plan.now rehearsal.now.journal.entries }
    requires begins { IsPrefix rehearsal.now.journal.entries (serial_journal plan.now (calls_of_scripts scripts.now)) }
    requires each { length texts.now ≡ length scripts.now }
    requires short { All (λ text. length text.bytes < 2 ^ 32) texts.now }
    requires races { All (IsWithin (length rehearsal.now.journal.entries)) races.now }
    ensures { OnOk result (Reports (report_lines plan.now scripts.now texts.now rehearsal.now races.now)
        (string_bytes out.old) (string_bytes out.new)) }
{
    plan.meets_conditions();
    let alloc = *out.allocator();
    let numbered = number_scripts(alloc, texts)?;
    let account = Account {
        plan,
        scripts,
        texts: &numbered,
        rehearsal,
    };
    let entries = rehearsal.journal.entries.as_slice();
    let numbers = number_calls(alloc, scripts.len(), entries)?;
    put_lines(out, &account, &numbers, races)?;
    Ok(())
}

// Whether an entry is refused.
fn is_some_refused(entries: &[Entry]) -> bool
    ensures { result ≡ list_any (λ e. is_refused e.reply) entries.now }
{
    for entry in entries {
        if is_refused(&entry.reply) {
            return true;
        }
    }
    false
}

/// Whether a report tells of anything but that all calls are made: a call that isn't made, a refused call or a race.
pub fn has_found(scripts: &[Script], rehearsal: &Rehearsal, races: &[Race]) -> bool
    ensures { result ≡ has_found scripts.now rehearsal.now races.now }
{
    let entries = rehearsal.journal.entries.as_slice();
    have_more(scripts, entries.len()) || is_some_refused(entries) || !races.is_empty()
}
