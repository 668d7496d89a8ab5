//! What may come about otherwise on threads.

ghost use Rattle.std.specs.Prelude.{◌≡◌, ◌<◌, ◌++◌, ◌∷◌, [], All, OnOk, length, map, string_bytes};
ghost use Rattle.script_text.specs.Entries.{IsSpelled};
ghost use Rattle.rehearsal_report.specs.Accounts.{IsAccount, IsWithin};
ghost use Rattle.rehearsal_report.specs.Numbers.{AreNumbers};
ghost use Rattle.rehearsal_report.specs.ReportLines.{act_at, race_heading, race_line, race_lines};
ghost use Rattle.rehearsal_report.specs.Reports.{Reports, Tells};

use crate::account::Account;
use crate::progress::put_line;
use crate::race_sentences::race_sentence;
use line_law::Entry;
use line_races::Race;
use script_text::put_act;
use std::alloc::AllocError;

// Puts an entry, which is this call of its script, by its line and what is done.
#[tactic(auto, unfolding(line_law::specs::Known::knows_call))]
fn put_act_at(
    out: &mut String,
    account: &Account<'_>,
    entry: &Entry,
    number: usize,
) -> Result<(), AllocError>
    requires spelled { IsSpelled account.now.plan.now entry.now }
    requires box_no { entry.now.box_no < length account.now.texts.now }
    ensures { OnOk result (string_bytes out.new
        ≡ string_bytes out.old ++ act_at account.now.plan.now account.now.texts.now entry.now number) }
{
    let script = &account.texts[entry.box_no as usize];
    script.put_place(out, number)?;
    out.push_str(" `")?;
    put_act(out, account.plan, entry.box_no, entry.call.act)?;
    out.push_str("`")?;
    Ok(())
}

// Puts the line of a race.
fn put_race(
    out: &mut String,
    account: &Account<'_>,
    numbers: &[usize],
    race: &Race,
) -> Result<(), AllocError>
    requires account { IsAccount account.now.plan.now account.now.scripts.now account.now.texts.now
        account.now.rehearsal.now }
    requires numbers { AreNumbers account.now.rehearsal.now.journal.entries numbers.now }
    requires race { IsWithin (length account.now.rehearsal.now.journal.entries) race.now }
    ensures { OnOk result (Tells (race_line account.now.plan.now account.now.texts.now
        account.now.rehearsal.now.journal.entries race.now) (string_bytes out.old) (string_bytes out.new)) }
{
    let entries = account.rehearsal.journal.entries.as_slice();
    let first = &entries[race.first];
    let second = &entries[race.second];
    let sentence = race_sentence(*out.allocator(), account.plan, first, second)?;
    put_act_at(out, account, second, numbers[race.second])?;
    out.push_str(" and ")?;
    put_act_at(out, account, first, numbers[race.first])?;
    out.push_str(": ")?;
    put_line(out, sentence.as_str())?;
    Ok(())
}

// Puts the lines of races.
fn put_each_race(
    out: &mut String,
    account: &Account<'_>,
    numbers: &[usize],
    races: &[Race],
) -> Result<(), AllocError>
    requires account { IsAccount account.now.plan.now account.now.scripts.now account.now.texts.now
        account.now.rehearsal.now }
    requires numbers { AreNumbers account.now.rehearsal.now.journal.entries numbers.now }
    requires races { All (IsWithin (length account.now.rehearsal.now.journal.entries)) races.now }
    ensures { OnOk result (Reports (map (race_line account.now.plan.now account.now.texts.now
        account.now.rehearsal.now.journal.entries) races.now) (string_bytes out.old) (string_bytes out.new)) }
{
    for race in races {
        put_race(out, account, numbers, race)?;
    }
    Ok(())
}

// Puts whether there are races.
fn put_race_heading(out: &mut String, many: usize) -> Result<(), AllocError>
    ensures { OnOk result (string_bytes out.new ≡ string_bytes out.old ++ race_heading many ++ 10 ∷ []) }
{
    if many == 0 {
        return put_line(out, "may differ on threads: nothing");
    }
    put_line(out, "may differ on threads")
}

/// Puts what may come about otherwise on threads, a line for each race.
pub fn put_races(
    out: &mut String,
    account: &Account<'_>,
    numbers: &[usize],
    races: &[Race],
) -> Result<(), AllocError>
    requires account { IsAccount account.now.plan.now account.now.scripts.now account.now.texts.now
        account.now.rehearsal.now }
    requires numbers { AreNumbers account.now.rehearsal.now.journal.entries numbers.now }
    requires races { All (IsWithin (length account.now.rehearsal.now.journal.entries)) races.now }
    ensures { OnOk result (Reports (race_lines account.now.plan.now account.now.texts.now
        account.now.rehearsal.now.journal.entries races.now) (string_bytes out.old) (string_bytes out.new)) }
{
    put_race_heading(out, races.len())?;
    put_each_race(out, account, numbers, races)?;
    Ok(())
}
