//! `rehearse PLAN SCRIPT..`: scripts are rehearsed, and what comes of it is put.

ghost use Rattle.std.specs.Prelude.{◌≡◌, ◌≢◌, ◌+◌, ◌≤◌, ℕ, List, [], All, IfOk, IfErr, Some, length};
ghost use mathlib.Core.List.{IsPrefix};
ghost use Rattle.line_law.specs.History.{IsLegal, state_of};
ghost use Rattle.line_law.specs.Serial.{serial_journal};
ghost use Rattle.line_races.specs.Races.{AreRaces};
ghost use Rattle.line_rehearsal.specs.Rehearsals.{IsRehearsal, IsUnderWay};
ghost use Rattle.rehearsal_report.specs.ReportLines.{has_found, report_lines};
ghost use Rattle.rehearsal_report.specs.Reports.{Reports};
ghost use Rattle.script_text.specs.Scripts.{most_script_bytes};
ghost use Rattle.serial_working.specs.Rosters.{calls_of_scripts};
ghost use Rattle.text_fetch.specs.FromTexts.{named};
ghost use Rattle.text_fetch.specs.Runs.{AreScriptsOf};
ghost use Rattle.signalbox_words.specs.Commands.{Command};
ghost use Rattle.signalbox_top.specs.Rehearsing.{IsTroubleOf, wanted_shown};
ghost use Rattle.signalbox_top.specs.Top.{Headline, IsAnswer, IsAnswered, IsText, TakesFront, named_texts};
ghost use Rattle.signalbox_top.specs.Top.{until_of};
ghost use Rattle.signalbox_top.specs.Told.{FaultIsTold, TellsWhy};

use crate::answering::{put_result, tell_trouble};
use crate::status::{Status, status_of};
use explained_texts::{ReasonedShelf, RunTexts, Trouble, fetch_run};
use line_races::{Race, races};
use line_rehearsal::{Rehearsal, Until, rehearse};
use line_report::print_journal;
use rail_text::{NoMemory, Sink};
use rehearsal_report::{ScriptText, has_found, put_report};
use std::alloc::{AllocError, Global};

/// What is wanted of a rehearsal.
#[derive(Drop)]
pub(crate) struct Wanted<'a> {
    /// It ends at the first refused call.
    pub(crate) to_refusal: bool,
    /// Its journal is put in the place of its report.
    pub(crate) as_journal: bool,
    /// The name of the plan.
    pub(crate) plan: &'a str,
    /// The names of the scripts, in the order of their boxes.
    pub(crate) scripts: &'a [&'a str],
}

/// What is put of a rehearsal, and the status.
#[derive(Drop)]
struct Answer {
    text: Vec<u8>,
    status: Status,
}

// How far scripts are rehearsed.
fn until(to_refusal: bool) -> Until
    ensures { result ≡ until_of to_refusal }
{
    if to_refusal {
        Until::Refusal
    } else {
        Until::Stop
    }
}

// The scripts by their names, with their texts.
fn named_texts<'a>(
    alloc: Global,
    names: &'a [&'a str],
    texts: &'a [Vec<u8>],
) -> Result<Vec<ScriptText<'a>>, AllocError>
    requires { length names.now ≡ length texts.now }
    ensures { IfOk result (λ named_ones. named_ones.items ≡ named_texts (named names.entry.now) texts.entry.now) }
{
    let mut named = Vec::new(alloc);
    for (at, name) in names.iter().enumerate() {
        named.push(ScriptText {
            name,
            bytes: texts[at].as_slice(),
        })?;
    }
    Ok(named)
}

// The report of a rehearsal.
fn report(
    alloc: Global,
    run: &RunTexts,
    names: &[&str],
    rehearsal: &Rehearsal,
    races: &[Race],
) -> Result<Vec<u8>, NoMemory>
    requires scripts { AreScriptsOf run.now.plan run.now.scripts.items }
    requires way { IsUnderWay run.now.plan run.now.scripts.items rehearsal.now.made.items rehearsal.now.line }
    requires legal { IsLegal run.now.plan rehearsal.now.journal.entries }
    requires begins { IsPrefix rehearsal.now.journal.entries
        (serial_journal run.now.plan (calls_of_scripts run.now.scripts.items)) }
    requires state { rehearsal.now.line.line ≡ state_of run.now.plan rehearsal.now.journal.entries }
    requires texts { length run.now.texts.items ≡ length run.now.scripts.items }
    requires names { length names.now ≡ length run.now.scripts.items }
    requires few { All (λ text. length text.items ≤ most_script_bytes + 1) run.now.texts.items }
    requires races { AreRaces run.now.plan rehearsal.now.journal.entries races.now }
    ensures { IfOk result (λ text. Reports (report_lines run.now.plan run.now.scripts.items
        (named_texts (named names.now) run.now.texts.items) rehearsal.now races.now) [] text.items) }
{
    run.plan.meets_conditions();
    let texts = named_texts(alloc, names, &run.texts)?;
    let mut out = String::new(alloc);
    put_report(&mut out, &run.plan, &run.scripts, &texts, rehearsal, races)?;
    Ok(out.into_bytes())
}

// What is put of a rehearsal: its journal, or its report.
fn text_of(
    alloc: Global,
    wanted: &Wanted<'_>,
    run: &RunTexts,
    rehearsal: &Rehearsal,
    races: &[Race],
) -> Result<Vec<u8>, NoMemory>
    requires scripts { AreScriptsOf run.now.plan run.now.scripts.items }
    requires way { IsUnderWay run.now.plan run.now.scripts.items rehearsal.now.made.items rehearsal.now.line }
    requires legal { IsLegal run.now.plan rehearsal.now.journal.entries }
    requires begins { IsPrefix rehearsal.now.journal.entries
        (serial_journal run.now.plan (calls_of_scripts run.now.scripts.items)) }
    requires state { rehearsal.now.line.line ≡ state_of run.now.plan rehearsal.now.journal.entries }
    requires texts { length run.now.texts.items ≡ length run.now.scripts.items }
    requires names { length wanted.now.scripts.now ≡ length run.now.scripts.items }
    requires few { All (λ text. length text.items ≤ most_script_bytes + 1) run.now.texts.items }
    requires races { AreRaces run.now.plan rehearsal.now.journal.entries races.now }
    ensures { IfOk result (λ text. IsText wanted.now.as_journal run.now.plan run.now.scripts.items
        (named_texts (named wanted.now.scripts.now) run.now.texts.items) rehearsal.now races.now text.items) }
{
    run.plan.meets_conditions();
    if wanted.as_journal {
        print_journal(alloc, &run.plan, &rehearsal.journal)
    } else {
        report(alloc, run, wanted.scripts, rehearsal, races)
    }
}

// What comes of a rehearsal.
fn answer_of(
    alloc: Global,
    wanted: &Wanted<'_>,
    run: &RunTexts,
    rehearsal: &Rehearsal,
) -> Result<Answer, NoMemory>
    requires scripts { AreScriptsOf run.now.plan run.now.scripts.items }
    requires way { IsUnderWay run.now.plan run.now.scripts.items rehearsal.now.made.items rehearsal.now.line }
    requires rehearsed { IsRehearsal run.now.plan (calls_of_scripts run.now.scripts.items)
        (until_of wanted.now.to_refusal) rehearsal.now.journal.entries rehearsal.now.made.items }
    requires state { rehearsal.now.line.line ≡ state_of run.now.plan rehearsal.now.journal.entries }
    requires texts { length run.now.texts.items ≡ length run.now.scripts.items }
    requires names { length wanted.now.scripts.now ≡ length run.now.scripts.items }
    requires few { All (λ text. length text.items ≤ most_script_bytes + 1) run.now.texts.items }
    ensures answer { IfOk result (λ answer. IsAnswer wanted.now.to_refusal wanted.now.as_journal run.now.plan
        run.now.scripts.items (named_texts (named wanted.now.scripts.now) run.now.texts.items) answer.text.items
        answer.status) }
    ensures done { IfOk result (λ answer. answer.status ≢ Status.Failed) }
{
    run.plan.meets_conditions();
    let races = races(alloc, &run.plan, rehearsal.journal.entries.as_slice())?;
    let text = text_of(alloc, wanted, run, rehearsal, &races)?;
    let status = status_of(has_found(&run.scripts, rehearsal, &races));
    Ok(Answer { text, status })
}

// What comes of scripts that are rehearsed.
fn rehearsed(alloc: Global, wanted: &Wanted<'_>, run: &RunTexts) -> Result<Answer, NoMemory>
    requires own { AreScriptsOf run.now.plan run.now.scripts.items }
    requires texts { length run.now.texts.items ≡ length run.now.scripts.items }
    requires names { length wanted.now.scripts.now ≡ length run.now.scripts.items }
    requires few { All (λ text. length text.items ≤ most_script_bytes + 1) run.now.texts.items }
    ensures answer { IfOk result (λ answer. IsAnswer wanted.now.to_refusal wanted.now.as_journal run.now.plan
        run.now.scripts.items (named_texts (named wanted.now.scripts.now) run.now.texts.items) answer.text.items
        answer.status) }
    ensures done { IfOk result (λ answer. answer.status ≢ Status.Failed) }
{
    let rehearsal = rehearse(alloc, &run.plan, &run.scripts, until(wanted.to_refusal))?;
    let answer = answer_of(alloc, wanted, run, &rehearsal);
    drop(rehearsal);
    answer
}

// What comes of `rehearse`.
fn answered<S: ReasonedShelf>(
    alloc: Global,
    wanted: &Wanted<'_>,
    shelf: &mut S,
) -> Result<Answer, Trouble>
    ensures answer { IfOk result (λ answer. IsAnswered (S.held shelf.old) (wanted_shown wanted.now) answer.text.items
        answer.status) }
    ensures done { IfOk result (λ answer. answer.status ≢ Status.Failed) }
    ensures trouble { IfErr result (IsTroubleOf (S.held shelf.old)
        (record { before = S.faults shelf.old; now = S.faults shelf.new }) (wanted_shown wanted.now)) }
    ensures same { (n : List ℕ) → S.held shelf.new n ≡ S.held shelf.old n }
{
    let run = fetch_run(alloc, shelf, wanted.plan, wanted.scripts)?;
    let answer = rehearsed(alloc, wanted, &run);
    drop(run);
    match answer {
        Ok(answer) => Ok(answer),
        Err(NoMemory) => Err(Trouble::NoMemory),
    }
}

/// Rehearses the scripts of these names, and puts what comes of it.
pub(crate) fn serve_rehearse<S: ReasonedShelf, K: Sink, L: Sink>(
    alloc: Global,
    wanted: &Wanted<'_>,
    shelf: &mut S,
    out: &mut K,
    told: &mut L,
) -> Status
    ensures headline { result ≢ Status.Failed → Headline (S.held shelf.old)
        (Some (Command.Rehearse (wanted_shown wanted.now))) result (K.taken out.old) (K.taken out.new) }
    ensures part { result ≡ Status.Failed → TakesFront (K.taken out.old) (K.taken out.new) }
    ensures why { result ≡ Status.Failed
        → TellsWhy (L.taken told.old) (L.taken told.new) (L.faults told.old) (L.faults told.new) }
    ensures fault { result ≡ Status.Failed → FaultIsTold (S.held shelf.old)
        (record { before = S.faults shelf.old; now = S.faults shelf.new })
        (Some (Command.Rehearse (wanted_shown wanted.now))) (L.taken told.old) (L.taken told.new) (L.faults told.old)
        (L.faults told.new) }
    ensures same { (n : List ℕ) → S.held shelf.new n ≡ S.held shelf.old n }
{
    match answered(alloc, wanted, shelf) {
        Ok(answer) => put_result(out, told, &answer.text, answer.status),
        Err(trouble) => tell_trouble(told, &trouble),
    }
}
