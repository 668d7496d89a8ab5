//! A line on which scripts are worked, and what is left of them.

ghost use Rattle.std.specs.Prelude.{◌≡◌, ◌≢◌, ◌+◌, ◌<◌, ◌^◌, ◌∷◌, ◌↔◌, [], IfOk, IsTrue, length};
ghost use Rattle.line_law.specs.History.{IsLegal, opened};
ghost use Rattle.line_law.specs.Law.{MayCall};
ghost use Rattle.line_law.specs.Lines.{IsLineOf};
ghost use Rattle.line_law.specs.Serial.{calls_left};
ghost use Rattle.line_law.specs.States.{opening_state};
ghost use Rattle.serial_working.specs.Rosters.{calls_of_scripts};
ghost use Rattle.text_fetch.specs.Runs.{AreScriptsOf};
ghost use Rattle.box_session.specs.Sessions.{AreInTurn};
ghost use Rattle.box_session.specs.Works.{IsAfter, IsWorkedTo};

use line_law::{Entry, Plain};
use line_plan::Plan;
use rail_text::NoMemory;
use script_text::Script;
use serial_working::Roster;
use std::alloc::Global;

/// Whether the script of a box is empty, as that of the man's own box has to be.
pub fn has_empty_script(scripts: &[Script], box_no: usize) -> bool
    requires { box_no < length scripts.now }
    ensures { IsTrue result ↔ (calls_left (calls_of_scripts scripts.now) box_no ≡ []) }
{
    scripts[box_no].calls.is_empty()
}

/// A line, and what is left of the scripts that are worked on it.
#[derive(Drop)]
pub struct Work<'a> {
    /// The line.
    pub line: Plain,
    /// What is left of the scripts.
    pub roster: Roster<'a>,
}

/// The line of a plan as it opens, with no call made.
pub fn open_work<'a>(
    alloc: Global,
    plan: &Plan,
    scripts: &'a [Script],
) -> Result<Work<'a>, NoMemory>
    requires { AreScriptsOf plan.now scripts.now }
    ensures line { IfOk result (λ work. IsLineOf plan.now work.line) }
    ensures worked { IfOk result
        (λ work. IsWorkedTo plan.now (calls_of_scripts scripts.now) [] work.line work.roster) }
{
    let line = Plain::open(alloc, plan)?;
    match Roster::new(alloc, scripts) {
        Ok(roster) => Ok(Work { line, roster }),
        Err(_) => {
            drop(line);
            Err(NoMemory)
        }
    }
}

// An entry is worked again: its call is performed, and where it isn't of the man's own box, taken from the script.
fn work_entry(work: &mut Work<'_>, plan: &Plan, own_box: u32, entry: &Entry)
    requires line { IsLineOf plan.now work.old.line }
    requires call { MayCall plan.now work.old.line.line entry.now.box_no entry.now.call }
    requires few { work.old.line.calls < 2 ^ 32 }
    requires own { entry.now.box_no ≡ own_box → calls_left work.old.roster own_box ≡ [] }
    requires there { entry.now.box_no ≢ own_box → entry.now.box_no < length work.old.roster }
    requires left { entry.now.box_no ≢ own_box → 0 < length (calls_left work.old.roster entry.now.box_no) }
    ensures line { IsLineOf plan.now work.new.line }
    ensures after { IsAfter plan.now work.old.line work.old.roster (entry.now ∷ []) work.new.line work.new.roster }
{
    plan.meets_conditions();
    if entry.box_no != own_box {
        let _ = work.roster.take(entry.box_no as usize);
    }
    let _ = work.line.perform(plan, entry.box_no, &entry.call);
}

/// A line is worked again as far as the journal of a session of that box.
pub fn work_again<'a>(
    alloc: Global,
    plan: &Plan,
    scripts: &'a [Script],
    own_box: u32,
    journal: &[Entry],
) -> Result<Work<'a>, NoMemory>
    requires scripts { AreScriptsOf plan.now scripts.now }
    requires idle { calls_left (calls_of_scripts scripts.now) own_box ≡ [] }
    requires few { length journal.now < 2 ^ 32 }
    requires legal { IsLegal plan.now journal.now }
    requires turns { AreInTurn plan.now own_box (opening_state plan.now) (calls_of_scripts scripts.now) journal.now }
    ensures { IfOk result
        (λ work. IsWorkedTo plan.now (calls_of_scripts scripts.now) journal.now work.line work.roster) }
{
    plan.meets_conditions();
    let mut work = open_work(alloc, plan, scripts)?;
    for entry in journal {
        work_entry(&mut work, plan, own_box, entry);
    }
    Ok(work)
}
