//! The audit of a journal as its text is read: no entry is kept.

ghost use Rattle.std.specs.Prelude.{◌≡◌, ◌≤◌, [], IsErrOf, length};
ghost use Rattle.rail_text.specs.Gives.{GivesText};
ghost use Rattle.line_plan.specs.Plans.{IsPlan};
ghost use Rattle.line_report.specs.Reading.{most_journal_bytes};
ghost use Rattle.line_report.specs.Verdicts.{opening_judge};
ghost use Rattle.reg_audit.specs.Auditors.{AuditsAll, HasAudited};
ghost use Rattle.reg_audit.specs.Texts.{text_audited};

use crate::auditing::Auditor;
use crate::printing::print_audit;
use line_plan::Plan;
use line_report::{Hearing, NO_ENTRY, Verdict};
use rail_text::ReadError;
use std::alloc::Global;

// The judge hears all entries, and the auditor those up to the first that is wrong; or the first fault is refused.
fn audit_to_end(
    auditor: &mut Auditor,
    plan: &Plan,
    hearing: &mut Hearing<'_>,
) -> Result<(), ReadError>
    requires audited { HasAudited plan.now [] auditor.old }
    requires opening { hearing.old.judge ≡ opening_judge plan.now }
    ensures { AuditsAll plan.now hearing.old hearing.new auditor.new result }
{
    let mut entry = NO_ENTRY;
    while hearing.next_entry(&mut entry)? {
        if let Verdict::Legal = hearing.verdict() {
            auditor.hear(plan, &entry)?;
        }
    }
    Ok(())
}

/// The audit of the journal that a text spells, as it is printed: its breaches where it is legal, as `print_audit`
/// tells them, else what a judge prints; or the first fault of the text, as `read_journal` tells it. It goes over the
/// text once, performs each entry once, and keeps none. Want of memory is told of no text that is too long.
pub fn audit_text(alloc: Global, plan: &Plan, bytes: &[u8]) -> Result<Vec<u8>, ReadError>
    ensures exact { GivesText (λ text. text.items) result (text_audited plan.now bytes.now) }
    ensures plan { IsPlan plan.now }
    ensures memory { IsErrOf result ReadError.NoMemory → length bytes.now ≤ most_journal_bytes plan.now.version }
{
    plan.meets_conditions();
    let mut hearing = Hearing::open(alloc, plan, bytes)?;
    let mut auditor = Auditor::open(alloc, plan)?;
    audit_to_end(&mut auditor, plan, &mut hearing)?;
    let text = match hearing.verdict() {
        Verdict::Legal => print_audit(alloc, &auditor.into_found())?,
        Verdict::WrongAt { .. } => hearing.print_found(alloc)?,
    };
    Ok(text)
}
