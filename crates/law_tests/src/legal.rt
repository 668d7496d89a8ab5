//! Legal journals that texts spell.

ghost use Rattle.std.specs.Prelude.{All, IfOk, IfSome};
ghost use Rattle.line_law.specs.History.{IsLegal};
ghost use Rattle.line_report.specs.Asked.{AreFewEntries};
ghost use Rattle.script_text.specs.Entries.{IsSpelled};

use line_law::Journal;
use line_plan::Plan;
use line_report::{Verdict, judge, read_journal};
use rail_text::ReadError;
use std::alloc::Global;

/// The journal that a text spells, where it is legal.
pub fn legal_journal(alloc: Global, plan: &Plan, text: &str) -> Result<Option<Journal>, ReadError>
    ensures legal { IfOk result (λ found. IfSome found (λ journal. IsLegal plan.now journal.entries)) }
    ensures few { IfOk result (λ found. IfSome found (λ journal. AreFewEntries journal.entries)) }
    ensures spelled { IfOk result (λ found. IfSome found (λ journal. All (IsSpelled plan.now) journal.entries)) }
{
    let journal = read_journal(alloc, plan, text.as_bytes())?;
    match judge(alloc, plan, &journal) {
        Ok(Verdict::Legal) => Ok(Some(journal)),
        Ok(Verdict::WrongAt { .. }) => {
            drop(journal);
            Ok(None)
        }
        Err(fault) => {
            drop(journal);
            Err(fault.into())
        }
    }
}
