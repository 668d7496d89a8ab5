//! Journals of an engine's line.

ghost use Rattle.std.specs.Prelude.{◌≡◌, IfOk};

use crate::engine::Engine;
use line_law::{Entry, Journal};
use line_plan::Items;
use line_report::{histories_can_be_printed, judge_text, print_journal};
use rail_text::{NoMemory, ReadError};
use std::alloc::Global;

// The journal of these entries.
fn journal_of(alloc: Global, entries: &[Entry]) -> Result<Journal, NoMemory>
    ensures { IfOk result (λ journal. journal.entries ≡ entries.now) }
{
    let entries = entries.to_vec(alloc)?;
    Ok(Journal {
        entries: Items::from_vec(entries),
    })
}

impl Engine {
    ghost use Rattle.std.specs.Prelude.{◌≡◌, IfErr, IfOk};
    ghost use Rattle.rail_text.specs.Gives.{FailsText, GivesText};
    ghost use Rattle.line_report.specs.Hearings.{text_judged};
    ghost use Rattle.line_report.specs.Journals.{journal_text};
    ghost use Rattle.line_engine.specs.Engines.{EngineFields, IsJudged};

    // The text of the journal of the calls made so far.
    fn journal_text(&self, alloc: Global) -> Result<Vec<u8>, NoMemory>
        ensures { IfOk result (λ text. text.items ≡ journal_text self.now.service.plan self.now.service.entries) }
    {
        self.service.meets_conditions();
        histories_can_be_printed();
        let journal = journal_of(alloc, self.entries())?;
        let text = print_journal(alloc, self.plan(), &journal);
        drop(journal);
        text
    }

    /// The journal of the calls made so far, as it is printed, is the text to tell.
    pub fn journal(&mut self, alloc: Global) -> Result<(), NoMemory>
        ensures told { IfOk result (λ _. self.new ≡ record self.old {
          text = journal_text self.old.service.plan self.old.service.entries;
        }) }
        ensures kept { IfErr result (λ _. self.new ≡ self.old) }
    {
        self.text = self.journal_text(alloc)?;
        Ok(())
    }

    /// What a judge finds of the journal that a text spells is the text to tell; or it is refused for its first fault,
    /// and nothing is changed. The line of the engine has no part in it.
    pub fn judge(&mut self, alloc: Global, text: &[u8]) -> Result<(), ReadError>
        ensures { IsJudged self.old text.now self.new result }
    {
        self.text = judge_text(alloc, self.plan(), text)?;
        Ok(())
    }
}
