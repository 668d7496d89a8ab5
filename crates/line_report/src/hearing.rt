//! The judge hears a journal as its text is read: no entry is kept.

ghost use Rattle.std.specs.Prelude.{◌≡◌, ◌≤◌, IfOk, IsErrOf, length};
ghost use Rattle.rail_text.specs.Gives.{GivesText};
ghost use Rattle.line_plan.specs.Plans.{IsPlan};
ghost use Rattle.line_report.specs.Hearings.{HearsAll, text_judged};
ghost use Rattle.line_report.specs.Reading.{most_journal_bytes};

use crate::journal_reader::{JournalReader, NO_ENTRY};
use crate::judging::{Judgement, Verdict};
use line_law::Entry;
use line_plan::Plan;
use rail_text::{NoMemory, ReadError};
use std::alloc::Global;
use std::marker::Model;

/// A journal that is judged as its text is read, entry by entry. It keeps no entry, and takes memory only where it is
/// opened. Contracts see what is left of the text, and what the judge has heard of it.
#[derive(Drop)]
pub struct Hearing<'a> {
    reader: JournalReader<'a>,
    judge: Judgement<'a>,
}

impl<'a> Model for Hearing<'a> {
    ghost use Rattle.line_report.specs.Hearings.{HasHeard, HearingFields};

    ghost Value = { HearingFields };

    ghost view = { λ hearing. record { reader = hearing.reader; judge = hearing.judge } };

    ghost invariant = { λ hearing. HasHeard hearing.reader.so_far hearing.judge };
}

impl<'a> Hearing<'a> {
    ghost use Rattle.std.specs.Prelude.{◌≡◌, ◌<◌, ◌≤◌, ◌^◌, ℕ, IfOk, IsErrOf, Ok, length, true};
    ghost use Rattle.line_law.specs.declared.call.Reply.{Reply};
    ghost use Rattle.line_report.specs.Hearings.{GivesHearing, HearsNext};
    ghost use Rattle.line_report.specs.Readers.{start};
    ghost use Rattle.line_report.specs.Reading.{GivesNext, journal_of, most_journal_bytes};
    ghost use Rattle.line_report.specs.Spelled.{IsBehind};
    ghost use Rattle.line_report.specs.Verdicts.{CanPrint, found_text, opening_judge};

    /// Begins to hear the journal that a text spells, behind its heading. A text longer than `most_journal_bytes` is
    /// refused as `TooLong` at line 0; so is the first fault of its heading.
    pub fn open(alloc: Global, plan: &'a Plan, bytes: &'a [u8]) -> Result<Hearing<'a>, ReadError>
        ensures gives { GivesHearing result (journal_of plan.now bytes.now) }
        ensures start { IfOk result (λ hearing. hearing.reader.so_far ≡ start plan.now) }
        ensures judge { IfOk result (λ hearing. hearing.judge ≡ opening_judge plan.now) }
        ensures short { IfOk result (λ _. length bytes.now ≤ most_journal_bytes plan.now.version) }
        ensures memory { IsErrOf result ReadError.NoMemory → length bytes.now ≤ most_journal_bytes plan.now.version }
    {
        let reader = JournalReader::open(alloc, plan, bytes)?;
        let judge = Judgement::open(alloc, plan)?;
        Ok(Hearing { reader, judge })
    }

    /// Whether an entry comes next, which is then put in the room that is lent, once the judge has heard it; else the
    /// line `end` does, and what stands behind that isn't to be read. The first fault is refused with its line and
    /// cause, as `read_journal` tells it.
    #[inline(always)]
    pub fn next_entry(&mut self, entry: &mut Entry) -> Result<bool, ReadError>
        ensures gives { GivesNext self.old.reader self.new.reader result entry.new }
        ensures heard { HearsNext self.old.judge self.new.judge result entry.new }
        ensures behind { result ≡ Ok true
            → IsBehind self.old.reader.so_far.plan self.old.reader.so_far.moments entry.new }
        ensures fewer { result ≡ Ok true → length self.new.reader.rest < length self.old.reader.rest }
        ensures few { result ≡ Ok true → self.new.judge.count < 2 ^ 32 }
    {
        let is_told = self.reader.next_entry(entry)?;
        if is_told {
            self.judge.hear(entry);
        }
        Ok(is_told)
    }

    /// What the judge finds of the entries so far.
    pub fn verdict(&self) -> Verdict
        ensures { result ≡ self.now.judge.verdict }
    {
        self.judge.verdict()
    }

    /// What the judge finds as it is printed: `legal` and the number of entries, or the three lines `wrong at` with the
    /// number of the entry, `said` with the reply that the journal gives there, and `law` with the law's. The plan has
    /// the box of that entry, and can spell both.
    pub fn print_found(&self, alloc: Global) -> Result<Vec<u8>, NoMemory>
        requires { (k : ℕ) (said law : Reply) → self.now.judge.verdict ≡ Verdict.WrongAt k said law
            → CanPrint self.now.judge.plan self.now.judge.box_no said law }
        ensures { IfOk result (λ text. text.items ≡ found_text self.now.judge) }
    {
        let mut out = String::new(alloc);
        self.judge.put_found(&mut out)?;
        Ok(out.into_bytes())
    }
}

// Hears all entries, or refuses the first fault.
fn hear_to_end(hearing: &mut Hearing<'_>) -> Result<(), ReadError>
    ensures { HearsAll hearing.old hearing.new result }
{
    let mut entry = NO_ENTRY;
    while hearing.next_entry(&mut entry)? {}
    Ok(())
}

/// What a judge prints of the journal that a text spells, as `print_found` tells it; or the first fault of the text, as
/// `read_journal` tells it. It goes over the text once, performs each entry once, and keeps none. Want of memory is
/// told of no text that is too long.
pub fn judge_text(alloc: Global, plan: &Plan, bytes: &[u8]) -> Result<Vec<u8>, ReadError>
    ensures exact { GivesText (λ text. text.items) result (text_judged plan.now bytes.now) }
    ensures plan { IsPlan plan.now }
    ensures memory { IsErrOf result ReadError.NoMemory → length bytes.now ≤ most_journal_bytes plan.now.version }
{
    plan.meets_conditions();
    let mut hearing = Hearing::open(alloc, plan, bytes)?;
    hear_to_end(&mut hearing)?;
    let text = hearing.print_found(alloc)?;
    drop(hearing);
    Ok(text)
}
