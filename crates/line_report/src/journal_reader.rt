//! The entries of a journal, read one after another from its text.

ghost use Rattle.std.specs.Prelude.{◌≡◌, ◌<◌, length, true};
ghost use Rattle.std.specs.List.{list_all};
ghost use Rattle.rail_text.specs.Gives.{GivesLine, TakesNoMemory};
ghost use Rattle.rail_text.specs.Lines.{lacks};
ghost use Rattle.line_report.specs.Reading.{heading_in, heading_of, most_journal_bytes};
ghost use Rattle.line_report.specs.ToldEntries.{told_entry};

use crate::entry_line::{box_in, entry_number, later_call_in, told_reply_in, told_words};
use line_law::{Act, Call, Entry, Reply};
use line_plan::Plan;
use rail_text::{
    Cause, KeptEnds, LineFault, LineWords, Lines, ReadError, TextLine, number_in, text_error,
};
use std::alloc::Global;
use std::marker::Model;

/// The most bytes of a journal's text: 64 MiB where the plan has version 1, else 128 MiB.
pub fn most_journal_bytes(version: u8) -> usize
    ensures { result ≡ most_journal_bytes version }
{
    if version == 1 {
        67_108_864
    } else {
        134_217_728
    }
}

/// The room of an entry before one is read.
pub const NO_ENTRY: Entry = Entry {
    box_no: 0,
    call: Call {
        moment: 0,
        act: Act::Bring { train: 0 },
    },
    reply: Reply::NoTrain,
};

// `journal V`: V is the plan's version.
#[tactic(auto, unfolding(crate::specs::Reading::heading_in, crate::specs::Reading::version_in))]
fn heading_in(plan: &Plan, words: &LineWords<'_>) -> Result<u32, LineFault>
    ensures gives { GivesLine (λ version. version) result (heading_in plan.now words.now) }
    ensures memory { TakesNoMemory result }
{
    if words.keyword() != b"journal".as_slice() {
        return Err(LineFault::Cause(Cause::WrongKeyword));
    }
    let word = words.one_word()?;
    let version = u32::from(plan.version);
    number_in(word, version, version)
}

// The version that the heading tells.
#[tactic(auto, using(crate::proofs::NoneSkipped::none_skipped), unfolding(crate::specs::Reading::heading_of, rail_text::specs::Forms::formed_words))]
fn heading_of(plan: &Plan, line: &TextLine<'_>) -> Result<u32, LineFault>
    ensures gives { GivesLine (λ version. version) result
        (heading_of plan.now (record { text = line.now.text.now; ended = line.now.ended })) }
    ensures memory { TakesNoMemory result }
{
    let mut ends = KeptEnds::none();
    match line.formed(false, &mut ends) {
        Ok(Some(words)) => heading_in(plan, &words),
        Ok(None) => unreachable!(),
        Err(cause) => Err(LineFault::Cause(cause)),
    }
}

// The entry of a box by the words of its line, whose last moment was this: its call and its reply.
#[tactic(auto, using(crate::proofs::Arrows::told_rules), unfolding(crate::specs::ToldEntries::told_entry))]
fn told_entry(plan: &Plan, box_no: u32, last: u32, words: &LineWords<'_>) -> Result<Entry, Cause>
    requires at { box_no < length plan.now.boxes }
    requires single { list_all (lacks 32) words.now ≡ true }
    ensures { result ≡ told_entry plan.now box_no last words.now }
{
    let (call, reply) = told_words(words);
    let call = later_call_in(plan, box_no, last, &call)?;
    let reply = told_reply_in(plan, box_no, &call, &reply)?;
    Ok(Entry {
        box_no,
        call,
        reply,
    })
}

/// The entries of a journal's text, read one after another: the text isn't copied, and no entry is kept. Contracts see
/// the plan for which it is read, the last moment of each box, how many entries are read, and the bytes that are left.
#[derive(Drop)]
pub(crate) struct JournalReader<'a> {
    plan: &'a Plan,
    moments: Vec<u32>,
    // The box of the entry before.
    last: u32,
    count: u32,
    lines: Lines<'a>,
}

impl<'a> Model for JournalReader<'a> {
    ghost use Rattle.line_report.specs.Readers.{IsReader, ReaderFields};

    ghost Value = { ReaderFields };

    ghost view = { λ r. record {
      so_far = record { plan = r.plan.now; moments = r.moments.items; count = r.count };
      rest = r.lines.rest;
    } };

    ghost invariant = { λ r. IsReader (record {
      so_far = record { plan = r.plan.now; moments = r.moments.items; count = r.count };
      rest = r.lines.rest;
    }) };
}

impl<'a> JournalReader<'a> {
    ghost use Rattle.std.specs.Prelude.{◌≡◌, ◌≤◌, ◌<◌, ◌^◌, IfOk, IsErrOf, Ok, Some, length, true};
    ghost use Rattle.std.specs.List.{list_all};
    ghost use Rattle.rail_text.specs.Lines.{lacks};
    ghost use Rattle.line_law.specs.declared.call.Entry.{Entry};
    ghost use Rattle.line_report.specs.Readers.{start};
    ghost use Rattle.line_report.specs.Reading.{GivesNext, GivesReader, StandsStill, entry_in, journal_of};
    ghost use Rattle.line_report.specs.Reading.{most_journal_bytes, told_by, told_in};
    ghost use Rattle.line_report.specs.Spelled.{IsBehind};

    /// Begins to read a text behind its heading. A text longer than `most_journal_bytes` is refused as `TooLong` at
    /// line 0; so is the first fault of its heading.
    #[tactic(auto, unfolding(crate::specs::Reading::journal_of, crate::specs::Reading::entries_of))]
    pub(crate) fn open(
        alloc: Global,
        plan: &'a Plan,
        bytes: &'a [u8],
    ) -> Result<JournalReader<'a>, ReadError>
        ensures gives { GivesReader result (journal_of plan.now bytes.now) }
        ensures start { IfOk result (λ reader. reader.so_far ≡ start plan.now) }
        ensures short { IfOk result (λ _. length bytes.now ≤ most_journal_bytes plan.now.version) }
        ensures memory { IsErrOf result ReadError.NoMemory → length bytes.now ≤ most_journal_bytes plan.now.version }
    {
        if bytes.len() > most_journal_bytes(plan.version) {
            return Err(text_error(0, Cause::TooLong));
        }
        let mut lines = Lines::new(bytes);
        let Some(line) = lines.next() else {
            return Err(text_error(1, Cause::NoEnd));
        };
        match heading_of(plan, &line) {
            Ok(_) => {}
            Err(LineFault::Cause(cause)) => return Err(text_error(1, cause)),
            Err(LineFault::NoMemory) => return Err(ReadError::NoMemory),
        }
        Ok(JournalReader {
            plan,
            moments: vec![in alloc; 0; plan.boxes.len()]?,
            last: 0,
            count: 0,
            lines,
        })
    }

    // The entry of a line: its number, its box, its call and its reply.
    #[tactic(auto, unfolding(crate::specs::Reading::entry_in, crate::specs::ToldEntries::told_entry))]
    fn entry_in(&self, words: &LineWords<'_>) -> Result<Entry, Cause>
        requires { list_all (lacks 32) words.now ≡ true }
        ensures { result ≡ entry_in self.now.so_far words.now }
    {
        let plan = self.plan;
        entry_number(u64::from(self.count) + 1, words)?;
        let box_no = box_in(plan, self.last, words)?;
        told_entry(plan, box_no, self.moments[box_no as usize], words)
    }

    // The entry that the words of a line tell; nothing where they are `end`.
    #[tactic(auto, unfolding(crate::specs::Reading::told_in, crate::specs::Reading::end_in))]
    fn told_in(&self, words: &LineWords<'_>) -> Result<Option<Entry>, Cause>
        requires { list_all (lacks 32) words.now ≡ true }
        ensures { result ≡ told_in self.now.so_far words.now }
    {
        if words.keyword() == b"end".as_slice() {
            words.no_word()?;
            return Ok(None);
        }
        Ok(Some(self.entry_in(words)?))
    }

    // The entry that a line tells; nothing where it is `end`.
    #[tactic(auto, using(crate::proofs::NoneSkipped::none_skipped, crate::proofs::Arrows::single_words), unfolding(crate::specs::Reading::told_by, rail_text::specs::Forms::formed_words))]
    fn told_by(&self, line: &TextLine<'_>) -> Result<Option<Entry>, Cause>
        ensures { result ≡ told_by self.now.so_far (record { text = line.now.text.now; ended = line.now.ended }) }
    {
        let mut ends = KeptEnds::none();
        match line.formed(false, &mut ends) {
            Ok(Some(words)) => self.told_in(&words),
            Ok(None) => unreachable!(),
            Err(cause) => Err(cause),
        }
    }

    /// Whether an entry comes next, which is then put in the room that is lent; else the line `end` does, and what
    /// stands behind that isn't to be read. The first fault is refused with its line and cause: where the text has no
    /// line `end`, it is `NoEnd` behind the last.
    /// The plan knows the entry's call, its moment isn't below the one before it at the same box, and its reply is one
    /// that such a call may have and that some text spells; whether it is the law's isn't tested. It takes no memory.
    #[tactic(auto, unfolding(crate::specs::Reading::entries_from))]
    pub(crate) fn next_entry(&mut self, entry: &mut Entry) -> Result<bool, ReadError>
        ensures gives { GivesNext self.old self.new result entry.new }
        ensures still { StandsStill self.old.so_far self.new.so_far result }
        ensures fewer { result ≡ Ok true → length self.new.rest < length self.old.rest }
        ensures few { result ≡ Ok true → self.new.so_far.count < 2 ^ 32 }
        ensures behind { result ≡ Ok true → IsBehind self.old.so_far.plan self.old.so_far.moments entry.new }
    {
        let number = self.count + 2;
        let Some(line) = self.lines.next() else {
            return Err(text_error(number, Cause::NoEnd));
        };
        match self.told_by(&line) {
            Ok(Some(told)) => {
                self.moments[told.box_no as usize] = told.call.moment;
                self.last = told.box_no;
                self.count += 1;
                *entry = told;
                Ok(true)
            }
            Ok(None) => Ok(false),
            Err(cause) => Err(text_error(number, cause)),
        }
    }
}
