//! What ends a word, and what it does.

ghost use Rattle.std.specs.Prelude.{◌≡◌};
ghost use Rattle.row_texts.specs.Drafts.{Gives};
ghost use Rattle.row_texts.specs.Marks.{colon, ended, ended_to, ends_word, item_ended, marked, row_by, rows_onto};
ghost use Rattle.row_texts.specs.Marks.{semicolon, some_ended};

use crate::cause::{RowsCause, WordFault};
use crate::draft::{Draft, Entry, Head, Place};
use locking_table::{Conds, Row};

/// Whether a byte ends a word.
pub(crate) fn ends_word(byte: u8) -> bool
    ensures { result ≡ ends_word byte }
{
    matches!(
        byte,
        b'\n' | b'\t' | b'\r' | b' ' | b',' | b';' | b':' | b'|'
    )
}

// The row that an item has of one of its levers.
fn row_by(head: Head, when: &Conds, lever: u32) -> Row
    ensures { result ≡ row_by head when.now lever }
{
    Row {
        subject: head.lever,
        kind: head.kind,
        object: lever,
        when: when.copied(),
    }
}

// Puts the item's rows behind others.
fn put_rows(
    entries: &mut Vec<Entry>,
    head: Head,
    when: &Conds,
    levers: &[u32],
) -> Result<(), WordFault>
    ensures { Gives (λ old. rows_onto head when.now old levers.now) entries.old.items result entries.new.items }
{
    for lever in levers {
        let row = row_by(head, when, *lever);
        if !row.levers_differ() {
            return Err(WordFault::Cause(RowsCause::SameLever));
        }
        entries.push(Entry {
            row,
            number: head.number,
        })?;
    }
    Ok(())
}

impl Draft {
    // The item has ended.
    fn end_item(&mut self, head: Head) -> Result<(), WordFault>
        ensures { Gives (item_ended head) self.old result self.new }
    {
        put_rows(&mut self.entries, head, &self.when, &self.levers)?;
        self.levers.clear();
        self.when = Conds::none();
        self.place = Place::Line(head.lever);
        Ok(())
    }

    // The same of an item that has a lever at least.
    fn end_some(&mut self, head: Head) -> Result<(), WordFault>
        ensures { Gives (some_ended head) self.old result self.new }
    {
        if self.levers.is_empty() {
            Err(WordFault::Cause(RowsCause::CutShort))
        } else {
            self.end_item(head)
        }
    }

    /// Ends what was begun, if anything was.
    pub(crate) fn end(&mut self) -> Result<(), WordFault>
        ensures { Gives ended self.old result self.new }
    {
        match self.place {
            Place::Start => Ok(()),
            Place::Named(_) => Err(WordFault::Cause(RowsCause::Colon)),
            Place::Line(_) => Ok(()),
            Place::Numbered(_, _) => Err(WordFault::Cause(RowsCause::CutShort)),
            Place::Levers(head) => self.end_some(head),
            Place::When(_) => Err(WordFault::Cause(RowsCause::CutShort)),
            Place::Cond(_, _) => Err(WordFault::Cause(RowsCause::CutShort)),
            Place::Behind(head) => self.end_item(head),
            Place::Beside => Ok(()),
        }
    }

    // A line has ended, or what is read of it.
    fn end_to(&mut self, place: Place) -> Result<(), WordFault>
        ensures { Gives (ended_to place) self.old result self.new }
    {
        self.end()?;
        self.place = place;
        Ok(())
    }

    // A semicolon, which stands in the line of a lever.
    fn semicolon(&mut self) -> Result<(), WordFault>
        ensures { Gives semicolon self.old result self.new }
    {
        match self.place {
            Place::Start => Err(WordFault::Cause(RowsCause::NoLever)),
            _ => self.end(),
        }
    }

    // A colon, which stands behind the number of the line's lever.
    fn colon(&mut self) -> Result<(), WordFault>
        ensures { Gives colon self.old result self.new }
    {
        match self.place {
            Place::Named(lever) => {
                self.place = Place::Line(lever);
                Ok(())
            }
            _ => Err(WordFault::Cause(RowsCause::Colon)),
        }
    }

    /// Takes what ended a word.
    pub(crate) fn mark(&mut self, byte: u8) -> Result<(), WordFault>
        ensures { Gives (marked byte) self.old result self.new }
    {
        match byte {
            b'\n' => self.end_to(Place::Start),
            b';' => self.semicolon(),
            b':' => self.colon(),
            b'|' => self.end_to(Place::Beside),
            _ => Ok(()),
        }
    }
}
