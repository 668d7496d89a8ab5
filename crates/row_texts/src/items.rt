//! The words of an item, one after another.

ghost use Rattle.std.specs.Prelude.{◌≡◌, Err};
ghost use Rattle.row_texts.specs.Drafts.{Gives};
ghost use Rattle.row_texts.specs.Items.{begun, conditioned, end_of, ended_by, has_lever, is_one, kind_of, labelled};
ghost use Rattle.row_texts.specs.Items.{lever_or_when, named, number_up_to, object, one_more, row_number_of, with_cond};
ghost use Rattle.row_texts.specs.Items.{with_word};

use crate::cause::{RowsCause, WordFault};
use crate::draft::{Draft, Head, NO_NUMBER, Place};
use locking_table::{Cond, Conds, End, MOST_LEVERS, RowKind};
use rail_text::read_number;

// A number from 1 to the most.
fn number_up_to(word: &[u8], most: u32) -> Option<u32>
    ensures { result ≡ number_up_to most word.now }
{
    match read_number(word) {
        Some(n) => {
            if 1 <= n && n <= u64::from(most) {
                Some(n as u32)
            } else {
                None
            }
        }
        None => None,
    }
}

fn kind_of(word: &[u8]) -> Option<RowKind>
    ensures { result ≡ kind_of word.now }
{
    if word == b"rel".as_slice() {
        Some(RowKind::ReleasedBy)
    } else if word == b"locks".as_slice() {
        Some(RowKind::LocksNormal)
    } else if word == b"both".as_slice() {
        Some(RowKind::LocksBoth)
    } else {
        None
    }
}

fn end_of(word: &[u8]) -> Option<End>
    ensures { result ≡ end_of word.now }
{
    if word == b"n".as_slice() {
        Some(End::Normal)
    } else if word == b"r".as_slice() {
        Some(End::Reversed)
    } else if word == b"normal".as_slice() {
        Some(End::Normal)
    } else if word == b"reversed".as_slice() {
        Some(End::Reversed)
    } else {
        None
    }
}

// The number of a row, as `#12`.
fn row_number_of(word: &[u8]) -> Option<u32>
    ensures { result ≡ row_number_of word.now }
{
    match word {
        [] => None,
        [first, digits @ ..] => {
            if *first == b'#' {
                number_up_to(digits, NO_NUMBER - 1)
            } else {
                None
            }
        }
    }
}

// One condition behind those that stand.
fn with_cond(when: &Conds, cond: Cond) -> Conds
    ensures { result ≡ with_cond when.now cond }
{
    match when.as_slice() {
        [] => Conds::one(cond),
        [first, ..] => Conds::both(*first, cond),
    }
}

fn is_one(when: &Conds) -> bool
    ensures { result ≡ is_one when.now }
{
    match when.as_slice() {
        [] => false,
        [_] => true,
        [_, _, ..] => false,
    }
}

fn has_lever(levers: &[u32]) -> bool
    ensures { result ≡ has_lever levers.now }
{
    match levers {
        [] => false,
        [_, ..] => true,
    }
}

fn refused(cause: RowsCause) -> Result<(), WordFault>
    ensures { result ≡ Err (WordFault.Cause cause) }
{
    Err(WordFault::Cause(cause))
}

impl Draft {
    // The line's lever.
    fn name(&mut self, lever: Option<u32>) -> Result<(), WordFault>
        ensures { Gives (λ draft. named draft lever) self.old result self.new }
    {
        match lever {
            None => refused(RowsCause::NoLever),
            Some(lever) => {
                self.place = Place::Named(lever);
                Ok(())
            }
        }
    }

    // What the item says of its levers.
    fn begin(&mut self, lever: u32, number: u32, kind: Option<RowKind>) -> Result<(), WordFault>
        ensures { Gives (λ draft. begun draft lever number kind) self.old result self.new }
    {
        match kind {
            None => refused(RowsCause::NoVerb),
            Some(kind) => {
                self.place = Place::Levers(Head {
                    lever,
                    number,
                    kind,
                });
                Ok(())
            }
        }
    }

    // The number of its rows, or what it says at once.
    fn label(&mut self, lever: u32, word: &[u8], number: Option<u32>) -> Result<(), WordFault>
        ensures { Gives (λ draft. labelled draft lever word.now number) self.old result self.new }
    {
        match number {
            None => self.begin(lever, NO_NUMBER, kind_of(word)),
            Some(number) => {
                self.place = Place::Numbered(lever, number);
                Ok(())
            }
        }
    }

    // One of its levers.
    fn add_lever(&mut self, lever: Option<u32>) -> Result<(), WordFault>
        ensures { Gives (λ draft. object draft lever) self.old result self.new }
    {
        match lever {
            None => refused(RowsCause::NoObject),
            Some(lever) => {
                self.levers.push(lever)?;
                Ok(())
            }
        }
    }

    // One of its levers, or `when` behind one at least.
    fn add_lever_or_when(&mut self, head: Head, word: &[u8]) -> Result<(), WordFault>
        ensures { Gives (λ draft. lever_or_when draft head word.now) self.old result self.new }
    {
        if has_lever(&self.levers) && word == b"when".as_slice() {
            self.place = Place::When(head);
            Ok(())
        } else {
            self.add_lever(number_up_to(word, MOST_LEVERS))
        }
    }

    // The lever of a condition.
    fn condition(&mut self, head: Head, lever: Option<u32>) -> Result<(), WordFault>
        ensures { Gives (λ draft. conditioned draft head lever) self.old result self.new }
    {
        match lever {
            None => refused(RowsCause::NoCondition),
            Some(lever) => {
                self.place = Place::Cond(head, lever);
                Ok(())
            }
        }
    }

    // The end of a condition.
    fn end_condition(&mut self, head: Head, lever: u32, end: Option<End>) -> Result<(), WordFault>
        ensures { Gives (λ draft. ended_by draft head lever end) self.old result self.new }
    {
        match end {
            None => refused(RowsCause::NoEnd),
            Some(end) => {
                self.when = with_cond(&self.when, Cond { lever, end });
                self.place = Place::Behind(head);
                Ok(())
            }
        }
    }

    // `and` behind the first condition.
    fn add_and(&mut self, head: Head, word: &[u8]) -> Result<(), WordFault>
        ensures { Gives (λ draft. one_more draft head word.now) self.old result self.new }
    {
        if is_one(&self.when) && word == b"and".as_slice() {
            self.place = Place::When(head);
            Ok(())
        } else {
            refused(RowsCause::NoMore)
        }
    }

    /// Takes a word behind what stood last.
    pub(crate) fn take_word(&mut self, word: &[u8]) -> Result<(), WordFault>
        ensures { Gives (with_word word.now) self.old result self.new }
    {
        match self.place {
            Place::Start => self.name(number_up_to(word, MOST_LEVERS)),
            Place::Named(_) => refused(RowsCause::Colon),
            Place::Line(lever) => self.label(lever, word, row_number_of(word)),
            Place::Numbered(lever, number) => self.begin(lever, number, kind_of(word)),
            Place::Levers(head) => self.add_lever_or_when(head, word),
            Place::When(head) => self.condition(head, number_up_to(word, MOST_LEVERS)),
            Place::Cond(head, lever) => self.end_condition(head, lever, end_of(word)),
            Place::Behind(head) => self.add_and(head, word),
            Place::Beside => Ok(()),
        }
    }
}
