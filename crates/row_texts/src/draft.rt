//! What is read of a locking table so far.

ghost use Rattle.std.specs.Prelude.{◌≡◌};
ghost use Rattle.row_texts.specs.Drafts.{is_beside, is_start, start_draft};

use locking_table::{Conds, Row, RowKind};
use std::alloc::Global;
use std::marker::Model;

/// The number of a row for which none stands.
pub(crate) const NO_NUMBER: u32 = 10_000;

/// What an item says before its levers.
#[derive(Clone, Copy, Debug, PartialEq, Eq)]
pub struct Head {
    /// The lever of the line.
    pub lever: u32,
    /// The number of its rows, 1 to 9999; 10000 where none stands.
    pub number: u32,
    pub kind: RowKind,
}

/// What stood last in the line.
#[derive(Clone, Copy, Debug, PartialEq, Eq)]
pub enum Place {
    /// Nothing yet.
    Start,
    /// The number of the line's lever, behind which a colon is wanted.
    Named(u32),
    /// The colon, or the end of an item: one may begin.
    Line(u32),
    /// The number of an item's rows.
    Numbered(u32, u32),
    /// What an item says of its levers, or one of these.
    Levers(Head),
    /// `when` or `and`.
    When(Head),
    /// The lever of a condition.
    Cond(Head, u32),
    /// A condition.
    Behind(Head),
    /// What isn't read: up to the line's end.
    Beside,
}

/// A row that was read.
#[derive(Debug, Drop)]
pub struct Entry {
    pub row: Row,
    /// Its number, 1 to 9999; 10000 where none stood.
    pub number: u32,
}

/// What is read of a locking table so far.
#[derive(Debug, Drop)]
pub struct Draft {
    pub(crate) place: Place,
    /// The levers of an item.
    pub(crate) levers: Vec<u32>,
    /// The conditions of an item.
    pub(crate) when: Conds,
    /// The rows, in the order of the text.
    pub(crate) entries: Vec<Entry>,
}

impl Model for Draft {
    ghost use Rattle.row_texts.specs.Drafts.{DraftFields};

    ghost Value = { DraftFields };

    ghost view = { λ d. record {
      place = d.place;
      levers = d.levers.items;
      when = d.when;
      entries = d.entries.items;
    } };
}

impl Draft {
    /// Nothing is read.
    pub(crate) fn new(alloc: Global) -> Draft
        ensures { result ≡ start_draft }
    {
        Draft {
            place: Place::Start,
            levers: Vec::new(alloc),
            when: Conds::none(),
            entries: Vec::new(alloc),
        }
    }

    /// Whether what stands here isn't read.
    pub(crate) fn is_beside(&self) -> bool
        ensures { result ≡ is_beside self.now.place }
    {
        match self.place {
            Place::Beside => true,
            _ => false,
        }
    }

    /// Whether nothing stood in the line.
    pub(crate) fn is_start(&self) -> bool
        ensures { result ≡ is_start self.now.place }
    {
        match self.place {
            Place::Start => true,
            _ => false,
        }
    }
}
