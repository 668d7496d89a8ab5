//! Which entries of a list may keep others back, the first of them on top.

ghost use Rattle.std.specs.Prelude.{◌≡◌, ◌++◌, ◌∷◌, [], OnErr, OnOk};
ghost use Rattle.line_journal.specs.Keepers.{AreCut, IsTop};

use rail_text::NoMemory;
use std::alloc::Global;
use std::marker::Model;

/// An entry of a list that may keep others back.
#[derive(Clone, Copy)]
pub struct Keeper {
    /// How many entries are left from it on.
    pub rest: usize,
    /// The count that its reply tells: of codes rung, of turns, or of trains sent or taken.
    pub count: u64,
}

/// Some of these of one list; on top stands the first of them. Contracts see them, the first at the end.
#[derive(Drop)]
pub struct Keepers {
    list: Vec<Keeper>,
}

impl Model for Keepers {
    ghost use Rattle.std.specs.Prelude.{List};
    ghost use Rattle.line_journal.specs.declared.keeper.Keeper.{Keeper};

    ghost Value = { List Keeper };

    ghost view = { λ keepers. keepers.list.items };
}

impl Keepers {
    /// Of no entry.
    pub fn new(alloc: Global) -> Keepers
        ensures { result ≡ [] }
    {
        Keepers {
            list: Vec::new(alloc),
        }
    }

    /// Adds one more, on top.
    pub fn add(&mut self, keeper: Keeper) -> Result<(), NoMemory>
        ensures ok { OnOk result (self.new ≡ self.old ++ keeper ∷ []) }
        ensures err { OnErr result (self.new ≡ self.old) }
    {
        self.list.push(keeper)?;
        Ok(())
    }

    /// Takes those off the top that have more entries left than so many, and tells which is on top then, if any is.
    pub fn cut(&mut self, most: usize) -> Option<Keeper>
        ensures cut { AreCut most self.old self.new }
        ensures top { IsTop most self.new result }
    {
        while let Some(keeper) = self.list.last().copied() {
            if keeper.rest <= most {
                return Some(keeper);
            }
            let _keeper = self.list.pop();
        }
        None
    }
}
