//! The trains on the plain line of a section.

ghost use Rattle.std.specs.Prelude.{◌≡◌, ◌==◌, ◌<◌, ◌++◌, ◌∷◌, [], length, slice_get, drop};
ghost use Rattle.line_law.specs.Trains.{holds};

use crate::state::Passage;
use std::marker::Model;

/// The trains on a plain line in the order in which they entered, at most four. Contracts see it as their list; it
/// takes no memory.
#[derive(Debug, Drop)]
pub struct PlainLine {
    lanes: [Passage; 4],
    count: usize,
}

impl Model for PlainLine {
    ghost use Rattle.std.specs.Prelude.{List, take, ◌≤◌};
    ghost use Rattle.line_law.specs.declared.state.Passage.{Passage};

    ghost Value = { List Passage };

    ghost view = { λ line. take line.count line.lanes };

    ghost invariant = { λ line. line.count ≤ 4 };
}

impl PlainLine {
    /// A plain line without trains.
    pub fn empty() -> PlainLine
        ensures { result ≡ [] }
    {
        let nothing = Passage {
            number: 0,
            train: 0,
        };
        PlainLine {
            lanes: [nothing; 4],
            count: 0,
        }
    }

    /// How many trains there are.
    pub fn len(&self) -> usize
        ensures { result ≡ length self.now }
    {
        self.lanes[..self.count].len()
    }

    /// Whether there are none.
    pub fn is_empty(&self) -> bool
        ensures { result ≡ (length self.now == 0) }
    {
        self.len() == 0
    }

    /// The first train, if there is one.
    pub fn first(&self) -> Option<Passage>
        ensures { result ≡ slice_get self.now 0 }
    {
        if self.count == 0 {
            None
        } else {
            Some(self.lanes[0])
        }
    }

    /// The train that is so far behind the first one, if there is one.
    pub fn get(&self, behind: usize) -> Option<Passage>
        ensures { result ≡ slice_get self.now behind }
    {
        self.lanes[..self.count].get(behind).copied()
    }

    /// Whether the train that entered four before the `k`th is still there.
    pub fn holds(&self, k: u64) -> bool
        ensures { result ≡ holds self.now k }
    {
        let before = k.saturating_sub(4);
        self.lanes[..self.count]
            .iter()
            .any(|passage| passage.number == before)
    }

    /// A train enters behind the others.
    pub fn push(&mut self, passage: Passage)
        requires { length self.old < 4 }
        ensures { self.new ≡ self.old ++ passage ∷ [] }
    {
        self.lanes[self.count] = passage;
        self.count += 1;
    }

    /// The first train leaves.
    pub fn remove_first(&mut self)
        requires { 0 < length self.old }
        ensures { self.new ≡ drop 1 self.old }
    {
        self.lanes[0] = self.lanes[1];
        self.lanes[1] = self.lanes[2];
        self.lanes[2] = self.lanes[3];
        self.count -= 1;
    }
}
