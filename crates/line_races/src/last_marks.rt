//! The last entries that left marks.

ghost use Rattle.std.specs.Prelude.{◌≡◌, OnOk, None};
ghost use Rattle.line_races.specs.Keys.{Key, IsLeft, position_at, position_found};

use crate::keys::Key;
use rail_text::NoMemory;
use std::alloc::Global;
use std::collections::HashMap;

/// For the key of each mark, the position of the last entry that left it.
#[derive(Drop)]
pub struct LastMarks {
    pub positions: HashMap<Key, usize>,
}

impl LastMarks {
    /// No mark is left.
    pub fn new(alloc: Global) -> LastMarks
        ensures { (q : Key) → position_at result.positions q ≡ None }
    {
        LastMarks {
            positions: HashMap::new(alloc),
        }
    }

    /// The position of the last entry that left the mark of a key, if there is one.
    pub fn last(&self, key: Option<Key>) -> Option<usize>
        ensures { result ≡ position_found self.now.positions key }
    {
        self.positions.get(&key?).copied()
    }

    /// An entry leaves the mark of a key, if there is one.
    pub fn leave(&mut self, key: Option<Key>, position: usize) -> Result<(), NoMemory>
        ensures { OnOk result (IsLeft key position self.old.positions self.new.positions) }
    {
        if let Some(key) = key {
            self.positions.insert(key, position)?;
        }
        Ok(())
    }
}
