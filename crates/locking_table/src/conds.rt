//! The conditions of a row.

ghost use Rattle.std.specs.Prelude.{◌≡◌, ◌≤◌, ◌∷◌, [], length};

use crate::row::Cond;
use std::marker::Model;

// The conditions as they are kept.
#[derive(Clone, Copy, Debug)]
enum Kept {
    None,
    One([Cond; 1]),
    Both([Cond; 2]),
}

/// The conditions of a row, which contracts see as a list: it acts always, or where one acts, or where both act. They
/// take no memory beside the row's own.
#[derive(Debug, Drop)]
pub struct Conds {
    kept: Kept,
}

impl Model for Conds {
    ghost use Rattle.std.specs.Prelude.{List};
    ghost use Rattle.locking_table.specs.declared.row.Cond.{Cond};
    ghost use Rattle.locking_table.specs.Spelled.{conds_kept};

    ghost Value = { List Cond };

    ghost view = { λ c. conds_kept c.kept };
}

impl Conds {
    /// No condition.
    pub fn none() -> Conds
        ensures { result ≡ [] }
    {
        Conds { kept: Kept::None }
    }

    /// One condition.
    pub fn one(cond: Cond) -> Conds
        ensures { result ≡ cond ∷ [] }
    {
        Conds {
            kept: Kept::One([cond]),
        }
    }

    /// Two conditions, in the order of the row's text.
    pub fn both(first: Cond, second: Cond) -> Conds
        ensures { result ≡ first ∷ second ∷ [] }
    {
        Conds {
            kept: Kept::Both([first, second]),
        }
    }

    /// The same conditions again.
    pub fn copied(&self) -> Conds
        ensures { result ≡ self.now }
    {
        Conds { kept: self.kept }
    }

    /// The conditions as a slice.
    pub fn as_slice(&self) -> &[Cond]
        ensures same { result.now ≡ self.now }
        ensures few { length self.now ≤ 2 }
    {
        match &self.kept {
            Kept::None => &[],
            Kept::One(conds) => conds,
            Kept::Both(conds) => conds,
        }
    }
}

impl PartialEq for Conds {
    ghost use Rattle.std.specs.Cmp.Lexicographic.{lists_per, pointwise};
    ghost use Rattle.locking_table.specs.contracts.row.CondPartialEq.TheImpl.{ghosts as cond_ghosts};
    ghost use Rattle.locking_table.specs.contracts.row.CondPartialEq.TheImpl.Laws.{laws-law};

    ghost eq = { pointwise cond_ghosts.eq };

    ghost laws = { lists_per laws-law };

    fn eq(&self, other: &Conds) -> bool {
        self.as_slice() == other.as_slice()
    }
}

impl Eq for Conds {
    ghost use Rattle.std.specs.Cmp.Lexicographic.{lists_equiv};
    ghost use Rattle.locking_table.specs.contracts.row.CondEq.TheImpl.Laws.{laws-law};

    ghost laws = { lists_equiv laws-law };
}
