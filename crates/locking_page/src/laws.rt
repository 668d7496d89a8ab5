//! What holds of the columns of every page.

ghost use Rattle.std.specs.Prelude.{ℕ};
ghost use Rattle.locking_table.specs.declared.row.Row.{Row};
ghost use Rattle.locking_page.specs.Laws.{StandsInOneColumn};

/// A law: a row stands in one of the three columns, once.
#[tactic(auto, using(crate::proofs::Columns::one_column))]
pub fn column_law()
    ensures { (number : ℕ) (row : Row) → StandsInOneColumn number row }
{}
