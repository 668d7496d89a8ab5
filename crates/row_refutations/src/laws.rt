//! What it is for rows to refute something.

ghost use Rattle.std.specs.Prelude.{ℕ, All, List, length};
ghost use Rattle.locking_table.specs.declared.places.End.{End};
ghost use Rattle.locking_table.specs.declared.row.Row.{Row};
ghost use Rattle.locking_table.specs.Sound.{RowFits};
ghost use Rattle.frame_walk.specs.States.{IsReachable};
ghost use Rattle.frame_findings.specs.Findings.{AreReversed};
ghost use Rattle.row_refutations.specs.Refuted.{AreRefuting, HoldIn};

/// A law: the rows of a table hold in every state that can be reached. So levers that some of the rows refute are
/// reversed together in none.
#[tactic(auto, using(crate::proofs::Reached::hold_in, crate::proofs::Reached::never_so))]
pub fn refuted_law()
    ensures hold { (rows : List Row) (levers : ℕ) (state : List End) → All (RowFits levers) rows
        → IsReachable rows levers state → HoldIn rows state }
    ensures never { (rows : List Row) (levers : ℕ) (reversed places : List ℕ) (state : List End)
        → All (RowFits levers) rows → AreRefuting rows reversed places → IsReachable rows levers state
        → ¬ AreReversed reversed state }
{}
