//! What it is for two rows to hold as much as another one.

ghost use Rattle.std.specs.Prelude.{◌≡◌, ◌<◌, ℕ, length, true};
ghost use Rattle.frame_walk.specs.Walked.{IsWalked, Walked};
ghost use Rattle.row_covers.specs.Pairs.{IsPair};
ghost use Rattle.row_findings.specs.Redundant.{IsRedundant};

/// A law: where two other rows together hold, in every state that can be reached, all that a row holds, this row is
/// redundant.
pub fn pair_law()
    ensures { (walked : Walked) (at one two : ℕ) → IsWalked walked → walked.whole ≡ true
        → at < length walked.rows → one < length walked.rows → two < length walked.rows
        → IsPair walked at one two → IsRedundant walked.rows walked.levers at }
{}
