//! The tally of a box: the number of its calls that concern the box alone.
ghost use Rattle.std.specs.Prelude.{◌≡◌, ℕ, ◌+◌, ◌<◌, ◌^◌};
ghost use Rattle.block_words.specs.declared.WordOp.TheVariants.{Local};
ghost use Rattle.block_words.specs.Operations.{word_after};

/// What a call of the box alone makes of its tally: it rises by 1.
pub fn tallies_law()
    ensures counted { (w : ℕ) → w + 1 < 2 ^ 64 → word_after Local w ≡ w + 1 }
{}
