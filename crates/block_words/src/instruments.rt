//! The word of a block instrument: how often it was turned, whether its Line Clear is spent, and what it shows.
ghost use Rattle.std.specs.Prelude.{◌≡◌, ℕ, ◌<◌, ◌^◌, ◌%◌, Bool, true};
ghost use Rattle.block_words.specs.declared.Way.{Way};
ghost use Rattle.block_words.specs.declared.Position.{Position};
ghost use Rattle.block_words.specs.declared.WordOp.TheVariants.{Turn, Pull, LookBlock};
ghost use Rattle.block_words.specs.Instruments.{
  block_position,
  block_spent,
  block_turns,
  block_word,
  position_code,
};
ghost use Rattle.block_words.specs.Operations.{word_after};

use crate::Position;

/// The bit that marks an instrument's Line Clear as spent: a starter is pulled by `or` with it.
pub const SPENT_BIT: u64 = 4;

fn position_code(position: Position) -> u64
    ensures { result ≡ position_code position }
{
    match position {
        Position::Normal => 0,
        Position::LineClear => 1,
        Position::TrainOnLine => 2,
    }
}

/// The word of an instrument that was turned `v` times, stands at `position`, and has one pull of the starter
/// behind it where it is spent.
pub fn block_word(v: u64, spent: bool, position: Position) -> u64
    requires { v < 2 ^ 61 }
    ensures word { result ≡ block_word v spent position }
    ensures turns { block_turns result ≡ v }
    ensures pulled { block_spent result ≡ spent }
    ensures shown { block_position result ≡ position }
{
    let mark = if spent { SPENT_BIT } else { 0 };
    8 * v + mark + position_code(position)
}

/// How often the instrument of this word was turned.
pub fn block_turns(w: u64) -> u64
    ensures turns { result ≡ block_turns w }
    ensures packed { w % 4 < 3 → block_word result (block_spent w) (block_position w) ≡ w }
{
    w / 8
}

/// Whether the Line Clear of this word's instrument is spent.
pub fn block_spent(w: u64) -> bool
    ensures pulled { result ≡ block_spent w }
    ensures packed { w % 4 < 3 → block_word (block_turns w) result (block_position w) ≡ w }
{
    w & SPENT_BIT != 0
}

/// What the instrument of this word shows.
pub fn block_position(w: u64) -> Position
    requires { w % 4 < 3 }
    ensures shown { result ≡ block_position w }
    ensures packed { block_word (block_turns w) (block_spent w) result ≡ w }
{
    match w % 4 {
        0 => Position::Normal,
        1 => Position::LineClear,
        _ => Position::TrainOnLine,
    }
}

/// Unpacking an instrument's word finds its turn count, its mark and its position again, and together they make the
/// word. And what the operations make of it: a turn replaces any word, a pull marks it as spent and changes nothing
/// else, a look changes nothing.
pub fn instruments_law()
    ensures turns { (v : ℕ) (spent : Bool) (position : Position) →
        block_turns (block_word v spent position) ≡ v }
    ensures pulled { (v : ℕ) (spent : Bool) (position : Position) →
        block_spent (block_word v spent position) ≡ spent }
    ensures shown { (v : ℕ) (spent : Bool) (position : Position) →
        block_position (block_word v spent position) ≡ position }
    ensures packed { (w : ℕ) → w % 4 < 3 →
        block_word (block_turns w) (block_spent w) (block_position w) ≡ w }
    ensures turned { (way : Way) (new w : ℕ) → word_after (Turn way new) w ≡ new }
    ensures spent { (way : Way) (v : ℕ) (spent : Bool) (position : Position) →
        word_after (Pull way) (block_word v spent position) ≡ block_word v true position }
    ensures seen { (way : Way) (w : ℕ) → word_after (LookBlock way) w ≡ w }
{}
