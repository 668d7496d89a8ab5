//! What a word of a bell or of an instrument holds.

ghost use Rattle.std.specs.Prelude.{◌≡◌, ◌<◌, ◌%◌, IfSome};
ghost use Rattle.line_law.specs.declared.state.Bell.{Bell};
ghost use Rattle.line_law.specs.declared.state.Block.{Block};
ghost use Rattle.block_words.specs.Bells.{bell_count};
ghost use Rattle.block_words.specs.Instruments.{block_turns};
ghost use Rattle.word_laws.specs.WordNumbers.{IsCodeNo, bell_number, block_number};

use block_words::{bell_code, bell_count, block_position, block_spent, block_turns};
use line_law::{Bell, Block};

/// The bell whose number a word is.
pub(crate) fn bell_of(word: u64) -> Bell
    ensures bell { (bell : Bell) → IfSome bell.unheard IsCodeNo → bell_number bell ≡ word → bell ≡ result }
    ensures count { result.count ≡ bell_count word }
{
    let code = bell_code(word);
    Bell {
        count: bell_count(word),
        unheard: if code == 0 { None } else { Some(code) },
    }
}

/// The instrument whose number a word is.
pub(crate) fn block_of(word: u64) -> Block
    requires { word % 4 < 3 }
    ensures block { (block : Block) → block_number block ≡ word → block ≡ result }
    ensures turns { result.turns ≡ block_turns word }
{
    Block {
        turns: block_turns(word),
        position: block_position(word),
        spent: block_spent(word),
    }
}
