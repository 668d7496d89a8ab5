//! The calls on bells, by the word that the deciding operation met.

ghost use Rattle.std.specs.Prelude.{◌≡◌, ◌<◌, ◌^◌, ℕ};
ghost use Rattle.block_words.specs.Bells.{bell_count};
ghost use Rattle.line_plan.specs.Frames.{BoxFields};
ghost use Rattle.line_law.specs.declared.link.Link.TheVariants.{In, Out};
ghost use Rattle.line_law.specs.declared.state.Bell.{Bell};
ghost use Rattle.line_law.specs.Bells.{await_bell, hear, ring};
ghost use Rattle.word_laws.specs.WordNumbers.{BellAgrees, bell_number};
ghost use Rattle.box_desk.specs.Boxes.{IsFitted, here_of};
ghost use Rattle.box_desk.specs.Steps.{IsTold};

use crate::equipment::Equipment;
use crate::words::bell_of;
use bell_codes::CodeNo;
use block_words::Way;
use line_law::Reply;

impl Equipment {
    /// Rings towards a side.
    pub(crate) fn ring(&mut self, side: Way, word: u64) -> Reply
        requires few { bell_count word < 2 ^ 32 }
        ensures told { (code : ℕ) (bell : Bell) → BellAgrees (Out side) (here_of self.old) bell
            → bell_number bell ≡ word → IsTold Bell (ring (here_of self.old) side code bell) result (here_of self.new) }
        ensures fitted { (box_plan : BoxFields) → IsFitted box_plan self.old → IsFitted box_plan self.new }
    {
        let reply = bell_of(word).ring_reply();
        if let Reply::Rung { k } = reply {
            self.rung.set(side, k);
        }
        reply
    }

    /// Hears the bell that is rung that way.
    pub(crate) fn hear(&self, way: Way, word: u64) -> Reply
        ensures told { (bell : Bell) → BellAgrees (In way) (here_of self.now) bell → bell_number bell ≡ word
            → IsTold Bell (hear (here_of self.now) bell) result (here_of self.now) }
    {
        bell_of(word).hear()
    }

    /// Hears it where it shows this code.
    pub(crate) fn await_bell(&self, way: Way, code: CodeNo, word: u64) -> Reply
        ensures told { (bell : Bell) → BellAgrees (In way) (here_of self.now) bell → bell_number bell ≡ word
            → IsTold Bell (await_bell (here_of self.now) code bell) result (here_of self.now) }
    {
        bell_of(word).await_code(code)
    }
}
