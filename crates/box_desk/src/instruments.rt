//! The calls on block instruments.

ghost use Rattle.std.specs.Prelude.{◌≡◌, ◌<◌, ◌%◌, ◌^◌, ◌∷◌, All, length};
ghost use Rattle.locking_table.specs.Places.{IsLever};
ghost use Rattle.line_plan.specs.Frames.{BoxFields};
ghost use Rattle.line_law.specs.declared.link.Link.TheVariants.{In};
ghost use Rattle.line_law.specs.declared.state.Block.{Block};
ghost use Rattle.line_law.specs.Instruments.{await_block, clear_refusal, clearing_refusal, control_refusal};
ghost use Rattle.line_law.specs.Instruments.{turn_refusal, turned};
ghost use Rattle.line_law.specs.LeverEnds.{first_reversed};
ghost use Rattle.line_law.specs.Sound.{BerthFits};
ghost use Rattle.line_law.specs.Tracks.{first_standing};
ghost use Rattle.line_law.specs.Ways.{of_way};
ghost use Rattle.word_laws.specs.WordNumbers.{BlockAgrees, block_number};
ghost use Rattle.box_desk.specs.Boxes.{IsFitted, here_of};
ghost use Rattle.box_desk.specs.IncomingLines.{LetsTurn, Suits, control_of, incoming_of};
ghost use Rattle.box_desk.specs.Steps.{IsTold};

use crate::equipment::Equipment;
use crate::incoming::{IncomingLine, LineControl};
use crate::words::block_of;
use block_words::{Position, Way};
use line_law::Reply;
use line_plan::Berth;
use locking_table::End;
use train_moves::first_standing;

impl Equipment {
    // The first of these levers that is reversed.
    fn first_reversed(&self, levers: &[u32]) -> Option<u32>
        requires { All (IsLever (length self.now.frame.ends)) levers.now }
        ensures { result ≡ first_reversed self.now.frame.ends levers.now }
    {
        for lever in levers {
            if self.frame.end(*lever) == End::Reversed {
                return Some(*lever);
            }
        }
        None
    }

    // A train on the berth or on a clearing place.
    #[tactic(auto, using(crate::proofs::Standings::first_is))]
    fn clearing_refusal(&self, berth: &Berth) -> Option<Reply>
        requires { BerthFits (length self.now.frame.ends) (length self.now.tracks) berth.now }
        ensures { result
            ≡ clearing_refusal (first_standing self.now.tracks (berth.now.place ∷ berth.now.clearing)) }
    {
        if let Some(train) = self.tracks.occupant(berth.place) {
            return Some(Reply::TrackOccupied {
                place: berth.place,
                train,
            });
        }
        match first_standing(&self.tracks, berth.clearing.as_slice()) {
            Some(there) => Some(Reply::TrackOccupied {
                place: there.place,
                train: there.train,
            }),
            None => None,
        }
    }

    // Whether the control of the line holds Line Clear back, with the tracks on an absolute line.
    fn control_refusal(&self, berth: &Berth, control: LineControl) -> Option<Reply>
        requires berth { BerthFits (length self.now.frame.ends) (length self.now.tracks) berth.now }
        requires suits { Suits berth.now.permissive control }
        ensures { result ≡ control_refusal (control_of control) (here_of self.now) berth.now }
    {
        match control {
            LineControl::Absolute(welwyn) => {
                let refusal = self.clearing_refusal(berth);
                if refusal.is_some() || welwyn.may_give() {
                    return refusal;
                }
                Some(Reply::WelwynHolds {
                    state: welwyn.state(),
                })
            }
            LineControl::Permissive(permit) => {
                if permit.may_give() {
                    return None;
                }
                Some(Reply::CountFull {
                    out: u32::from(permit.out()),
                })
            }
        }
    }

    // What Line Clear is refused for beside.
    fn clear_refusal(&self, berth: &Berth, line: IncomingLine) -> Option<Reply>
        requires berth { BerthFits (length self.now.frame.ends) (length self.now.tracks) berth.now }
        requires suits { Suits berth.now.permissive line.control }
        ensures { result ≡ clear_refusal (here_of self.now) berth.now (incoming_of line) }
    {
        if line.position != Position::Normal {
            return Some(Reply::NotFromNormal);
        }
        if let Some(lever) = self.first_reversed(berth.homes.as_slice()) {
            return Some(Reply::HomeReversed { lever });
        }
        self.control_refusal(berth, line.control)
    }

    /// What a turn of the commutator of the incoming line with this berth is refused for.
    pub(crate) fn turn_refusal(&self, berth: &Berth, way: Way, position: Position) -> Option<Reply>
        requires berth { BerthFits (length self.now.frame.ends) (length self.now.tracks) berth.now }
        requires suits { Suits berth.now.permissive (of_way self.now.lines way).control }
        ensures { result
            ≡ turn_refusal (here_of self.now) berth.now (of_way (here_of self.now).incoming way) position }
    {
        let line = self.lines.get(way);
        if line.position == position {
            return Some(Reply::AlreadyThere);
        }
        match position {
            Position::LineClear => self.clear_refusal(berth, line),
            Position::Normal | Position::TrainOnLine => None,
        }
    }

    /// Turns the commutator of an incoming line.
    pub(crate) fn turn(&mut self, way: Way, position: Position) -> Reply
        requires few { (of_way self.old.lines way).turns < 2 ^ 32 }
        requires free { LetsTurn position (of_way self.old.lines way).control }
        ensures told { (block : Block) → BlockAgrees (In way) (here_of self.old) block
            → IsTold Block (turned (here_of self.old) way position block) result (here_of self.new) }
        ensures fitted { (box_plan : BoxFields) → IsFitted box_plan self.old → IsFitted box_plan self.new }
    {
        let mut line = self.lines.get(way);
        line.turn(position);
        self.lines.set(way, line);
        Reply::Turned { v: line.turns }
    }

    /// What a look for a position is answered.
    pub(crate) fn await_block(&self, position: Position, word: u64) -> Reply
        requires { word % 4 < 3 }
        ensures told { (block : Block) → block_number block ≡ word
            → IsTold Block (await_block (here_of self.now) position block) result (here_of self.now) }
    {
        block_of(word).look(position)
    }
}
