//! The calls on block instruments.

ghost use Rattle.std.specs.Prelude.{◌≡◌, ◌<◌, ◌^◌, Some, length};
ghost use Rattle.block_words.specs.declared.Way.{Way};
ghost use Rattle.line_law.specs.declared.state.BoxState.{BoxState};
ghost use Rattle.line_law.specs.Decisions.{OnBlock, on_pair};
ghost use Rattle.line_law.specs.Instruments.{await_block, clear_refusal, control_refusal, line_turned, turn};
ghost use Rattle.line_law.specs.Instruments.{turn_refusal, turned};
ghost use Rattle.line_law.specs.Lines.{HasRoomOut, IsControlOf};
ghost use Rattle.line_law.specs.Sound.{BerthFits};
ghost use Rattle.line_law.specs.Ways.{of_way};

use crate::call::Reply;
use crate::levers::first_reversed;
use crate::state::{Block, BoxState, Control, Incoming, PairState};
use crate::tracks::{first_standing, train_on};
use block_words::{Position, Way, WelwynState};
use line_plan::Berth;

impl Block {
    /// What a look for a position is answered; nothing changes.
    pub fn look(self, position: Position) -> Reply
        ensures { (here : BoxState)
            → await_block here position self ≡ record { reply = result; here = here; word = self } }
    {
        if self.position == position {
            Reply::Seen { v: self.turns }
        } else {
            Reply::BlockNotYet {
                v: self.turns,
                shown: self.position,
            }
        }
    }
}

impl Incoming {
    // The incoming line after its commutator was turned for the `v`th time.
    fn turned(self, position: Position, v: u64) -> Incoming
        requires { HasRoomOut self.control }
        ensures { result ≡ line_turned self position v }
    {
        let line = Incoming {
            position,
            turns: v,
            ..self
        };
        match position {
            Position::LineClear => Incoming {
                control: self.control.given(),
                ready_at: None,
                ..line
            },
            Position::Normal | Position::TrainOnLine => line,
        }
    }
}

impl BoxState {
    // Whether the control of the line holds Line Clear back, with the tracks on an absolute line.
    fn control_refusal(&self, berth: &Berth, control: Control) -> Option<Reply>
        requires { BerthFits (length self.now.ends) (length self.now.places) berth.now }
        ensures { result ≡ control_refusal control self.now berth.now }
    {
        match control {
            Control::Absolute(state) => {
                if let Some(train) = train_on(self.places.as_slice(), berth.place) {
                    return Some(Reply::TrackOccupied {
                        place: berth.place,
                        train,
                    });
                }
                if let Some(there) = first_standing(
                    self.places.as_slice(),
                    berth.clearing.as_slice(),
                ) {
                    return Some(Reply::TrackOccupied {
                        place: there.place,
                        train: there.train,
                    });
                }
                match state {
                    WelwynState::Ready => None,
                    WelwynState::Given | WelwynState::Berthed => Some(Reply::WelwynHolds { state }),
                }
            }
            Control::Permissive(out) => {
                if out == berth.permissive.unwrap_or(1) {
                    Some(Reply::CountFull {
                        out: u32::from(out),
                    })
                } else {
                    None
                }
            }
        }
    }

    // What Line Clear is refused for beside.
    fn clear_refusal(&self, berth: &Berth, line: Incoming) -> Option<Reply>
        requires { BerthFits (length self.now.ends) (length self.now.places) berth.now }
        ensures { result ≡ clear_refusal self.now berth.now line }
    {
        if line.position != Position::Normal {
            return Some(Reply::NotFromNormal);
        }
        if let Some(lever) = first_reversed(self.ends.as_slice(), berth.homes.as_slice()) {
            return Some(Reply::HomeReversed { lever });
        }
        self.control_refusal(berth, line.control)
    }

    /// What a turn of the commutator of the incoming line with this berth is refused for.
    pub fn turn_refusal(&self, berth: &Berth, way: Way, position: Position) -> Option<Reply>
        requires { BerthFits (length self.now.ends) (length self.now.places) berth.now }
        ensures { result ≡ turn_refusal self.now berth.now (of_way self.now.incoming way) position }
    {
        let line = self.incoming.get(way);
        if line.position == position {
            return Some(Reply::AlreadyThere);
        }
        match position {
            Position::LineClear => self.clear_refusal(berth, line),
            Position::Normal | Position::TrainOnLine => None,
        }
    }

    // Turns the commutator and this instrument.
    fn turn_block(&mut self, block: &mut Block, way: Way, position: Position) -> Reply
        requires few { block.old.turns < 2 ^ 32 }
        requires room { HasRoomOut (of_way self.old.incoming way).control }
        ensures { turned self.old way position block.old
            ≡ record { reply = result; here = self.new; word = block.new } }
    {
        let v = block.turns + 1;
        *block = Block {
            turns: v,
            position,
            spent: false,
        };
        let line = self.incoming.get(way);
        self.incoming.set(way, line.turned(position, v));
        Reply::Turned { v }
    }

    /// Turns the commutator of the incoming line that has this berth, and its instrument.
    pub fn turn(
        &mut self,
        pair: &mut PairState,
        berth: &Berth,
        way: Way,
        position: Position,
    ) -> Reply
        requires berth { BerthFits (length self.old.ends) (length self.old.places) berth.now }
        requires control { IsControlOf (Some berth.now) (of_way self.old.incoming way).control }
        requires few { (way : Way) → (of_way pair.old.blocks way).turns < 2 ^ 32 }
        ensures { on_pair way (turn (Some berth.now) self.old way position) pair.old
            ≡ record { reply = result; here = self.new; word = pair.new } }
    {
        if let Some(reply) = self.turn_refusal(berth, way, position) {
            return reply;
        }
        let mut block = pair.blocks.get(way);
        let reply = self.turn_block(&mut block, way, position);
        pair.blocks.set(way, block);
        reply
    }
}

impl PairState {
    /// What a look for a position on the instrument of a way is answered; nothing changes.
    pub fn look_block(&self, way: Way, position: Position) -> Reply
        ensures { (here : BoxState)
            → on_pair way (OnBlock (await_block here position)) self.now
            ≡ record { reply = result; here = here; word = self.now } }
    {
        self.blocks.get(way).look(position)
    }
}
