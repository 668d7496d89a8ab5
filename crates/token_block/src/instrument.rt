//! What a man knows at his own token instrument.
ghost use Rattle.std.specs.Prelude.{◌≡◌, ◌+◌, ◌<◌, ◌≢◌, ◌^◌, None};
ghost use Rattle.token_law.specs.declared.calls.TokenReply.TheVariants as replies;
ghost use Rattle.token_block.specs.Men.{hand_then, tokens_then};
ghost use Rattle.token_block.specs.Steps.{op_of};

use crate::words::TokenOp;
use token_law::{Shown, TokenAct, TokenReply};

/// The tokens in a man's instrument, the train whose token is held at his box, and how many calls he has made.
#[derive(Drop)]
pub struct Instrument {
    pub tokens: u32,
    pub hand: Option<u16>,
    pub calls: u32,
}

impl Instrument {
    /// The operation that a call of his takes first.
    pub fn operation(&self, box_no: u32, act: TokenAct) -> TokenOp
        requires { box_no < 2 }
        ensures { result ≡ op_of box_no act self.now.tokens self.now.hand None }
    {
        let other = 1 - box_no;
        match act {
            TokenAct::Give => TokenOp::Change {
                from: Shown::Idle,
                to: Shown::Leave { to: other },
            },
            TokenAct::Withdraw => TokenOp::Change {
                from: Shown::Leave { to: other },
                to: Shown::Idle,
            },
            TokenAct::Draw { .. } if self.tokens == 0 => TokenOp::Count,
            TokenAct::Draw { train } => TokenOp::Change {
                from: Shown::Leave { to: box_no },
                to: Shown::Held { at: box_no, train },
            },
            TokenAct::Depart => match self.hand {
                None => TokenOp::Count,
                Some(train) => TokenOp::Move {
                    to: Shown::OnLine { to: other, train },
                },
            },
            TokenAct::Replace => match self.hand {
                None => TokenOp::Count,
                Some(_) => TokenOp::Move { to: Shown::Idle },
            },
            TokenAct::Arrive | TokenAct::Look => TokenOp::Look,
        }
    }

    /// Notes what a call of his was replied.
    pub fn note(&mut self, act: TokenAct, reply: TokenReply)
        requires calls { self.old.calls < 4000000000 }
        requires tokens { self.old.tokens < 2 ^ 31 }
        requires some { reply ≡ replies.Drawn → 0 < self.old.tokens }
        ensures tokens { self.new.tokens ≡ tokens_then reply self.old.tokens }
        ensures hand { self.new.hand ≡ hand_then act reply self.old.hand }
        ensures calls { self.new.calls ≡ self.old.calls + 1 }
    {
        self.calls += 1;
        match reply {
            TokenReply::Drawn => {
                self.tokens -= 1;
                if let TokenAct::Draw { train } = act {
                    self.hand = Some(train);
                }
            }
            TokenReply::Arrived { train } => self.hand = Some(train),
            TokenReply::Departed { .. } => self.hand = None,
            TokenReply::Replaced { .. } => {
                self.tokens += 1;
                self.hand = None;
            }
            _ => {}
        }
    }
}
