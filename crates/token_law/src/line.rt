//! A single line in one hand: both of its instruments, worked one call at a time.

ghost use Rattle.std.specs.Prelude.{◌≡◌, ◌≤◌, ◌<◌, ◌+◌, ◌-◌};
ghost use Rattle.token_law.specs.declared.calls.Shown.TheVariants.{Idle, Held};
ghost use Rattle.token_law.specs.Law.{IsTokenCall, give, withdraw, draw, depart, arrive, replace, token_step};
ghost use Rattle.token_law.specs.States.{all_tokens, most_tokens, opening_tokens, out_by, tokens_at, with_tokens};

use crate::calls::{Shown, TokenAct, TokenCall, TokenReply};
use std::marker::Model;

/// The most tokens in an instrument at the opening.
pub const MOST_TOKENS: u32 = 50;

/// A single line: what both instruments show, and the tokens in each. Contracts see it as its state.
#[derive(Clone, Copy, Debug, PartialEq, Eq)]
pub struct SingleLine {
    shown: Shown,
    at_0: u32,
    at_1: u32,
}

impl Model for SingleLine {
    ghost use Rattle.token_law.specs.States.{IsTokenState, TokenState};

    ghost Value = { TokenState };

    ghost view = { λ line. record { shown = line.shown; at_0 = line.at_0; at_1 = line.at_1 } };

    ghost invariant = { λ line. IsTokenState (record { shown = line.shown; at_0 = line.at_0; at_1 = line.at_1 }) };

    ghost inverse = { λ state. record { shown = state.shown; at_0 = state.at_0; at_1 = state.at_1 } };
}

impl SingleLine {
    /// The line as it opens, idle, with so many tokens at each box, at most `MOST_TOKENS`.
    pub fn open(at_0: u32, at_1: u32) -> SingleLine
        requires few_0 { at_0 ≤ most_tokens }
        requires few_1 { at_1 ≤ most_tokens }
        ensures { result ≡ opening_tokens at_0 at_1 }
    {
        SingleLine {
            shown: Shown::Idle,
            at_0,
            at_1,
        }
    }

    /// What both instruments show.
    pub fn shown(&self) -> Shown
        ensures { result ≡ self.now.shown }
    {
        self.shown
    }

    /// The tokens in the instrument of a box.
    pub fn tokens(&self, box_no: u32) -> u32
        requires { box_no < 2 }
        ensures { result ≡ tokens_at self.now box_no }
    {
        if box_no == 0 { self.at_0 } else { self.at_1 }
    }

    /// The tokens that are out: 1 where one is held or on the line, else 0.
    pub fn out(&self) -> u32
        ensures out { result ≡ out_by self.now.shown }
        ensures one { result ≤ 1 }
    {
        match self.shown {
            Shown::Idle | Shown::Leave { .. } => 0,
            Shown::Held { .. } | Shown::OnLine { .. } => 1,
        }
    }

    /// Performs a call: its reply is the law's, and so is the line after it. A refusal changes nothing.
    /// `TokenCall::may_be_made` tells which calls may be made.
    pub fn perform(&mut self, call: TokenCall) -> TokenReply
        requires { IsTokenCall call }
        ensures { token_step self.old call.box_no call.act ≡ record { reply = result; after = self.new } }
    {
        let box_no = call.box_no;
        match call.act {
            TokenAct::Give => self.give(box_no),
            TokenAct::Withdraw => self.withdraw(box_no),
            TokenAct::Draw { train } => self.draw(box_no, train),
            TokenAct::Depart => self.depart(box_no),
            TokenAct::Arrive => self.arrive(box_no),
            TokenAct::Replace => self.replace(box_no),
            TokenAct::Look => TokenReply::Seen { shown: self.shown },
        }
    }

    // Leave to the other box.
    fn give(&mut self, box_no: u32) -> TokenReply
        requires { box_no < 2 }
        ensures { give box_no self.old self.old.shown ≡ record { reply = result; after = self.new } }
    {
        match self.shown {
            Shown::Idle => {
                self.shown = Shown::Leave { to: 1 - box_no };
                TokenReply::LeaveGiven
            }
            Shown::Leave { to } => TokenReply::LeaveOut { to },
            Shown::Held { train, .. } | Shown::OnLine { train, .. } => TokenReply::TokenOut {
                train,
            },
        }
    }

    // The leave to the other box is taken back.
    fn withdraw(&mut self, box_no: u32) -> TokenReply
        requires { box_no < 2 }
        ensures { withdraw box_no self.old self.old.shown ≡ record { reply = result; after = self.new } }
    {
        match self.shown {
            Shown::Leave { to } if to == 1 - box_no => {
                self.shown = Shown::Idle;
                TokenReply::Withdrawn
            }
            _ => TokenReply::NoLeave,
        }
    }

    // A token is drawn for a train.
    fn draw(&mut self, box_no: u32, train: u16) -> TokenReply
        requires { box_no < 2 }
        ensures { draw box_no train self.old ≡ record { reply = result; after = self.new } }
    {
        if self.tokens(box_no) == 0 {
            return TokenReply::Empty;
        }
        match self.shown {
            Shown::Leave { to } if to == box_no => {
                self.take_token(box_no, train);
                TokenReply::Drawn
            }
            Shown::Idle | Shown::Leave { .. } => TokenReply::NoLeave,
            Shown::Held { train, .. } | Shown::OnLine { train, .. } => TokenReply::TokenOut {
                train,
            },
        }
    }

    // The train that holds a token at the box goes onto the line.
    fn depart(&mut self, box_no: u32) -> TokenReply
        requires { box_no < 2 }
        ensures { depart box_no self.old self.old.shown ≡ record { reply = result; after = self.new } }
    {
        match self.shown {
            Shown::Held { at, train } if at == box_no => {
                self.shown = Shown::OnLine {
                    to: 1 - box_no,
                    train,
                };
                TokenReply::Departed { train }
            }
            _ => TokenReply::NoToken,
        }
    }

    // The train on the line to the box arrives.
    fn arrive(&mut self, box_no: u32) -> TokenReply
        requires { box_no < 2 }
        ensures { arrive box_no self.old self.old.shown ≡ record { reply = result; after = self.new } }
    {
        match self.shown {
            Shown::OnLine { to, train } if to == box_no => {
                self.shown = Shown::Held { at: box_no, train };
                TokenReply::Arrived { train }
            }
            _ => TokenReply::NoTrain,
        }
    }

    // The token that is held at the box is put back.
    fn replace(&mut self, box_no: u32) -> TokenReply
        requires { box_no < 2 }
        ensures { replace box_no self.old self.old.shown ≡ record { reply = result; after = self.new } }
    {
        match self.shown {
            Shown::Held { at, train } if at == box_no => {
                self.put_token(box_no);
                TokenReply::Replaced { train }
            }
            _ => TokenReply::NoToken,
        }
    }

    // A token of the box's instrument goes to a train at that box.
    fn take_token(&mut self, box_no: u32, train: u16)
        requires some { 0 < tokens_at self.old box_no }
        requires none_out { out_by self.old.shown ≡ 0 }
        ensures { self.new
            ≡ with_tokens (record self.old { shown = Held box_no train }) box_no (tokens_at self.old box_no - 1) }
    {
        if box_no == 0 {
            self.at_0 -= 1;
        } else {
            self.at_1 -= 1;
        }
        self.shown = Shown::Held { at: box_no, train };
    }

    // The token that is out goes into the box's instrument.
    fn put_token(&mut self, box_no: u32)
        requires { out_by self.old.shown ≡ 1 }
        ensures { self.new ≡ with_tokens (record self.old { shown = Idle }) box_no (tokens_at self.old box_no + 1) }
    {
        if box_no == 0 {
            self.at_0 += 1;
        } else {
            self.at_1 += 1;
        }
        self.shown = Shown::Idle;
    }
}
