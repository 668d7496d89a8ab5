//! The token word, and the operations of calls on the shared words.
ghost use Rattle.std.specs.Prelude.{◌≡◌, ◌<◌, ◌^◌, None};
ghost use Rattle.token_block.specs.Men.{own_refusal, reply_by};
ghost use Rattle.token_block.specs.Steps.{found_coming};
ghost use Rattle.token_block.specs.Words.{IsShown, token_word};

use token_law::{Shown, TokenAct, TokenReply};

/// An operation on one shared word.
#[derive(Clone, Copy)]
pub enum TokenOp {
    /// A call is counted in the caller's tally.
    Count,
    /// The token word changes, if it shows `from`.
    Change { from: Shown, to: Shown },
    /// The token moves, whatever the token word shows.
    Move { to: Shown },
    /// A look at the token word.
    Look,
}

/// The number of what the instruments show.
pub fn word_of(shown: Shown) -> u64
    ensures { result ≡ token_word shown }
{
    match shown {
        Shown::Idle => 0,
        Shown::Leave { to } => 1 + to as u64,
        Shown::Held { at, train } => 8 * train as u64 + 3 + at as u64,
        Shown::OnLine { to, train } => 8 * train as u64 + 6u64.saturating_sub(to as u64),
    }
}

/// What the instruments show, by the token word.
pub fn shown_by(word: u64) -> Shown
    requires { word < 2 ^ 19 }
    ensures { (shown : Shown) → IsShown shown → word ≡ token_word shown → result ≡ shown }
{
    let train = (word / 8) as u16;
    match (word % 8) as u32 {
        0 => Shown::Idle,
        1 => Shown::Leave { to: 0 },
        2 => Shown::Leave { to: 1 },
        3 => Shown::Held { at: 0, train },
        4 => Shown::Held { at: 1, train },
        5 => Shown::OnLine { to: 1, train },
        _ => Shown::OnLine { to: 0, train },
    }
}

/// The train that the first look of an arrival at a box finds on the line to it.
pub fn coming(box_no: u32, act: TokenAct, shown: Shown) -> Option<u16>
    ensures { result ≡ found_coming box_no act None shown }
{
    match act {
        TokenAct::Arrive => match shown {
            Shown::OnLine { to, train } if to == box_no => Some(train),
            _ => None,
        },
        _ => None,
    }
}

/// The reply of a box whose instrument has a token, by what is shown.
pub fn reply_by(box_no: u32, act: TokenAct, shown: Shown) -> TokenReply
    requires { box_no < 2 }
    ensures { result ≡ reply_by box_no act shown }
{
    match act {
        TokenAct::Give => match shown {
            Shown::Idle => TokenReply::LeaveGiven,
            Shown::Leave { to } => TokenReply::LeaveOut { to },
            Shown::Held { train, .. } | Shown::OnLine { train, .. } => TokenReply::TokenOut {
                train,
            },
        },
        TokenAct::Withdraw => match shown {
            Shown::Leave { to } if to == 1 - box_no => TokenReply::Withdrawn,
            _ => TokenReply::NoLeave,
        },
        TokenAct::Draw { .. } => match shown {
            Shown::Leave { to } if to == box_no => TokenReply::Drawn,
            Shown::Idle | Shown::Leave { .. } => TokenReply::NoLeave,
            Shown::Held { train, .. } | Shown::OnLine { train, .. } => TokenReply::TokenOut {
                train,
            },
        },
        TokenAct::Depart => match shown {
            Shown::Held { at, train } if at == box_no => TokenReply::Departed { train },
            _ => TokenReply::NoToken,
        },
        TokenAct::Arrive => match shown {
            Shown::OnLine { to, train } if to == box_no => TokenReply::Arrived { train },
            _ => TokenReply::NoTrain,
        },
        TokenAct::Replace => match shown {
            Shown::Held { at, train } if at == box_no => TokenReply::Replaced { train },
            _ => TokenReply::NoToken,
        },
        TokenAct::Look => TokenReply::Seen { shown },
    }
}

/// What a box's own instrument refuses.
pub fn own_refusal(act: TokenAct) -> TokenReply
    ensures { result ≡ own_refusal act }
{
    match act {
        TokenAct::Draw { .. } => TokenReply::Empty,
        _ => TokenReply::NoToken,
    }
}
