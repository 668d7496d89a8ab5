//! Worked lists of calls with their replies.

use crate::facts::{Due, all_due, all_hold, has_tokens, opened};
use token_law::{Shown, TokenAct, TokenReply};

/// A train takes the only token to the other end.
pub const JOURNEY: [Due; 10] = [
    (0, TokenAct::Draw { train: 7 }, TokenReply::NoLeave),
    (1, TokenAct::Give, TokenReply::LeaveGiven),
    (0, TokenAct::Give, TokenReply::LeaveOut { to: 0 }),
    (0, TokenAct::Draw { train: 7 }, TokenReply::Drawn),
    (1, TokenAct::Give, TokenReply::TokenOut { train: 7 }),
    (0, TokenAct::Depart, TokenReply::Departed { train: 7 }),
    (1, TokenAct::Draw { train: 9 }, TokenReply::Empty),
    (1, TokenAct::Arrive, TokenReply::Arrived { train: 7 }),
    (1, TokenAct::Replace, TokenReply::Replaced { train: 7 }),
    (0, TokenAct::Draw { train: 7 }, TokenReply::Empty),
];

#[test]
fn a_train_takes_the_only_token_to_the_other_end(rt: HostRuntime) {
    let mut line = opened(1, 0);
    let is_open = has_tokens(&line, 1, 0, 0);
    let is_worked = all_due(&mut line, &JOURNEY);
    all_hold(
        &rt,
        &[
            ("one token at box 0", is_open),
            ("each reply", is_worked),
            ("one token at box 1", has_tokens(&line, 0, 1, 0)),
            ("idle", line.shown() == Shown::Idle),
        ],
    );
}

/// Leave is given and taken back.
pub const LEAVE: [Due; 7] = [
    (0, TokenAct::Give, TokenReply::LeaveGiven),
    (1, TokenAct::Give, TokenReply::LeaveOut { to: 1 }),
    (0, TokenAct::Withdraw, TokenReply::Withdrawn),
    (0, TokenAct::Withdraw, TokenReply::NoLeave),
    (1, TokenAct::Look, TokenReply::Seen { shown: Shown::Idle }),
    (1, TokenAct::Depart, TokenReply::NoToken),
    (0, TokenAct::Arrive, TokenReply::NoTrain),
];

#[test]
fn leave_is_given_and_taken_back(rt: HostRuntime) {
    let mut line = opened(1, 1);
    let is_worked = all_due(&mut line, &LEAVE);
    all_hold(
        &rt,
        &[
            ("each reply", is_worked),
            ("no token was drawn", has_tokens(&line, 1, 1, 0)),
        ],
    );
}

const LOOKS: [Due; 8] = [
    (0, TokenAct::Give, TokenReply::LeaveGiven),
    (
        0,
        TokenAct::Look,
        TokenReply::Seen {
            shown: Shown::Leave { to: 1 },
        },
    ),
    (1, TokenAct::Draw { train: 65535 }, TokenReply::Drawn),
    (
        0,
        TokenAct::Look,
        TokenReply::Seen {
            shown: Shown::Held {
                at: 1,
                train: 65535,
            },
        },
    ),
    (1, TokenAct::Depart, TokenReply::Departed { train: 65535 }),
    (
        1,
        TokenAct::Look,
        TokenReply::Seen {
            shown: Shown::OnLine {
                to: 0,
                train: 65535,
            },
        },
    ),
    (0, TokenAct::Arrive, TokenReply::Arrived { train: 65535 }),
    (
        1,
        TokenAct::Look,
        TokenReply::Seen {
            shown: Shown::Held {
                at: 0,
                train: 65535,
            },
        },
    ),
];

#[test]
fn each_sight_is_told_to_both_boxes(rt: HostRuntime) {
    let mut line = opened(0, 50);
    let is_worked = all_due(&mut line, &LOOKS);
    all_hold(
        &rt,
        &[
            ("each reply", is_worked),
            ("a token is out", has_tokens(&line, 0, 49, 1)),
        ],
    );
}
