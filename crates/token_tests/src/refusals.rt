//! Each refusal of each act, in each state of the line.

use crate::facts::{Due, all_due, all_hold, has_tokens, opened, reply_to};
use token_law::{Shown, SingleLine, TokenAct, TokenReply};

// Whether the calls are refused so, and leave the line as it was.
fn all_refused(line: &SingleLine, dues: &[Due]) -> bool {
    let mut after = *line;
    all_due(&mut after, dues) && after == *line
}

const DRAW: TokenAct = TokenAct::Draw { train: 3 };

const OUT: TokenReply = TokenReply::TokenOut { train: 7 };

const IDLE: [Due; 5] = [
    (0, TokenAct::Withdraw, TokenReply::NoLeave),
    (0, DRAW, TokenReply::NoLeave),
    (0, TokenAct::Depart, TokenReply::NoToken),
    (0, TokenAct::Arrive, TokenReply::NoTrain),
    (0, TokenAct::Replace, TokenReply::NoToken),
];

const LEAVE_TO_0: [Due; 7] = [
    (0, TokenAct::Give, TokenReply::LeaveOut { to: 0 }),
    (1, TokenAct::Give, TokenReply::LeaveOut { to: 0 }),
    (0, TokenAct::Withdraw, TokenReply::NoLeave),
    (1, DRAW, TokenReply::NoLeave),
    (0, TokenAct::Depart, TokenReply::NoToken),
    (0, TokenAct::Arrive, TokenReply::NoTrain),
    (0, TokenAct::Replace, TokenReply::NoToken),
];

const HELD_AT_0: [Due; 9] = [
    (0, TokenAct::Give, OUT),
    (1, TokenAct::Give, OUT),
    (1, TokenAct::Withdraw, TokenReply::NoLeave),
    (0, DRAW, OUT),
    (1, DRAW, OUT),
    (1, TokenAct::Depart, TokenReply::NoToken),
    (0, TokenAct::Arrive, TokenReply::NoTrain),
    (1, TokenAct::Arrive, TokenReply::NoTrain),
    (1, TokenAct::Replace, TokenReply::NoToken),
];

const ON_LINE_TO_1: [Due; 10] = [
    (0, TokenAct::Give, OUT),
    (1, TokenAct::Give, OUT),
    (1, TokenAct::Withdraw, TokenReply::NoLeave),
    (0, DRAW, OUT),
    (1, DRAW, OUT),
    (0, TokenAct::Depart, TokenReply::NoToken),
    (1, TokenAct::Depart, TokenReply::NoToken),
    (0, TokenAct::Arrive, TokenReply::NoTrain),
    (0, TokenAct::Replace, TokenReply::NoToken),
    (1, TokenAct::Replace, TokenReply::NoToken),
];

#[test]
fn each_act_is_refused_in_each_state(rt: HostRuntime) {
    let mut line = opened(2, 1);
    let is_idle = all_refused(&line, &IDLE);
    let gives = reply_to(&mut line, 1, TokenAct::Give) == Some(TokenReply::LeaveGiven);
    let is_left = all_refused(&line, &LEAVE_TO_0);
    let draws = reply_to(&mut line, 0, TokenAct::Draw { train: 7 }) == Some(TokenReply::Drawn);
    let is_held = all_refused(&line, &HELD_AT_0);
    let departs = reply_to(&mut line, 0, TokenAct::Depart);
    let is_out = all_refused(&line, &ON_LINE_TO_1);
    all_hold(
        &rt,
        &[
            ("refused where it is idle", is_idle & gives),
            ("refused under the leave to box 0", is_left & draws),
            ("refused while a token is held", is_held),
            (
                "departs",
                departs == Some(TokenReply::Departed { train: 7 }),
            ),
            ("refused while a token is on the line", is_out),
            ("the other end's tokens stay", has_tokens(&line, 1, 1, 1)),
        ],
    );
}

const EMPTY: [Due; 2] = [(0, DRAW, TokenReply::Empty), (1, DRAW, TokenReply::Empty)];

#[test]
fn an_empty_instrument_is_refused_first(rt: HostRuntime) {
    let mut line = opened(0, 0);
    let is_idle = all_refused(&line, &EMPTY);
    let gives = reply_to(&mut line, 1, TokenAct::Give) == Some(TokenReply::LeaveGiven);
    let is_left = all_refused(&line, &EMPTY);
    all_hold(
        &rt,
        &[
            ("empty where it is idle", is_idle),
            ("empty under leave", gives & is_left),
            ("leave stands", line.shown() == Shown::Leave { to: 0 }),
        ],
    );
}

#[test]
fn a_call_that_may_not_be_made(rt: HostRuntime) {
    let mut line = opened(1, 1);
    let other_box = reply_to(&mut line, 2, TokenAct::Look);
    let no_train = reply_to(&mut line, 0, TokenAct::Draw { train: 0 });
    all_hold(
        &rt,
        &[
            ("there is no box 2", other_box.is_none()),
            ("there is no train 0", no_train.is_none()),
        ],
    );
}
