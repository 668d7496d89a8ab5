//! The two men of a single line on threads of their own.

ghost use Rattle.std.specs.Prelude.{◌≤◌};
ghost use Rattle.token_block.specs.Men.{IsOf};

use crate::facts::all_hold;
use crate::men::asked;
use crate::worked::JOURNEY;
use std::sync::atomic::{AtomicU64, Ordering};
use std::thread;
use std::thread::Threads;
use token_block::{TokenLine, TokenMan, open_token};
use token_law::{Shown, TokenAct, TokenReply};

// How many calls each man makes beside the other.
const CALLS: u32 = 50_000;

// The next of a row of numbers that look drawn by lot.
fn next(number: u64) -> u64 {
    number
        .wrapping_mul(6_364_136_223_846_793_005)
        .wrapping_add(1_442_695_040_888_963_407)
}

// The act for a number.
fn act_by(number: u64) -> TokenAct {
    let lot = number / 2_u64.pow(33);
    match lot % 8 {
        0 => TokenAct::Withdraw,
        1 | 2 => TokenAct::Give,
        3 | 4 => TokenAct::Draw {
            train: (lot % 60_000) as u16 + 1,
        },
        5 => TokenAct::Depart,
        6 => TokenAct::Arrive,
        _ => TokenAct::Replace,
    }
}

// A man makes his calls, which are drawn by lot.
fn works(mut man: TokenMan, line: &TokenLine, seed: u64) -> TokenMan
    requires { IsOf line.now.table.shared.table_id line.now.table.shared.key man }
    ensures { IsOf line.now.table.shared.table_id line.now.table.shared.key result }
{
    let mut number = seed;
    for _ in 0..CALLS {
        number = next(number);
        asked(line, &mut man, act_by(number));
    }
    man
}

// The tokens that are out, by a reply to a look; more than there are for any other reply.
fn out_by(reply: Option<TokenReply>) -> u64
    ensures { result ≤ 1000 }
{
    let Some(TokenReply::Seen { shown }) = reply else {
        return 1_000;
    };
    if matches!(shown, Shown::Held { .. } | Shown::OnLine { .. }) {
        1
    } else {
        0
    }
}

// Both men work at once, and meet. Are all tokens there then?
fn all_tokens_stay(
    rt: &impl Threads,
    line: &TokenLine,
    one: TokenMan,
    other: TokenMan,
    all: u64,
) -> bool
    requires one { IsOf line.now.table.shared.table_id line.now.table.shared.key one }
    requires other { IsOf line.now.table.shared.table_id line.now.table.shared.key other }
{
    let (mut one, mut other) = thread::join(
        rt,
        move || -> TokenMan
            requires { IsOf line.now.table.shared.table_id line.now.table.shared.key one }
            ensures { IsOf line.entry.now.table.shared.table_id line.entry.now.table.shared.key result }
        { works(one, line, 1) },
        move || -> TokenMan
            requires { IsOf line.now.table.shared.table_id line.now.table.shared.key other }
            ensures { IsOf line.entry.now.table.shared.table_id line.entry.now.table.shared.key result }
        { works(other, line, 2) },
    );
    one.meet(line, &mut other);
    let out = out_by(asked(line, &mut one, TokenAct::Look));
    let is_so = u64::from(one.tokens()) + u64::from(other.tokens()) + out == all;
    let have_called = (one.calls() == CALLS + 1) & (other.calls() == CALLS);
    drop(other);
    drop(one);
    is_so & have_called
}

#[test]
fn no_token_is_lost_between_two_threads(rt: HostRuntime) {
    let (line, one, other) = open_token(rt.alloc(), 3, 4).ok().expect(&rt, "a line");
    let is_so = all_tokens_stay(&rt, &line, one, other, 7);
    drop(line);
    all_hold(&rt, &[("seven tokens", is_so)]);
}

// How often a man looks whether it is his turn before he gives up.
const MOST_TURNS: u32 = 1_000_000_000;

// A gate that lets the calls of a list be made in its order. It keeps how many were made, and how many men gave up.
#[derive(Drop)]
struct InTurn {
    made: AtomicU64,
    gave_up: AtomicU64,
}

impl InTurn {
    fn new() -> InTurn {
        InTurn {
            made: AtomicU64::new(0),
            gave_up: AtomicU64::new(0),
        }
    }

    // Waits until so many calls are made.
    fn wait(&self, calls: u64) {
        for _ in 0..MOST_TURNS {
            if self.made.load(Ordering::SeqCst) == calls {
                return;
            }
        }
        self.gave_up.fetch_add(1, Ordering::SeqCst);
    }

    // Lets the next call be made.
    fn pass_on(&self) {
        self.made.fetch_add(1, Ordering::SeqCst);
    }
}

// A man who has made his calls, and whether each got the reply that is due.
#[derive(Drop)]
struct Made {
    man: TokenMan,
    are_due: bool,
}

// A man makes the calls of his box of the journey, each in its turn. Does each get the reply that is due?
fn makes_each(man: &mut TokenMan, line: &TokenLine, box_no: u32, gate: &InTurn) -> bool
    requires { IsOf line.now.table.shared.table_id line.now.table.shared.key man.old }
    ensures { IsOf line.now.table.shared.table_id line.now.table.shared.key man.new }
{
    let mut are_due = true;
    let mut before: u64 = 0;
    for (at, act, reply) in &JOURNEY {
        if *at == box_no {
            gate.wait(before);
            are_due = are_due & (asked(line, man, *act) == Some(*reply));
            gate.pass_on();
        }
        before = before.wrapping_add(1);
    }
    are_due
}

// The same, and gives the man back.
fn makes_his(mut man: TokenMan, line: &TokenLine, box_no: u32, gate: &InTurn) -> Made
    requires { IsOf line.now.table.shared.table_id line.now.table.shared.key man }
    ensures { IsOf line.now.table.shared.table_id line.now.table.shared.key result.man }
{
    let are_due = makes_each(&mut man, line, box_no, gate);
    Made { man, are_due }
}

// Both men make the journey, each on a thread of his own, in turn. Did each call get the reply that is due, and is the
// only token at the other end then?
fn make_the_journey(
    rt: &impl Threads,
    line: &TokenLine,
    one: TokenMan,
    other: TokenMan,
    gate: &InTurn,
) -> bool
    requires one { IsOf line.now.table.shared.table_id line.now.table.shared.key one }
    requires other { IsOf line.now.table.shared.table_id line.now.table.shared.key other }
{
    let (mut one, mut other) = thread::join(
        rt,
        move || -> Made
            requires { IsOf line.now.table.shared.table_id line.now.table.shared.key one }
            ensures { IsOf line.entry.now.table.shared.table_id line.entry.now.table.shared.key result.man }
        { makes_his(one, line, 0, gate) },
        move || -> Made
            requires { IsOf line.now.table.shared.table_id line.now.table.shared.key other }
            ensures { IsOf line.entry.now.table.shared.table_id line.entry.now.table.shared.key result.man }
        { makes_his(other, line, 1, gate) },
    );
    one.man.meet(line, &mut other.man);
    let are_due = one.are_due & other.are_due;
    let have_called = (one.man.calls() == 5) & (other.man.calls() == 5);
    let is_moved = (one.man.tokens() == 0) & (other.man.tokens() == 1);
    drop(other);
    drop(one);
    are_due & have_called & is_moved
}

#[test]
fn two_threads_make_the_journey_in_turn(rt: HostRuntime) {
    let gate = InTurn::new();
    let (line, one, other) = open_token(rt.alloc(), 1, 0).ok().expect(&rt, "a line");
    let is_made = make_the_journey(&rt, &line, one, other, &gate);
    let nobody_gave_up = gate.gave_up.load(Ordering::SeqCst) == 0;
    drop(line);
    drop(gate);
    all_hold(
        &rt,
        &[
            ("each reply, and the token at box 1", is_made),
            ("nobody gave up", nobody_gave_up),
        ],
    );
}
