//! The two men of a single line, whose calls are made by hand.

ghost use Rattle.std.specs.Prelude.{◌≡◌};
ghost use Rattle.token_block.specs.Men.{IsOf};

use crate::facts::{Due, all_hold};
use crate::worked::{JOURNEY, LEAVE};
use token_block::{TokenLine, TokenMan, open_token, work_tokens};
use token_law::{TokenAct, TokenCall, TokenEntry, TokenReply};
use token_text::read_tokens;

/// A call of a man; none where he may not make it.
pub fn asked(line: &TokenLine, man: &mut TokenMan, act: TokenAct) -> Option<TokenReply>
    requires { IsOf line.now.table.shared.table_id line.now.table.shared.key man.old }
    ensures { IsOf line.now.table.shared.table_id line.now.table.shared.key man.new }
{
    let call = TokenCall { box_no: 0, act };
    if !call.may_be_made() || man.calls() >= 4_000_000_000 {
        return None;
    }
    Some(man.perform(line, act))
}

// Whether the calls of the two men get the replies that are due, each.
fn all_performed(line: &TokenLine, one: &mut TokenMan, other: &mut TokenMan, dues: &[Due]) -> bool
    requires one { IsOf line.now.table.shared.table_id line.now.table.shared.key one.old }
    requires other { IsOf line.now.table.shared.table_id line.now.table.shared.key other.old }
    ensures one { IsOf line.now.table.shared.table_id line.now.table.shared.key one.new }
    ensures other { IsOf line.now.table.shared.table_id line.now.table.shared.key other.new }
{
    for (box_no, act, reply) in dues {
        let told = if *box_no == 0 {
            asked(line, one, *act)
        } else {
            asked(line, other, *act)
        };
        if told != Some(*reply) {
            return false;
        }
    }
    true
}

#[test]
fn two_men_take_the_only_token_to_the_other_end(rt: HostRuntime) {
    let (line, mut one, mut other) = open_token(rt.alloc(), 1, 0).ok().expect(&rt, "a line");
    let are_fresh = (one.tokens() == 1)
        & (other.tokens() == 0)
        & (one.calls() == 0)
        & (other.calls() == 0);
    let are_due = all_performed(&line, &mut one, &mut other, &JOURNEY);
    one.meet(&line, &mut other);
    let have_called = (one.calls() == 5) & (other.calls() == 5);
    let is_moved = (one.tokens() == 0) & (other.tokens() == 1);
    drop(other);
    drop(one);
    drop(line);
    all_hold(
        &rt,
        &[
            ("fresh", are_fresh),
            ("each reply", are_due),
            ("five calls each", have_called),
            ("the token is at box 1", is_moved),
        ],
    );
}

#[test]
fn two_men_give_leave_and_take_it_back(rt: HostRuntime) {
    let (line, mut one, mut other) = open_token(rt.alloc(), 1, 1).ok().expect(&rt, "a line");
    let are_due = all_performed(&line, &mut one, &mut other, &LEAVE);
    let are_there = (one.tokens() == 1) & (other.tokens() == 1);
    drop(other);
    drop(one);
    drop(line);
    all_hold(
        &rt,
        &[("each reply", are_due), ("no token was drawn", are_there)],
    );
}

const JOURNEY_SCRIPT: &[u8] = b"token 1\ntokens 1 0\n0 draw 7\n1 give\n0 give\n0 draw 7\n1 give\n\
0 depart\n1 draw 9\n1 arrive\n1 replace\n0 draw 7\nend\n";

// Whether an entry is this call with this reply.
fn is_entry(entry: &TokenEntry, due: &Due) -> bool {
    let (box_no, act, reply) = *due;
    (entry.call.box_no == box_no) & (entry.call.act == act) & (entry.reply == reply)
}

// Whether the entries are these calls with these replies.
fn are_entries(entries: &[TokenEntry], dues: &[Due]) -> bool {
    let mut are_so = entries.len() == dues.len();
    for (entry, due) in entries.iter().zip(dues) {
        are_so = are_so & is_entry(entry, due);
    }
    are_so
}

#[test]
fn a_script_is_worked_by_both_men(rt: HostRuntime) {
    let script = read_tokens(rt.alloc(), JOURNEY_SCRIPT).expect(&rt, "a script");
    let worked = work_tokens(rt.alloc(), script.at_0, script.at_1, script.calls()).expect(
        &rt, "memory",
    );
    let are_due = are_entries(&worked.entries, &JOURNEY);
    let is_moved = (worked.at_0 == 0) & (worked.at_1 == 1) & (worked.out == 0);
    drop(worked);
    drop(script);
    all_hold(
        &rt,
        &[("each entry", are_due), ("the token is at box 1", is_moved)],
    );
}
