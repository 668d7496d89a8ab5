//! One assertion for many facts, and lists of calls with their replies.

use std::process::Abort;
use token_law::{SingleLine, TokenAct, TokenCall, TokenReply};

/// A box, what it does, and the reply that is due.
pub type Due = (u32, TokenAct, TokenReply);

/// Ends the test with the name of a fact that does not hold.
pub fn hold(rt: &impl Abort, name: &str, holds: bool) {
    assert!(rt; holds, "not so: {name}");
}

/// Ends the test at the first of the facts that does not hold, with its name.
pub fn all_hold(rt: &impl Abort, facts: &[(&str, bool)]) {
    for (name, holds) in facts {
        hold(rt, name, *holds);
    }
}

/// Ends the test where a case is wrong, with its text.
pub fn none_is_wrong(rt: &impl Abort, wrong: Option<&str>) {
    assert!(rt; wrong.is_none(), "wrong: {wrong:?}");
}

/// A line as it opens; one without tokens for numbers that no line has.
pub fn opened(at_0: u32, at_1: u32) -> SingleLine {
    if at_0 <= 50 && at_1 <= 50 {
        SingleLine::open(at_0, at_1)
    } else {
        SingleLine::open(0, 0)
    }
}

/// The reply to a call; none where it may not be made.
pub fn reply_to(line: &mut SingleLine, box_no: u32, act: TokenAct) -> Option<TokenReply> {
    let call = TokenCall { box_no, act };
    if !call.may_be_made() {
        return None;
    }
    Some(line.perform(call))
}

/// Whether the calls get the replies that are due, each.
pub fn all_due(line: &mut SingleLine, dues: &[Due]) -> bool {
    for (box_no, act, reply) in dues {
        if reply_to(line, *box_no, *act) != Some(*reply) {
            return false;
        }
    }
    true
}

/// Whether a line has so many tokens in each instrument, and so many out.
pub fn has_tokens(line: &SingleLine, at_0: u32, at_1: u32, out: u32) -> bool {
    line.tokens(0) == at_0 && line.tokens(1) == at_1 && line.out() == out
}
