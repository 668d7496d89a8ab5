//! What is printed of the calls of a script, each with its reply.

use crate::facts::{all_hold, reply_to};
use rail_text::ReadError;
use std::alloc::{AllocError, Global};
use std::test::Fail;
use token_law::{SingleLine, TokenCall, TokenEntry};
use token_text::{put_token_entry, read_tokens};

const JOURNEY: &str = "token 1\n\
    tokens 1 0\n\
    0 draw 7\n\
    1 give\n\
    0 give\n\
    0 draw 7\n\
    1 give\n\
    0 depart\n\
    1 draw 9\n\
    1 arrive\n\
    1 replace\n\
    0 draw 7\n\
    end\n";

const JOURNEY_TOLD: &str = "1 0 draw 7 -> no_leave\n\
    2 1 give -> leave_given\n\
    3 0 give -> leave_out 0\n\
    4 0 draw 7 -> drawn\n\
    5 1 give -> token_out 7\n\
    6 0 depart -> departed 7\n\
    7 1 draw 9 -> empty\n\
    8 1 arrive -> arrived 7\n\
    9 1 replace -> replaced 7\n\
    10 0 draw 7 -> empty\n";

const LEAVE: &str = "# leave, given and taken back\n\
    token 1\n\
    tokens 1 1\n\
    0 give\n\
    1 give\n\
    \n\
    0 withdraw\n\
    0 withdraw\n\
    1 look\n\
    1 depart\n\
    0 arrive\n\
    end\n\
    # done\n";

const LEAVE_TOLD: &str = "1 0 give -> leave_given\n\
    2 1 give -> leave_out 1\n\
    3 0 withdraw -> withdrawn\n\
    4 0 withdraw -> no_leave\n\
    5 1 look -> shown idle\n\
    6 1 depart -> no_token\n\
    7 0 arrive -> no_train\n";

const LOOKS: &str = "token 1\n\
    tokens 0 50\n\
    0 give\n\
    0 look\n\
    1 draw 65535\n\
    0 look\n\
    1 depart\n\
    1 look\n\
    end\n";

const LOOKS_TOLD: &str = "1 0 give -> leave_given\n\
    2 0 look -> shown leave 1\n\
    3 1 draw 65535 -> drawn\n\
    4 0 look -> shown held 1 65535\n\
    5 1 depart -> departed 65535\n\
    6 1 look -> shown line 0 65535\n";

// Performs a call, and puts its line behind a text.
fn put_call(
    out: &mut String,
    line: &mut SingleLine,
    number: usize,
    call: &TokenCall,
) -> Result<(), AllocError> {
    match reply_to(line, call.box_no, call.act) {
        Some(reply) => put_token_entry(out, number, &TokenEntry { call: *call, reply }),
        None => Ok(()),
    }
}

// Performs calls, and puts the line of each behind a text.
fn put_calls(
    out: &mut String,
    line: &mut SingleLine,
    calls: &[TokenCall],
) -> Result<(), AllocError> {
    let mut number: usize = 0;
    for call in calls {
        number = number.saturating_add(1);
        put_call(out, line, number, call)?;
    }
    Ok(())
}

// Whether calls, performed in order, are printed so with their replies.
fn are_told_as(
    alloc: Global,
    line: &mut SingleLine,
    calls: &[TokenCall],
    wanted: &str,
) -> Result<bool, AllocError> {
    let mut out = String::new(alloc);
    let put = put_calls(&mut out, line, calls);
    let is_wanted = out.as_str() == wanted;
    drop(out);
    put?;
    Ok(is_wanted)
}

// Whether the calls of a script, performed in order, are printed so with their replies.
fn is_told_as(alloc: Global, text: &str, wanted: &str) -> Result<bool, ReadError> {
    let script = read_tokens(alloc, text.as_bytes())?;
    let mut line = SingleLine::open(script.at_0, script.at_1);
    let is_wanted = are_told_as(alloc, &mut line, script.calls(), wanted);
    drop(script);
    Ok(is_wanted?)
}

#[test]
fn each_call_with_its_reply(rt: HostRuntime) -> Result<(), Fail> {
    let journey = is_told_as(rt.alloc(), JOURNEY, JOURNEY_TOLD)?;
    let leave = is_told_as(rt.alloc(), LEAVE, LEAVE_TOLD)?;
    let looks = is_told_as(rt.alloc(), LOOKS, LOOKS_TOLD)?;
    all_hold(
        &rt,
        &[
            ("a train's journey", journey),
            ("leave", leave),
            ("each sight", looks),
        ],
    );
    Ok(())
}
