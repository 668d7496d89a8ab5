//! What is printed of the calls at a single line, and of their replies.

ghost use Rattle.std.specs.Prelude.{◌≡◌, ◌∷◌, ◌++◌, IfOk, OnOk, decimal, string_bytes};
ghost use Rattle.token_law.specs.declared.calls.TokenReply.TheVariants as replies;
ghost use Rattle.token_text.specs.Acts.{token_call_text};
ghost use Rattle.token_text.specs.Outputs.{token_entry_line, token_entry_lines, token_output, token_reply_text};
ghost use Rattle.token_text.specs.Outputs.{tokens_line};

use std::alloc::{AllocError, Global};
use std::fmt::Write;
use token_law::{Shown, TokenAct, TokenCall, TokenEntry, TokenReply};

// A word and a number.
fn put_numbered(out: &mut String, word: &str, number: u32) -> Result<(), AllocError>
    ensures { OnOk result (string_bytes out.new ≡ string_bytes out.old ++ (word.now ++ 32 ∷ decimal number)) }
{
    out.push_str(word)?;
    write!(out, " {number}")
}

// A call: its box, and what is done there.
fn put_call(out: &mut String, call: TokenCall) -> Result<(), AllocError>
    ensures { OnOk result (string_bytes out.new ≡ string_bytes out.old ++ token_call_text call) }
{
    let box_no = call.box_no;
    write!(out, "{box_no} ")?;
    match call.act {
        TokenAct::Give => out.push_str("give"),
        TokenAct::Withdraw => out.push_str("withdraw"),
        TokenAct::Draw { train } => put_numbered(out, "draw", u32::from(train)),
        TokenAct::Depart => out.push_str("depart"),
        TokenAct::Arrive => out.push_str("arrive"),
        TokenAct::Replace => out.push_str("replace"),
        TokenAct::Look => out.push_str("look"),
    }
}

// What the instruments show.
fn put_shown(out: &mut String, shown: Shown) -> Result<(), AllocError>
    ensures { OnOk result (string_bytes out.new ≡ string_bytes out.old ++ token_reply_text (replies.Seen shown)) }
{
    match shown {
        Shown::Idle => out.push_str("shown idle"),
        Shown::Leave { to } => put_numbered(out, "shown leave", to),
        Shown::Held { at, train } => write!(out, "shown held {at} {train}"),
        Shown::OnLine { to, train } => write!(out, "shown line {to} {train}"),
    }
}

// A reply.
fn put_reply(out: &mut String, reply: TokenReply) -> Result<(), AllocError>
    ensures { OnOk result (string_bytes out.new ≡ string_bytes out.old ++ token_reply_text reply) }
{
    match reply {
        TokenReply::LeaveGiven => out.push_str("leave_given"),
        TokenReply::LeaveOut { to } => put_numbered(out, "leave_out", to),
        TokenReply::TokenOut { train } => put_numbered(out, "token_out", u32::from(train)),
        TokenReply::Withdrawn => out.push_str("withdrawn"),
        TokenReply::NoLeave => out.push_str("no_leave"),
        TokenReply::Drawn => out.push_str("drawn"),
        TokenReply::Empty => out.push_str("empty"),
        TokenReply::Departed { train } => put_numbered(out, "departed", u32::from(train)),
        TokenReply::Arrived { train } => put_numbered(out, "arrived", u32::from(train)),
        TokenReply::Replaced { train } => put_numbered(out, "replaced", u32::from(train)),
        TokenReply::NoToken => out.push_str("no_token"),
        TokenReply::NoTrain => out.push_str("no_train"),
        TokenReply::Seen { shown } => put_shown(out, shown),
    }
}

/// Puts an entry's line behind a text: its number, the call, `->` and the reply.
#[tactic(auto, unfolding(crate::specs::Outputs::token_entry_line))]
pub fn put_token_entry(
    out: &mut String,
    number: usize,
    entry: &TokenEntry,
) -> Result<(), AllocError>
    ensures { OnOk result (string_bytes out.new ≡ string_bytes out.old ++ token_entry_line number entry.now) }
{
    write!(out, "{number} ")?;
    put_call(out, entry.call)?;
    out.push_str(" -> ")?;
    put_reply(out, entry.reply)?;
    out.push_str("\n")
}

// The lines of all entries.
fn put_entries(out: &mut String, entries: &[TokenEntry]) -> Result<(), AllocError>
    ensures { OnOk result (string_bytes out.new ≡ string_bytes out.old ++ token_entry_lines 1 entries.now) }
{
    for (place, entry) in entries.iter().enumerate() {
        put_token_entry(out, place + 1, entry)?;
    }
    Ok(())
}

// The last line: the tokens at each box, and those that are out.
#[tactic(auto, unfolding(crate::specs::Outputs::tokens_line))]
fn put_tokens(out: &mut String, at_0: u32, at_1: u32, are_out: u32) -> Result<(), AllocError>
    ensures { OnOk result (string_bytes out.new ≡ string_bytes out.old ++ tokens_line at_0 at_1 are_out) }
{
    write!(out, "tokens {at_0} {at_1} out {are_out}\n")
}

// The whole output of calls that were made.
#[tactic(auto, unfolding(crate::specs::Outputs::token_output))]
fn put_output(
    out: &mut String,
    entries: &[TokenEntry],
    at_0: u32,
    at_1: u32,
    are_out: u32,
) -> Result<(), AllocError>
    ensures { OnOk result (string_bytes out.new ≡ string_bytes out.old ++ token_output entries.now at_0 at_1 are_out) }
{
    out.push_str("token 1\n")?;
    put_entries(out, entries)?;
    out.push_str("end\n")?;
    put_tokens(out, at_0, at_1, are_out)
}

/// The output of calls that were made, as it is printed: `token 1`, a line for each call with its reply, `end`, and the
/// tokens that then stand at each box and are out.
pub fn print_tokens(
    alloc: Global,
    entries: &[TokenEntry],
    at_0: u32,
    at_1: u32,
    are_out: u32,
) -> Result<Vec<u8>, AllocError>
    ensures { IfOk result (λ text. text.items ≡ token_output entries.now at_0 at_1 are_out) }
{
    let mut out = String::new(alloc);
    put_output(&mut out, entries, at_0, at_1, are_out)?;
    Ok(out.into_bytes())
}
