//! A list of calls, worked by the two men of a single line in its order.

ghost use Rattle.std.specs.Prelude.{◌≡◌, ◌≤◌, ◌<◌, ◌+◌, ◌∷◌, ◌++◌, [], List, IfOk, length};
ghost use Rattle.token_law.specs.declared.calls.TokenEntry.{TokenEntry};
ghost use Rattle.token_law.specs.History.{AreTokenCalls, told_from, token_entry_of, token_state_of};
ghost use Rattle.token_law.specs.Law.{IsTokenCall};
ghost use Rattle.token_law.specs.States.{most_tokens, opening_tokens};
ghost use Rattle.token_block.specs.Men.{IsFresh};
ghost use Rattle.token_block.specs.Rule.{most_box_calls};
ghost use Rattle.token_block.specs.Steps.{entry_after, with_call};
ghost use Rattle.token_block.specs.Working.{AreTogether, IsWorked};

use crate::line::TokenLine;
use crate::man::TokenMan;
use crate::opening::{TokenOpenError, open_token};
use std::alloc::{AllocError, Global};
use token_law::{SingleLine, TokenCall, TokenEntry, TokenReply};

/// Calls with their replies, and what then stands in the instruments.
#[derive(Debug, Drop)]
pub struct WorkedCalls {
    /// The calls in order, each with its reply.
    pub entries: Vec<TokenEntry>,
    /// The tokens at box 0 after them.
    pub at_0: u32,
    /// The tokens at box 1 after them.
    pub at_1: u32,
    /// The tokens that are out after them.
    pub out: u32,
}

// One call, made by the man of its box, who then meets the other.
fn perform_call(
    line: &TokenLine,
    one: &mut TokenMan,
    other: &mut TokenMan,
    call: TokenCall,
) -> TokenReply
    requires call { IsTokenCall call }
    requires together { (done : List TokenEntry) × (length done < most_box_calls)
        × AreTogether line.now.table.shared.table_id line.now.table.shared.key done one.old other.old }
    ensures together { (done : List TokenEntry)
        → AreTogether line.now.table.shared.table_id line.now.table.shared.key done one.old other.old
        → AreTogether line.now.table.shared.table_id line.now.table.shared.key
        (with_call line.now.table.shared.key done call.box_no call.act) one.new other.new }
    ensures reply { (done : List TokenEntry)
        → AreTogether line.now.table.shared.table_id line.now.table.shared.key done one.old other.old
        → result ≡ (entry_after line.now.table.shared.key done call.box_no call.act).reply }
{
    let reply = if call.box_no == 0 {
        one.perform(line, call.act)
    } else {
        other.perform(line, call.act)
    };
    one.meet(line, other);
    reply
}

// The calls in order, made by the men of a line that opens. They meet before the first call and after each.
fn perform_calls(
    alloc: Global,
    line: &TokenLine,
    one: &mut TokenMan,
    other: &mut TokenMan,
    calls: &[TokenCall],
) -> Result<Vec<TokenEntry>, AllocError>
    requires fresh { IsFresh line.now.table.shared.table_id line.now.table.shared.key 0 one.old
        × IsFresh line.now.table.shared.table_id line.now.table.shared.key 1 other.old }
    requires calls { AreTokenCalls calls.now }
    requires few { length calls.now ≤ most_box_calls }
    ensures entries { IfOk result (λ entries. entries.items ≡ told_from
        (opening_tokens line.now.table.shared.key.at_0 line.now.table.shared.key.at_1) calls.now) }
    ensures together { IfOk result (λ entries. AreTogether line.now.table.shared.table_id line.now.table.shared.key
        entries.items one.new other.new) }
{
    let mut entries = Vec::new(alloc);
    one.meet(line, other);
    for call in calls {
        let reply = perform_call(line, one, other, *call);
        entries.push(TokenEntry { call: *call, reply })?;
    }
    Ok(entries)
}

// The calls in order, made by the men of a line that opens with so many tokens in all.
fn work_with_men(
    alloc: Global,
    line: &TokenLine,
    one: &mut TokenMan,
    other: &mut TokenMan,
    all: u32,
    calls: &[TokenCall],
) -> Result<WorkedCalls, AllocError>
    requires all { all ≡ line.now.table.shared.key.at_0 + line.now.table.shared.key.at_1 }
    requires fresh { IsFresh line.now.table.shared.table_id line.now.table.shared.key 0 one.old
        × IsFresh line.now.table.shared.table_id line.now.table.shared.key 1 other.old }
    requires calls { AreTokenCalls calls.now }
    requires few { length calls.now ≤ most_box_calls }
    ensures { IfOk result (IsWorked line.now.table.shared.key.at_0 line.now.table.shared.key.at_1 calls.now) }
{
    let entries = perform_calls(alloc, line, one, other, calls)?;
    let at_0 = one.tokens();
    let at_1 = other.tokens();
    Ok(WorkedCalls {
        entries,
        at_0,
        at_1,
        out: all - at_0 - at_1,
    })
}

// The calls in order, answered by the law in one hand.
fn work_by_law(
    alloc: Global,
    at_0: u32,
    at_1: u32,
    calls: &[TokenCall],
) -> Result<WorkedCalls, AllocError>
    requires few_0 { at_0 ≤ most_tokens }
    requires few_1 { at_1 ≤ most_tokens }
    requires calls { AreTokenCalls calls.now }
    ensures { IfOk result (IsWorked at_0 at_1 calls.now) }
{
    let mut line = SingleLine::open(at_0, at_1);
    let mut entries = Vec::new(alloc);
    for call in calls {
        let reply = line.perform(*call);
        entries.push(TokenEntry { call: *call, reply })?;
    }
    Ok(WorkedCalls {
        entries,
        at_0: line.tokens(0),
        at_1: line.tokens(1),
        out: line.out(),
    })
}

/// Works calls in their order, at a single line that opens with so many tokens in its instruments: each is made by the
/// man of its box, and both men meet before the first call and after each, so that what both have then seen is the
/// calls so far and no others. Where a post of the line was lost, the law answers in one hand. Either way the replies
/// are the law's.
pub fn work_tokens(
    alloc: Global,
    at_0: u32,
    at_1: u32,
    calls: &[TokenCall],
) -> Result<WorkedCalls, AllocError>
    requires few_0 { at_0 ≤ most_tokens }
    requires few_1 { at_1 ≤ most_tokens }
    requires calls { AreTokenCalls calls.now }
    requires few { length calls.now ≤ most_box_calls }
    ensures { IfOk result (IsWorked at_0 at_1 calls.now) }
{
    match open_token(alloc, at_0, at_1) {
        Ok((line, mut one, mut other)) => {
            let worked = work_with_men(alloc, &line, &mut one, &mut other, at_0 + at_1, calls);
            drop(other);
            drop(one);
            drop(line);
            worked
        }
        Err(TokenOpenError::PostTaken { .. }) => work_by_law(alloc, at_0, at_1, calls),
        Err(TokenOpenError::NoMemory) => Err(AllocError),
    }
}
