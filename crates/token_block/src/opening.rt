//! A single line with a man at each end.

ghost use Rattle.std.specs.Prelude.{◌≡◌, ◌<◌, ◌≤◌, [], IfErr, IfOk};
ghost use Rattle.token_law.specs.States.{most_tokens, tokens_at};
ghost use Rattle.token_block.specs.Men.{IsFresh, WasTaken};
ghost use Rattle.token_block.specs.Steps.{state_after};
ghost use Rattle.token_block.specs.Views.{first_view};

use crate::line::TokenLine;
use crate::man::TokenMan;
use crate::post::{TokenPost, open_words};
use std::alloc::{AllocError, Global};

/// Why no single line was opened.
#[derive(Drop)]
pub enum TokenOpenError {
    /// A draw of the post of a box found that so many posts were drawn. The seat that drew knows it.
    PostTaken {
        box_no: u32,
        found: u64,
        post: TokenPost,
    },
    /// Memory ran out.
    NoMemory,
}

impl From<AllocError> for TokenOpenError {
    ghost use Rattle.std.specs.Prelude.{◌≡◌};
    ghost use Rattle.token_block.specs.declared.opening.TokenOpenError.TheVariants as errors;

    ghost from_gives = { λ _ e. e ≡ errors.NoMemory };

    fn from(_: AllocError) -> TokenOpenError {
        TokenOpenError::NoMemory
    }
}

// The man of a box of a line that opens, whose post is drawn next, with so many tokens in his instrument.
fn seat_man(
    line: &TokenLine,
    first: &mut TokenPost,
    box_no: u32,
    tokens: u32,
) -> Result<TokenMan, TokenOpenError>
    requires table { first.old.seat.table_id ≡ line.now.table.shared.table_id }
    requires view { first.old.seat.me.0 ≡ first_view line.now.table.shared.key }
    requires known { box_no < 2 }
    requires tokens { tokens ≡ tokens_at (state_after line.now.table.shared.key []) box_no }
    ensures table { first.new.seat.table_id ≡ first.old.seat.table_id }
    ensures view { first.new.seat.me.0 ≡ first.old.seat.me.0 }
    ensures fresh { IfOk result (IsFresh line.now.table.shared.table_id line.now.table.shared.key box_no) }
    ensures taken { IfErr result WasTaken }
{
    let mut post = first.split(line);
    let found = post.take(line, box_no);
    if found != box_no as u64 {
        return Err(TokenOpenError::PostTaken {
            box_no,
            found,
            post,
        });
    }
    Ok(TokenMan::at_post(post, box_no, tokens))
}

// Both men of a line that opens, that of box 0 first.
fn seat_men(
    line: &TokenLine,
    first: &mut TokenPost,
    at_0: u32,
    at_1: u32,
) -> Result<(TokenMan, TokenMan), TokenOpenError>
    requires table { first.old.seat.table_id ≡ line.now.table.shared.table_id }
    requires view { first.old.seat.me.0 ≡ first_view line.now.table.shared.key }
    requires tokens { line.now.table.shared.key ≡ record { at_0 = at_0; at_1 = at_1 } }
    ensures fresh { IfOk result (λ men. IsFresh line.now.table.shared.table_id line.now.table.shared.key 0 men.0
        × IsFresh line.now.table.shared.table_id line.now.table.shared.key 1 men.1) }
    ensures taken { IfErr result WasTaken }
{
    let one = seat_man(line, first, 0, at_0)?;
    match seat_man(line, first, 1, at_1) {
        Ok(other) => Ok((one, other)),
        Err(error) => {
            drop(one);
            Err(error)
        }
    }
}

/// Opens a single line with so many tokens in the instruments of the boxes 0 and 1, and seats a man at each, that of
/// box 0 first. It takes all memory that the line will need.
///
/// # Errors
///
/// `PostTaken` where a draw of this call found another number of posts drawn than the number of its box, which is a box
/// of the line; the line is then given up, and the seat that lost the draw comes with the two numbers. That a line
/// which opens loses no draw is tested alone.
/// `NoMemory` where memory runs out.
pub fn open_token(
    alloc: Global,
    at_0: u32,
    at_1: u32,
) -> Result<(TokenLine, TokenMan, TokenMan), TokenOpenError>
    requires few_0 { at_0 ≤ most_tokens }
    requires few_1 { at_1 ≤ most_tokens }
    ensures line { IfOk result (λ r. r.0.table.shared.key ≡ record { at_0 = at_0; at_1 = at_1 }) }
    ensures men { IfOk result (λ r. IsFresh r.0.table.shared.table_id r.0.table.shared.key 0 r.1
        × IsFresh r.0.table.shared.table_id r.0.table.shared.key 1 r.2) }
    ensures taken { IfErr result WasTaken }
{
    let (line, mut first) = open_words(alloc, at_0, at_1)?;
    let seated = seat_men(&line, &mut first, at_0, at_1);
    drop(first);
    match seated {
        Ok((one, other)) => Ok((line, one, other)),
        Err(error) => {
            drop(line);
            Err(error)
        }
    }
}
