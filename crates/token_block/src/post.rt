//! Seats at the shared words of a single line, and their steps.
ghost use Rattle.std.specs.Prelude.{◌≡◌, ◌≢◌, ◌≤◌, ◌<◌, ◌+◌, [], None, IfOk, Some};
ghost use mathlib.Core.List.{IsPrefix};
ghost use Rattle.token_law.specs.States.{most_tokens};
ghost use Rattle.token_law.specs.declared.calls.TokenAct.TheVariants as acts;
ghost use Rattle.token_block.specs.Rule.{Seen};
ghost use Rattle.token_block.specs.Steps.{LegalFor, MayStep, Sits, Stepped, op_by};
ghost use Rattle.token_block.specs.Views.{both_views, first_view, missed, settled, twin_view, with_post};

use crate::line::TokenLine;
use crate::plays::{Calling, Do, Merge, Settle, Take, Twin};
use crate::view::{TokenView, Tokens};
use crate::words::{TokenOp, word_of};
use atomic_table::{Seat, Table};
use std::alloc::{AllocError, Global};
use std::marker::Brand;
use token_law::TokenAct;

/// A seat at the shared words of a single line.
#[derive(Drop)]
pub struct TokenPost {
    pub seat: Seat<(), TokenView>,
    pub ghost bare: { seat.me.1 ≡ [] },
}

/// A single line as it opens, with so many tokens at each box, and its first seat, which holds no post and has seen
/// nothing. No other call on a line takes memory.
pub fn open_words(alloc: Global, at_0: u32, at_1: u32) -> Result<(TokenLine, TokenPost), AllocError>
    requires few_0 { at_0 ≤ most_tokens }
    requires few_1 { at_1 ≤ most_tokens }
    ensures line { IfOk result (λ r. r.0.table.shared.key ≡ record { at_0 = at_0; at_1 = at_1 }) }
    ensures post { IfOk result (λ r. (r.1.seat.table_id ≡ r.0.table.shared.table_id)
        × (r.1.seat.me.0 ≡ first_view (record { at_0 = at_0; at_1 = at_1 }))) }
{
    let (table, seat) = Table::of_words(alloc, &[0, 0, 0, 0], &Tokens { at_0, at_1 })?;
    Ok((TokenLine { table }, TokenPost { seat }))
}

impl TokenPost {
    /// Draws the post of a box, by one compare and exchange of the number of posts drawn. It gives the number that it
    /// found, which the seat then knows. Exactly where that is the box's, the seat then holds the post; else it is as
    /// it was but for that.
    pub fn take(&mut self, line: &TokenLine, box_no: u32) -> u64
        requires line { self.old.seat.table_id ≡ line.now.table.shared.table_id }
        requires free { Sits line.now.table.shared.key self.old.seat.me.0 × (self.old.seat.me.0.post ≡ None) }
        requires known { box_no < 2 }
        ensures same { self.new.seat.table_id ≡ self.old.seat.table_id }
        ensures drew { result ≡ box_no → self.new.seat.me.0 ≡ with_post self.old.seat.me.0 box_no }
        ensures lost { result ≢ box_no → self.new.seat.me.0 ≡ missed self.old.seat.me.0 result }
        ensures found { self.new.seat.me.0.drawn ≡ Some result }
        ensures counted { result ≤ 2 }
    {
        let old = box_no as u64;
        line.table
            .shared
            .compare_exchange::<Take>(&mut self.seat, 0, old, old + 1)
    }

    /// A second seat that has seen as much as this one, and holds no post.
    pub fn split(&mut self, line: &TokenLine) -> TokenPost
        requires line { self.old.seat.table_id ≡ line.now.table.shared.table_id }
        requires sits { Sits line.now.table.shared.key self.old.seat.me.0 }
        ensures same { (self.new.seat.table_id ≡ self.old.seat.table_id)
            × (result.seat.table_id ≡ self.old.seat.table_id) }
        ensures kept { self.new.seat.me.0 ≡ self.old.seat.me.0 }
        ensures twin { result.seat.me.0 ≡ twin_view self.old.seat.me.0 }
    {
        TokenPost {
            seat: line.table.shared.split_seat::<Twin>(&mut self.seat),
        }
    }

    /// Takes in another seat, which holds no post. What each of the two had seen is a beginning of what this one has
    /// then seen, in which its box has the same entries.
    pub fn join(&mut self, line: &TokenLine, other: TokenPost)
        requires line { (self.old.seat.table_id ≡ line.now.table.shared.table_id)
            × (other.seat.table_id ≡ line.now.table.shared.table_id) }
        requires sits { Sits line.now.table.shared.key self.old.seat.me.0 }
        requires bare { other.seat.me.0.post ≡ None }
        ensures same { self.new.seat.table_id ≡ self.old.seat.table_id }
        ensures view { self.new.seat.me.0 ≡ settled (both_views self.old.seat.me.0 other.seat.me.0) }
        ensures mine { Seen self.new.seat.me.0.seen self.old.seat.me.0.post self.old.seat.me.0.seen }
        ensures theirs { IsPrefix other.seat.me.0.seen self.new.seat.me.0.seen }
        ensures legal { LegalFor self.new.seat.me.0.opened self.new.seat.me.0.seen }
    {
        let TokenPost { seat } = other;
        line.table.shared.join_seat::<Merge>(&mut self.seat, seat);
        line.table.shared.load::<Settle>(&mut self.seat, 0);
    }

    // One operation for a call of this box, on its one word.
    fn step_as<J: Calling>(
        &mut self,
        line: &TokenLine,
        box_no: u32,
        act: TokenAct,
        op: TokenOp,
    ) -> u64
        requires line { self.old.seat.table_id ≡ line.now.table.shared.table_id }
        requires tokens { J.tokens ≡ line.now.table.shared.key }
        requires box_no { J.box_no ≡ box_no }
        requires act { J.act ≡ act }
        requires sits { Sits J.tokens self.old.seat.me.0 }
        requires may { MayStep J.tokens J.box_no J.act self.old.seat.me.0 }
        requires op { op ≡ op_by J.tokens J.box_no J.act self.old.seat.me.0 }
        ensures same { self.new.seat.table_id ≡ self.old.seat.table_id }
        ensures told { Stepped J.tokens J.box_no J.act self.old.seat.me.0 result self.new.seat.me.0 }
    {
        let words = &line.table.shared;
        match op {
            TokenOp::Count => words.fetch_add::<Do<J>>(&mut self.seat, 1 + box_no as usize, 1),
            TokenOp::Change { from, to } => {
                words.compare_exchange::<Do<J>>(&mut self.seat, 3, word_of(from), word_of(to))
            }
            TokenOp::Move { to } => words.swap::<Do<J>>(&mut self.seat, 3, word_of(to)),
            TokenOp::Look => words.load::<Do<J>>(&mut self.seat, 3),
        }
    }

    /// Does the operation that a call of this post's box takes next, on its one word, and gives the word that it found.
    pub fn step(&mut self, line: &TokenLine, box_no: u32, act: TokenAct, op: TokenOp) -> u64
        requires line { self.old.seat.table_id ≡ line.now.table.shared.table_id }
        requires sits { Sits line.now.table.shared.key self.old.seat.me.0 }
        requires may { MayStep line.now.table.shared.key box_no act self.old.seat.me.0 }
        requires op { op ≡ op_by line.now.table.shared.key box_no act self.old.seat.me.0 }
        ensures same { self.new.seat.table_id ≡ self.old.seat.table_id }
        ensures told { Stepped line.now.table.shared.key box_no act self.old.seat.me.0 result self.new.seat.me.0 }
    {
        self.step_as::<Brand>(line, box_no, act, op)
    }
}
