//! The operations of calls, each on one word.
ghost use Rattle.std.specs.Prelude.{◌≡◌, false, length};
ghost use Rattle.line_plan.specs.Sections.{IsSection};
ghost use Rattle.word_laws.specs.WordPlaces.{word_place};
ghost use Rattle.line_law.specs.declared.link.Link.TheVariants.{Out};
ghost use Rattle.instrument_rule.specs.Calls.{MayStep, OpFits, Sits, block_on, looks_by, op_word};
ghost use Rattle.instrument_rule.specs.Posts.{plan_of, view_of};
ghost use Rattle.instrument_rule.specs.Told.{Saw, Tells};
ghost use Rattle.instrument_rule.specs.Views.{caller_of};

use crate::line::Line;
use crate::plays::{Asking, Do, Glance, Glancing};
use crate::post::{Post, or_zero};
use block_words::{COUNT_MASK, SPENT_BIT, WordOp};
use line_law::{Call, Link};
use line_plan::Section;
use std::marker::Brand;

impl Post {
    // One operation for a call of this box, on its one word.
    fn step_as<J: Asking>(
        &mut self,
        line: &Line,
        box_no: u32,
        call: &Call,
        op: WordOp,
        last: bool,
    ) -> u64
        requires line { self.old.seat.table_id ≡ line.now.table.shared.table_id }
        requires plan { J.plan ≡ plan_of line.now }
        requires box_no { box_no ≡ caller_of (view_of self.old).posts }
        requires call { J.call ≡ call.now }
        requires op { J.op ≡ op }
        requires last { J.last ≡ last }
        requires sits { Sits J.plan (view_of self.old) }
        requires may { MayStep J.plan J.call (view_of self.old) }
        requires fits { OpFits J.plan (caller_of (view_of self.old).posts) J.call J.op (view_of self.old) }
        ensures same { self.new.seat.table_id ≡ self.old.seat.table_id }
        ensures posts { (view_of self.new).posts ≡ (view_of self.old).posts }
        ensures told { Tells J.plan J.call J.op J.last (view_of self.old) result (view_of self.new) }
    {
        let _last = last;
        let word = line.place(box_no, call.act, op);
        let words = &line.table.shared;
        match op {
            WordOp::Local => words.fetch_add::<Do<J>>(&mut self.seat, word, 1),
            WordOp::Ring {
                side: _,
                expect,
                new,
            } => words.compare_exchange::<Do<J>>(&mut self.seat, word, expect, new),
            WordOp::Hear { side: _ } => words.fetch_and::<Do<J>>(&mut self.seat, word, COUNT_MASK),
            WordOp::Turn { way: _, new } => words.swap::<Do<J>>(&mut self.seat, word, new),
            WordOp::Pull { way: _ } => words.fetch_or::<Do<J>>(&mut self.seat, word, SPENT_BIT),
            WordOp::Enter { way: _, bits } => words.fetch_or::<Do<J>>(&mut self.seat, word, bits),
            WordOp::TakeOut { way: _, mask } => {
                words.fetch_and::<Do<J>>(&mut self.seat, word, mask)
            }
            WordOp::LookBell { side: _ }
            | WordOp::LookBlock { way: _ }
            | WordOp::LookSection { way: _ } => words.load::<Do<J>>(&mut self.seat, word),
        }
    }

    /// Does one operation for a call of the post's first box, on its one word, and gives the old word. The call's entry
    /// is made exactly where the call is decided there; `last` says that no further look follows. It takes no memory
    /// and waits for nobody.
    pub fn step(&mut self, line: &Line, call: &Call, op: WordOp, last: bool) -> u64
        requires line { self.old.seat.table_id ≡ line.now.table.shared.table_id }
        requires sits { Sits (plan_of line.now) (view_of self.old) }
        requires may { MayStep (plan_of line.now) call.now (view_of self.old) }
        requires op { OpFits (plan_of line.now) (caller_of (view_of self.old).posts) call.now op (view_of self.old) }
        ensures same { self.new.seat.table_id ≡ self.old.seat.table_id }
        ensures posts { (view_of self.new).posts ≡ (view_of self.old).posts }
        ensures told { Tells (plan_of line.now) call.now op last (view_of self.old) result (view_of self.new) }
    {
        let box_no = or_zero(self.first);
        self.step_as::<Brand>(line, box_no, call, op, last)
    }

    /// The place of the word on which the post's first box does an operation for a call.
    pub fn place(&self, line: &Line, call: &Call, op: WordOp) -> usize
        ensures { result ≡ word_place (length (plan_of line.now).boxes)
            (op_word (caller_of (view_of self.now).posts) call.now.act op) }
    {
        line.place(or_zero(self.first), call.act, op)
    }

    // A look of an await at the word that has this place.
    fn look_as<J: Asking>(&mut self, line: &Line, place: usize, call: &Call, op: WordOp) -> u64
        requires line { self.old.seat.table_id ≡ line.now.table.shared.table_id }
        requires plan { J.plan ≡ plan_of line.now }
        requires call { J.call ≡ call.now }
        requires op { J.op ≡ op }
        requires look { looks_by J.call.act J.op ≡ 1 }
        requires place { place ≡ word_place (length (plan_of line.now).boxes)
            (op_word (caller_of (view_of self.old).posts) J.call.act J.op) }
        requires sits { Sits J.plan (view_of self.old) }
        requires may { MayStep J.plan J.call (view_of self.old) }
        requires fits { OpFits J.plan (caller_of (view_of self.old).posts) J.call J.op (view_of self.old) }
        ensures same { self.new.seat.table_id ≡ self.old.seat.table_id }
        ensures posts { (view_of self.new).posts ≡ (view_of self.old).posts }
        ensures told { Tells J.plan J.call J.op J.last (view_of self.old) result (view_of self.new) }
    {
        let (_call, _op) = (*call, op);
        line.table.shared.load::<Do<J>>(&mut self.seat, place)
    }

    /// A look of an await that isn't its last, at the word that has this place. It is what [`step`](Post::step) does
    /// for it, by one load alone, so that many looks may follow one another at once.
    #[inline(always)]
    pub fn look_at(&mut self, line: &Line, place: usize, call: &Call, op: WordOp) -> u64
        requires line { self.old.seat.table_id ≡ line.now.table.shared.table_id }
        requires look { looks_by call.now.act op ≡ 1 }
        requires place { place ≡ word_place (length (plan_of line.now).boxes)
            (op_word (caller_of (view_of self.old).posts) call.now.act op) }
        requires sits { Sits (plan_of line.now) (view_of self.old) }
        requires may { MayStep (plan_of line.now) call.now (view_of self.old) }
        requires op { OpFits (plan_of line.now) (caller_of (view_of self.old).posts) call.now op (view_of self.old) }
        ensures same { self.new.seat.table_id ≡ self.old.seat.table_id }
        ensures posts { (view_of self.new).posts ≡ (view_of self.old).posts }
        ensures told { Tells (plan_of line.now) call.now op false (view_of self.old) result (view_of self.new) }
    {
        self.look_as::<Brand>(line, place, call, op)
    }

    // A look at the instrument of a section.
    fn glance_as<J: Glancing>(&mut self, line: &Line, section: Section) -> u64
        requires line { self.old.seat.table_id ≡ line.now.table.shared.table_id }
        requires plan { J.plan ≡ plan_of line.now }
        requires word { J.word ≡ block_on section.rear (Out section.way) }
        requires sits { Sits J.plan (view_of self.old) }
        requires section { IsSection (plan_of line.now) section }
        ensures same { self.new.seat.table_id ≡ self.old.seat.table_id }
        ensures posts { (view_of self.new).posts ≡ (view_of self.old).posts }
        ensures told { Saw J.plan J.word 1 1 (view_of self.old).room (view_of self.old) result (view_of self.new) }
    {
        let word = line.block(section.rear, Link::Out(section.way));
        line.table.shared.load::<Glance<J>>(&mut self.seat, word)
    }

    /// Looks at the instrument of a section, for no call; the post need hold no box. It has then seen a legal history
    /// of the line that begins with all that it had seen and has no other entry of its boxes, and the word that it
    /// gives is the instrument's after that. It counts as a look and as a glance. It makes no entry, takes no memory
    /// and waits for nobody.
    pub fn glance(&mut self, line: &Line, section: Section) -> u64
        requires line { self.old.seat.table_id ≡ line.now.table.shared.table_id }
        requires sits { Sits (plan_of line.now) (view_of self.old) }
        requires section { IsSection (plan_of line.now) section }
        ensures same { self.new.seat.table_id ≡ self.old.seat.table_id }
        ensures posts { (view_of self.new).posts ≡ (view_of self.old).posts }
        ensures told { Saw (plan_of line.now) (block_on section.rear (Out section.way)) 1 1
            (view_of self.old).room (view_of self.old) result (view_of self.new) }
    {
        self.glance_as::<Brand>(line, section)
    }
}
