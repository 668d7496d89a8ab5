//! The shared words of a line, and where each stands.
ghost use Rattle.std.specs.Prelude.{◌≡◌, ◌≤◌, ◌<◌, ◌+◌, ◌*◌, ◌^◌, ℕ, length};
ghost use Rattle.std.proofs.Props.{props};
ghost use Rattle.line_plan.specs.Plans.{IsPlan};
ghost use Rattle.line_law.specs.Links.{pair_no, way_of};
ghost use Rattle.line_law.specs.Replies.{way_number};
ghost use Rattle.word_laws.specs.WordPlaces.{word_count, word_place};
ghost use Rattle.instrument_rule.specs.Calls.{bell_on, block_on, line_on, look_link, op_word};

use crate::view::{OneHistory, View};
use atomic_table::Table;
use block_words::{Way, WordOp};
use line_law::{Act, Link};
use line_plan::Plan;
use std::alloc::Global;

pub type Words = Table<(), View, Plan, OneHistory, Global>;

/// The shared words of a line, one table under one rule. Contracts see the plan of the line as the table's key.
#[derive(Drop)]
pub struct Line {
    pub(crate) table: Words,
    pub(crate) boxes: u32,
    pub ghost is_plan: { IsPlan table.shared.key } by { Prim.hlevel props },
    pub ghost sized: { (boxes ≡ length table.shared.key.boxes) × (2 ≤ boxes) × (boxes ≤ 64) },
    pub ghost wide: { table.shared.table_id.words ≡ word_count (length table.shared.key.boxes) },
}

// The place of a word of one of a box's lines, among the words of its kind.
fn place_on(box_no: u32, link: Link) -> usize
    ensures place { result ≡ 2 * pair_no box_no link + way_number (way_of link) }
    ensures small { result < 2 ^ 34 }
{
    let own = box_no as usize;
    match link {
        Link::Out(Way::Up) => 2 * own.saturating_sub(1),
        Link::Out(Way::Down) => 2 * own + 1,
        Link::In(Way::Up) => 2 * own,
        Link::In(Way::Down) => 2 * own.saturating_sub(1) + 1,
    }
}

// The line of a box on which a section is looked at for a call.
fn look_link(act: Act, way: Way) -> Link
    ensures { result ≡ look_link act way }
{
    match act {
        Act::Pass { lever: _ } | Act::Overrun { lever: _ } => Link::Out(way),
        _ => Link::In(way),
    }
}

impl Line {
    ghost use Rattle.instrument_rule.specs.Posts.{plan_of};

    // The place of the bell of a box on one of its lines.
    fn bell(&self, box_no: u32, link: Link) -> usize
        ensures { result ≡ word_place (length (plan_of self.now).boxes) (bell_on box_no link) }
    {
        1 + self.boxes as usize + place_on(box_no, link)
    }

    // The place of its instrument there.
    pub(crate) fn block(&self, box_no: u32, link: Link) -> usize
        ensures { result ≡ word_place (length (plan_of self.now).boxes) (block_on box_no link) }
    {
        let boxes = self.boxes as usize;
        1 + boxes + 2 * (boxes - 1) + place_on(box_no, link)
    }

    // The place of its section there.
    fn section(&self, box_no: u32, link: Link) -> usize
        ensures { result ≡ word_place (length (plan_of self.now).boxes) (line_on box_no link) }
    {
        let boxes = self.boxes as usize;
        1 + boxes + 4 * (boxes - 1) + place_on(box_no, link)
    }

    // The place of the word on which a box does an operation for a call.
    pub(crate) fn place(&self, box_no: u32, act: Act, op: WordOp) -> usize
        ensures { result ≡ word_place (length (plan_of self.now).boxes) (op_word box_no act op) }
    {
        match op {
            WordOp::Local => 1 + box_no as usize,
            WordOp::Ring {
                side,
                expect: _,
                new: _,
            } => self.bell(box_no, Link::Out(side)),
            WordOp::Hear { side } | WordOp::LookBell { side } => {
                self.bell(box_no, Link::In(side.opposite()))
            }
            WordOp::Turn { way, new: _ } => self.block(box_no, Link::In(way)),
            WordOp::Pull { way } | WordOp::LookBlock { way } => self.block(box_no, Link::Out(way)),
            WordOp::LookSection { way } => self.section(box_no, look_link(act, way)),
            WordOp::Enter { way, bits: _ } => self.section(box_no, Link::Out(way)),
            WordOp::TakeOut { way, mask: _ } => self.section(box_no, Link::In(way)),
        }
    }
}
