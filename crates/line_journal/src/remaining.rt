//! The entries of the registers that remain.

ghost use Rattle.std.specs.Prelude.{◌≡◌, ◌≤◌, drop, length};

use line_law::Entry;
use rail_text::NoMemory;
use std::alloc::Global;
use std::marker::Model;
use train_register::Register;

// The entries behind so many.
fn behind(entries: &[Entry], count: usize) -> &[Entry]
    requires { count ≤ length entries.now }
    ensures { result.now ≡ drop count entries.now }
{
    &entries[count..]
}

/// The entries of each register of a line that remain, where they stand in it. Contracts see them, box by box.
#[derive(Drop)]
pub struct Remaining<'a> {
    lists: Vec<&'a [Entry]>,
}

impl<'a> Model for Remaining<'a> {
    ghost use Rattle.std.specs.Prelude.{List, map};
    ghost use Rattle.line_law.specs.declared.call.Entry.{Entry};

    ghost Value = { List (List Entry) };

    ghost view = { λ left. map (λ list. list.now) left.lists.items };
}

impl<'a> Remaining<'a> {
    ghost use Rattle.std.specs.Prelude.{◌≡◌, ◌<◌, ◌≤◌, ◌-◌, ◌^◌, IfOk, length, min};
    ghost use Rattle.line_journal.specs.Lists.{count_left};
    ghost use Rattle.line_journal.specs.Order.{list_at, lists_of, placed, placed_some};

    /// Nothing is placed.
    pub fn new(alloc: Global, registers: &'a [Register]) -> Result<Remaining<'a>, NoMemory>
        ensures { IfOk result (λ left. left ≡ lists_of registers.now) }
    {
        let mut lists = Vec::with_capacity(alloc, registers.len())?;
        for register in registers {
            lists.push(register.entries())?;
        }
        Ok(Remaining { lists })
    }

    /// How many boxes there are.
    pub fn boxes(&self) -> usize
        ensures { result ≡ length self.now }
    {
        self.lists.len()
    }

    /// How many entries remain, as far as a number can tell it.
    pub fn count(&self) -> usize
        ensures { result ≡ min (count_left self.now) (2 ^ 64 - 1) }
    {
        let mut count = 0usize;
        for box_no in 0..self.boxes() {
            count = count.saturating_add(self.of_box(box_no).len());
        }
        count
    }

    /// The entries of a box that remain.
    pub fn of_box(&self, box_no: usize) -> &'a [Entry]
        requires { box_no < length self.now }
        ensures { result.now ≡ list_at self.now box_no }
    {
        self.lists[box_no]
    }

    /// Places the next entry of a box, which has one left.
    pub fn place_next(&mut self, box_no: usize)
        requires box_no { box_no < length self.old }
        requires some { 0 < length (list_at self.old box_no) }
        ensures { self.new ≡ placed self.old box_no }
    {
        self.place_some(box_no, 1);
    }

    /// Places so many next entries of a box, which has them left.
    pub fn place_some(&mut self, box_no: usize, many: usize)
        requires box_no { box_no < length self.old }
        requires some { many ≤ length (list_at self.old box_no) }
        ensures { self.new ≡ placed_some self.old box_no many }
    {
        self.lists[box_no] = behind(self.of_box(box_no), many);
    }
}
