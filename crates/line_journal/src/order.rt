//! The journal, where its entries stand in the registers.

ghost use Rattle.std.specs.Prelude.{◌≡◌, ◌<◌, ◌≤◌, ◌∷◌, [], All, IfOk, length, map, option_copied, take};
ghost use Rattle.line_journal.specs.Order.{lists_of};
ghost use Rattle.line_journal.specs.Walks.{IsNextOf, IsWalk, walked};
ghost use Rattle.train_register.specs.Registers.{AreParts};

use crate::remaining::Remaining;
use line_law::Entry;
use line_plan::Plan;
use rail_text::NoMemory;
use std::alloc::Global;
use std::marker::Model;
use train_register::Register;

/// The entries of a journal, where they stand in the registers of its line: it is told of each only whose next entry it
/// is. Contracts see the entries.
#[derive(Drop)]
pub struct Merged<'a> {
    registers: &'a [Register],
    // a byte each, since a plan has at most 64 boxes
    boxes: Vec<u8>,
}

impl<'a> Model for Merged<'a> {
    ghost use Rattle.std.specs.Prelude.{List};
    ghost use Rattle.line_law.specs.declared.call.Entry.{Entry};
    ghost use Rattle.line_journal.specs.Order.{lists_of};
    ghost use Rattle.line_journal.specs.Walks.{IsWalk, walked};

    ghost Value = { List Entry };

    ghost view = { λ merged. walked (lists_of merged.registers.now) merged.boxes.items };

    ghost invariant = { λ merged. IsWalk (lists_of merged.registers.now) merged.boxes.items };
}

impl<'a> Merged<'a> {
    /// The entries of these boxes of the registers, one after another.
    pub(crate) fn new(registers: &'a [Register], boxes: Vec<u8>) -> Merged<'a>
        requires { IsWalk (lists_of registers.now) boxes.items }
        ensures { result ≡ walked (lists_of registers.now) boxes.items }
    {
        Merged { registers, boxes }
    }

    /// The same entries as a journal has, of which the registers are the parts.
    pub fn of_parts(
        alloc: Global,
        plan: &Plan,
        registers: &'a [Register],
        entries: &[Entry],
    ) -> Result<Merged<'a>, NoMemory>
        requires parts { AreParts plan.now entries.now registers.now }
        requires boxes { All (λ e. e.box_no < length plan.now.boxes) entries.now }
        ensures { IfOk result (λ merged. merged ≡ entries.now) }
    {
        plan.meets_conditions();
        let boxes = boxes_of(alloc, entries)?;
        Ok(Merged::new(registers, boxes))
    }

    /// How many entries there are.
    #[tactic(auto, using(crate::proofs::Walks::walked_length))]
    pub fn len(&self) -> usize
        ensures { result ≡ length self.now }
    {
        self.boxes.len()
    }

    /// Goes along the first so many of them.
    #[tactic(auto, using(crate::proofs::Walks::walk_rules))]
    pub fn walk_front(&self, alloc: Global, many: usize) -> Result<Walk<'_>, NoMemory>
        requires { many ≤ length self.now }
        ensures { IfOk result (λ walk. walk ≡ take many self.now) }
    {
        let left = Remaining::new(alloc, self.registers)?;
        let boxes = &self.boxes[..many];
        Ok(Walk { left, boxes })
    }

    /// Goes along them all.
    pub fn walk(&self, alloc: Global) -> Result<Walk<'_>, NoMemory>
        ensures { IfOk result (λ walk. walk ≡ self.now) }
    {
        let left = Remaining::new(alloc, self.registers)?;
        Ok(Walk {
            left,
            boxes: &self.boxes,
        })
    }
}

// The boxes of these entries.
fn boxes_of(alloc: Global, entries: &[Entry]) -> Result<Vec<u8>, NoMemory>
    requires { All (λ e. e.box_no < 256) entries.now }
    ensures { IfOk result (λ boxes. boxes.items ≡ map (λ e. e.box_no) entries.now) }
{
    let mut boxes = Vec::with_capacity(alloc, entries.len())?;
    for entry in entries {
        boxes.push(entry.box_no as u8)?;
    }
    Ok(boxes)
}

/// Goes along the entries of a journal, one after another. Contracts see those that are ahead.
#[derive(Drop)]
pub struct Walk<'a> {
    left: Remaining<'a>,
    boxes: &'a [u8],
}

impl<'a> Model for Walk<'a> {
    ghost use Rattle.std.specs.Prelude.{List};
    ghost use Rattle.line_law.specs.declared.call.Entry.{Entry};
    ghost use Rattle.line_journal.specs.Walks.{IsWalk, walked};

    ghost Value = { List Entry };

    ghost view = { λ walk. walked walk.left walk.boxes.now };

    ghost invariant = { λ walk. IsWalk walk.left walk.boxes.now };
}

impl<'a> Walk<'a> {
    /// The next entry, where it stands, if one is ahead.
    pub fn next(&mut self) -> Option<&'a Entry>
        ensures { IsNextOf self.old (option_copied result) self.new }
    {
        let [box_no, boxes @ ..] = self.boxes else {
            return None;
        };
        let box_no = *box_no as usize;
        let entry = &self.left.of_box(box_no)[0];
        self.left.place_next(box_no);
        self.boxes = boxes;
        Some(entry)
    }
}
