//! The registers of a line that has ended.

ghost use Rattle.std.specs.Prelude.{◌≡◌, ◌<◌, ◌≤◌, ◌^◌, [], length, vec_len, All, IfOk};
ghost use Rattle.script_text.specs.Entries.{IsSpelled};
ghost use Rattle.train_register.specs.Registers.{AreParts, IsPrintable};
ghost use Rattle.train_register.specs.Filling.{AreFilling, AreOpened, counts_of};

use crate::register::Register;
use line_law::{Entry, Journal};
use line_plan::{Items, Plan};
use rail_text::NoMemory;
use std::alloc::Global;

/// What is left of a line that has ended: what each signalman did.
#[derive(Debug, Drop)]
pub struct Ended {
    /// The registers, one for each box, in the order of the boxes.
    pub registers: Items<Register>,
}

// How many of the entries each of so many boxes has.
fn count_entries(alloc: Global, boxes: usize, entries: &[Entry]) -> Result<Vec<usize>, NoMemory>
    requires { All (λ e. e.box_no < boxes) entries.now }
    ensures each { IfOk result (λ counts. vec_len counts ≡ boxes) }
    ensures counts { IfOk result (λ counts. counts.items ≡ counts_of boxes entries.now) }
{
    let mut counts = vec![in alloc; 0usize; boxes]?;
    for entry in entries {
        counts[entry.box_no as usize] += 1;
    }
    Ok(counts)
}

// A register for each box, in order, with so much room in each.
fn open_registers(alloc: Global, rooms: &[usize]) -> Result<Vec<Register>, NoMemory>
    requires { length rooms.now ≤ 2 ^ 32 }
    ensures each { IfOk result (λ registers. vec_len registers ≡ length rooms.now) }
    ensures opened { IfOk result (λ registers. AreOpened rooms.now registers.items) }
{
    let mut registers = Vec::new(alloc);
    for (box_no, room) in rooms.iter().enumerate() {
        registers.push(Register::new(alloc, box_no as u32, *room)?)?;
    }
    Ok(registers)
}

// Enters each entry into the register of its box, in order.
fn enter_all(registers: &mut [Register], entries: &[Entry])
    requires boxes { All (λ e. e.box_no < length registers.old) entries.now }
    requires empty { AreFilling [] entries.now registers.old }
    ensures { AreFilling entries.now [] registers.new }
{
    for entry in entries {
        let register = &mut registers[entry.box_no as usize];
        register.push(*entry);
    }
}

// The registers of so many boxes, in order: each has the entries of its box.
#[tactic(auto, using(crate::proofs::Counts::filling_none))]
fn registers_of(alloc: Global, boxes: usize, entries: &[Entry]) -> Result<Vec<Register>, NoMemory>
    requires few { boxes ≤ 2 ^ 32 }
    requires boxes { All (λ e. e.box_no < boxes) entries.now }
    ensures each { IfOk result (λ registers. vec_len registers ≡ boxes) }
    ensures filled { IfOk result (λ registers. AreFilling entries.now [] registers.items) }
{
    let counts = count_entries(alloc, boxes, entries)?;
    let mut registers = open_registers(alloc, &counts)?;
    enter_all(&mut registers, entries);
    Ok(registers)
}

impl Ended {
    /// The registers of a journal: each box of the plan has its entries, in order.
    #[tactic(auto, using(crate::proofs::Parts::filled_parts))]
    pub fn of_journal(alloc: Global, plan: &Plan, journal: &Journal) -> Result<Ended, NoMemory>
        requires boxes { All (λ e. e.box_no < length plan.now.boxes) journal.now.entries }
        ensures parts { IfOk result (λ ended. AreParts plan.now journal.now.entries ended.registers) }
        ensures printable { All (IsSpelled plan.now) journal.now.entries
            → IfOk result (λ ended. All (IsPrintable plan.now) ended.registers) }
    {
        let registers = registers_of(alloc, plan.boxes.len(), journal.entries.as_slice())?;
        Ok(Ended {
            registers: Items::from_vec(registers),
        })
    }
}
