//! Registers as they are printed.

ghost use Rattle.std.specs.Prelude.{◌≡◌, ◌<◌, ◌++◌, List, All, IfOk, OnErr, OnOk, length, string_bytes};
ghost use Rattle.std.specs.List.{flat_map};
ghost use Rattle.line_law.specs.declared.call.Entry.{Entry};
ghost use Rattle.script_text.specs.Entries.{IsSpelled};
ghost use Rattle.train_register.specs.Registers.{AreParts, IsPrintable, register_text, registers_text, told_line};
ghost use Rattle.train_register.specs.Registers.{told_lines};

use crate::ended::Ended;
use crate::register::Register;
use line_law::Entry;
use line_plan::Plan;
use rail_text::NoMemory;
use script_text::{put_number, put_text, put_told};
use std::alloc::{AllocError, Global};

// Puts an entry's line behind a text: its number, the moment and the call, `->` and the reply.
#[tactic(auto, unfolding(crate::specs::Registers::told_line))]
fn put_line(out: &mut String, plan: &Plan, number: usize, entry: &Entry) -> Result<(), AllocError>
    requires { IsSpelled plan.now entry.now }
    ensures { OnOk result (string_bytes out.new ≡ string_bytes out.old ++ told_line plan.now number entry.now) }
{
    put_number(out, number as u64)?;
    out.push(' ')?;
    put_told(out, plan, entry)?;
    out.push('\n')
}

// The lines of all entries, numbered from 1.
fn put_lines(out: &mut String, plan: &Plan, entries: &[Entry]) -> Result<(), AllocError>
    requires { All (IsSpelled plan.now) entries.now }
    ensures { OnOk result (string_bytes out.new ≡ string_bytes out.old ++ told_lines plan.now 1 entries.now) }
{
    for (place, entry) in entries.iter().enumerate() {
        put_line(out, plan, place + 1, entry)?;
    }
    Ok(())
}

// A register: its head, and its entries.
#[tactic(auto, unfolding(crate::specs::Registers::register_text))]
fn put_register(out: &mut String, plan: &Plan, register: &Register) -> Result<(), AllocError>
    requires at { register.now.box_no < length plan.now.boxes }
    requires spelled { All (IsSpelled plan.now) register.now.entries }
    ensures { OnOk result (string_bytes out.new
        ≡ string_bytes out.old ++ register_text plan.now register.now.box_no register.now.entries) }
{
    let entries = register.entries();
    let count = entries.len();
    out.push_str("register ")?;
    out.push_str(plan.box_name(register.box_no()))?;
    out.push(' ')?;
    put_number(out, count as u64)?;
    out.push('\n')?;
    put_lines(out, plan, entries)
}

/// A register as it is printed: `register`, its box and the number of its entries, then a line for each entry, numbered
/// from 1: the moment and the call, `->` and the reply, as in `1 10:00 ring down 1 -> rung 1`. Each entry is one that
/// the line can spell, as `is_spelled` of `script_text` tells. A moment is printed as `HH:MM` where the plan has
/// version 1, else as `HH:MM:SS`.
pub fn print_register(alloc: Global, plan: &Plan, register: &Register) -> Result<Vec<u8>, NoMemory>
    requires at { register.now.box_no < length plan.now.boxes }
    requires spelled { All (IsSpelled plan.now) register.now.entries }
    ensures { IfOk result (λ text. text.items ≡ register_text plan.now register.now.box_no register.now.entries) }
{
    let mut out = String::new(alloc);
    put_register(&mut out, plan, register)?;
    Ok(out.into_bytes())
}

// These registers, one after another.
#[tactic(auto, using(rail_text::proofs::Texts::texts))]
fn put_each(out: &mut String, plan: &Plan, registers: &[Register]) -> Result<(), AllocError>
    requires { All (IsPrintable plan.now) registers.now }
    ensures { OnOk result (string_bytes out.new
        ≡ string_bytes out.old ++ flat_map (λ register. register_text plan.now register.box_no register.entries)
        registers.now) }
{
    for register in registers {
        put_register(out, plan, register)?;
    }
    Ok(())
}

// The registers of a line, in the order of the boxes.
fn put_in_order(out: &mut String, plan: &Plan, ended: &Ended) -> Result<(), AllocError>
    requires { All (IsPrintable plan.now) ended.now.registers }
    ensures each { OnOk result
        (string_bytes out.new ≡ string_bytes out.old
        ++ flat_map (λ register. register_text plan.now register.box_no register.entries) ended.now.registers) }
    ensures parts { (es : List Entry) → AreParts plan.now es ended.now.registers
        → OnOk result (string_bytes out.new ≡ string_bytes out.old ++ registers_text plan.now es) }
{
    put_each(out, plan, ended.registers.as_slice())
}

/// Puts the registers of a line behind a text, in the order of the boxes, each as `print_register` prints it. Where
/// memory runs out the text is as it was.
pub fn put_registers(out: &mut String, plan: &Plan, ended: &Ended) -> Result<(), AllocError>
    requires { All (IsPrintable plan.now) ended.now.registers }
    ensures each { OnOk result
        (string_bytes out.new ≡ string_bytes out.old
        ++ flat_map (λ register. register_text plan.now register.box_no register.entries) ended.now.registers) }
    ensures parts { (es : List Entry) → AreParts plan.now es ended.now.registers
        → OnOk result (string_bytes out.new ≡ string_bytes out.old ++ registers_text plan.now es) }
    ensures kept { OnErr result (string_bytes out.new ≡ string_bytes out.old) }
{
    let mut registers = String::new(*out.allocator());
    put_in_order(&mut registers, plan, ended)?;
    put_text(out, registers)
}
