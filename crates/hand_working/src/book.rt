//! His register so far, and his last refused call.

ghost use Rattle.std.specs.Prelude.{◌≡◌, ◌+◌, ◌<◌, ◌≤◌, ◌++◌, ◌∷◌, [], All, IfOk, IfSome, length, string_bytes};
ghost use Rattle.line_law.specs.History.{part_of};
ghost use Rattle.script_text.specs.Entries.{IsSpelled};
ghost use Rattle.train_register.specs.Registers.{register_text};
ghost use Rattle.hand_working.specs.Duties.{doings_of, journal_at, post_of};

use crate::duty::Duty;
use line_law::{Entry, Journal, is_refused};
use line_plan::{Items, Plan};
use rail_text::NoMemory;
use std::alloc::Global;
use train_register::{Ended, Register, put_registers};

// Enters an entry, where it is of this box.
fn enter(register: &mut Register, entry: &Entry)
    requires { 0 < register.old.spare }
    ensures box_no { register.new.box_no ≡ register.old.box_no }
    ensures entries { register.new.entries ≡ register.old.entries ++ part_of register.old.box_no (entry.now ∷ []) }
    ensures spare { register.old.spare ≤ register.new.spare + 1 }
{
    if entry.box_no == register.box_no() {
        register.push(*entry);
    }
}

// The register of a box: its entries of these, in order.
fn register_of(alloc: Global, box_no: u32, entries: &[Entry]) -> Result<Register, NoMemory>
    ensures box_no { IfOk result (λ register. register.box_no ≡ box_no) }
    ensures entries { IfOk result (λ register. register.entries ≡ part_of box_no entries.now) }
{
    let mut register = Register::new(alloc, box_no, entries.len())?;
    for entry in entries {
        enter(&mut register, entry);
    }
    Ok(register)
}

/// His register so far.
pub(crate) fn book_of(alloc: Global, duty: &Duty<'_>) -> Result<Register, NoMemory>
    ensures box_no { IfOk result (λ register. register.box_no ≡ duty.now.session.box_no) }
    ensures entries { IfOk result (λ register. register.entries
        ≡ part_of duty.now.session.box_no (journal_at (post_of duty.now) (doings_of duty.now))) }
    ensures at { duty.now.session.box_no < length duty.now.session.plan.boxes }
    ensures spelled { IfOk result (λ register. All (IsSpelled duty.now.session.plan) register.entries) }
{
    let session = duty.session();
    session.meets_conditions();
    duty.is_spelled();
    register_of(alloc, session.box_no(), session.journal())
}

/// The journal so far, by itself.
pub(crate) fn journal_of(alloc: Global, duty: &Duty<'_>) -> Result<Journal, NoMemory>
    ensures { IfOk result (λ journal. journal.entries ≡ journal_at (post_of duty.now) (doings_of duty.now)) }
{
    let entries = Vec::from_slice(alloc, duty.session().journal())?;
    Ok(Journal {
        entries: Items::from_vec(entries),
    })
}

// One register alone.
fn alone(alloc: Global, register: Register) -> Result<Ended, NoMemory>
    ensures { IfOk result (λ ended. ended.registers ≡ register ∷ []) }
{
    let mut registers = Vec::new(alloc);
    registers.push(register)?;
    Ok(Ended {
        registers: Items::from_vec(registers),
    })
}

// Puts a register behind a text.
fn put_register(
    alloc: Global,
    plan: &Plan,
    register: Register,
    out: &mut String,
) -> Result<(), NoMemory>
    requires at { register.box_no < length plan.now.boxes }
    requires spelled { All (IsSpelled plan.now) register.entries }
    ensures { IfOk result (λ _. string_bytes out.new
        ≡ string_bytes out.old ++ register_text plan.now register.box_no register.entries) }
{
    let ended = alone(alloc, register)?;
    put_registers(out, plan, &ended)?;
    drop(ended);
    Ok(())
}

/// Puts his register so far behind a text.
pub(crate) fn put_book(alloc: Global, duty: &Duty<'_>, out: &mut String) -> Result<(), NoMemory>
    ensures { IfOk result (λ _. string_bytes out.new ≡ string_bytes out.old
        ++ register_text duty.now.session.plan duty.now.session.box_no
        (part_of duty.now.session.box_no (journal_at (post_of duty.now) (doings_of duty.now)))) }
{
    let register = book_of(alloc, duty)?;
    put_register(alloc, duty.session().plan(), register, out)
}

/// His last refused call, if there is one.
pub(crate) fn last_refused(alloc: Global, duty: &Duty<'_>) -> Result<Option<Entry>, NoMemory>
    ensures { IfOk result (λ last. IfSome last (λ entry. IsSpelled duty.now.session.plan entry)) }
{
    let register = book_of(alloc, duty)?;
    let mut last = None;
    for entry in register.entries() {
        if is_refused(&entry.reply) {
            last = Some(*entry);
        }
    }
    drop(register);
    Ok(last)
}
