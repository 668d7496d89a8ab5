//! How much room the texts of an output take.

use line_law::{Entry, is_refused};
use rail_text::NoMemory;
use std::alloc::Global;
use train_register::Register;

// How much longer a line of the journal is than the register's, with a box's name and a number of more digits.
const LONGER: usize = 9;

// How many bytes a line of an entry has, about, and one that tells why a call was refused.
const LINE: usize = 38;

const REFUSED_LINE: usize = 57;

/// How much room so many lines of a journal take, about, where those of the registers take so many bytes.
pub(crate) fn journal_room(lines: usize, registers: usize) -> usize {
    registers.saturating_add(lines.saturating_mul(LONGER))
}

// How many of these entries were refused.
fn refused_of(entries: &[Entry]) -> usize {
    entries
        .iter()
        .filter(|entry| is_refused(&entry.reply))
        .count()
}

// How much room the output of a line with these registers takes, about: each entry has a line in the journal and one in
// its register, and one more where it was refused.
fn output_room(registers: &[Register]) -> usize {
    let mut room = 0usize;
    for register in registers {
        let entries = register.entries();
        let lines = entries.len().saturating_mul(2 * LINE);
        let refused = refused_of(entries).saturating_mul(REFUSED_LINE);
        room = room.saturating_add(lines).saturating_add(refused);
    }
    room
}

/// Room for the whole output of a line with these registers. Each byte of it is written once, since to take the memory
/// is most of what it costs to fill it.
pub(crate) fn make_room(alloc: Global, registers: &[Register]) -> Result<Vec<u8>, NoMemory> {
    Ok(Vec::from_elem(alloc, 0u8, output_room(registers))?)
}
