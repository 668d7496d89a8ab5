//! One assertion for many facts, and texts on a shelf.

use rail_text::{MemShelf, NoMemory};
use std::alloc::Global;
use std::process::Abort;

/// Ends the test with the name of a fact that does not hold.
pub fn hold(rt: &impl Abort, name: &str, holds: bool) {
    assert!(rt; holds, "not so: {name}");
}

/// Ends the test at the first of the facts that does not hold, with its name.
pub fn all_hold(rt: &impl Abort, facts: &[(&str, bool)]) {
    for (name, holds) in facts {
        hold(rt, name, *holds);
    }
}

/// A shelf of these texts, none of whose calls fails.
pub fn shelf_of(alloc: Global, texts: &[(&str, &str)]) -> Result<MemShelf, NoMemory> {
    let mut held = Vec::new(alloc);
    for (name, text) in texts {
        let name = String::from_str(alloc, name)?;
        let bytes = Vec::from_slice(alloc, text.as_bytes())?;
        held.push((name, bytes))?;
    }
    Ok(MemShelf::new(held, Vec::new(alloc)))
}
