//! One assertion for many facts.
//!
//! An assertion is proved at each place where it stands, with all that the test then owns; a comparison costs next to
//! nothing. So a test lists its facts and asserts them together.

use std::alloc::Global;
use std::fmt::{Debug, Display};
use std::process::Abort;

/// Ends the test with the name of a fact that does not hold.
pub fn hold(rt: &impl Abort, name: &str, holds: bool) {
    assert!(rt; holds, "not so: {name}");
}

/// Ends the test at the first of the facts that does not hold, with its name.
pub fn all_hold(rt: &impl Abort, facts: &[(&str, bool)]) {
    for (name, holds) in facts {
        hold(rt, name, *holds);
    }
}

/// Compares two values by the bounds that they meet.
pub fn are_equal<T: Eq + Debug>(one: &T, other: &T) -> bool {
    one == other
}

/// Whether a value is printed as this text.
pub fn is_shown<T: Display>(rt: &impl Abort, alloc: Global, value: &T, text: &str) -> bool {
    let shown = format!(in alloc; "{value}").expect(rt, "memory");
    shown.as_str() == text
}

/// Whether a value is printed as this text for a programmer.
pub fn is_debugged<T: Debug>(rt: &impl Abort, alloc: Global, value: &T, text: &str) -> bool {
    let shown = format!(in alloc; "{value:?}").expect(rt, "memory");
    shown.as_str() == text
}
