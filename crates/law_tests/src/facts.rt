//! What a test tells. An assertion is proved where it stands, with all that its function then owns, and so is the end
//! of what is owned, wherever a function may be left. So what compares owns little, each value ends in a `drop` of its
//! own, and what holds is asserted here.

use std::alloc::{AllocError, Global};
use std::fmt::Debug;
use std::process::Abort;

/// Ends the test where a fact doesn't hold, and names it.
pub fn holds(rt: &impl Abort, fact: &str, is_so: bool) {
    assert!(rt; is_so, "not so: {fact}");
}

/// Ends the test where a case is wrong, and names it.
pub fn none_is_wrong(rt: &impl Abort, wrong: Option<&str>) {
    assert!(rt; wrong.is_none(), "wrong: {wrong:?}");
}

/// The first of these facts that doesn't hold.
pub fn first_untrue(facts: &[(&'static str, bool)]) -> Option<&'static str> {
    for (fact, is_so) in facts {
        if !*is_so {
            return Some(fact);
        }
    }
    None
}

/// Ends the test at the first of these facts that doesn't hold, and names it.
pub fn all_hold(rt: &impl Abort, facts: &[(&'static str, bool)]) {
    none_is_wrong(rt, first_untrue(facts));
}

/// Does a value show itself so?
pub fn shows_itself<T: Debug>(alloc: Global, value: &T, wanted: &str) -> Result<bool, AllocError> {
    let shown = format!(in alloc; "{value:?}")?;
    let is_wanted = shown.as_str() == wanted;
    drop(shown);
    Ok(is_wanted)
}

/// Are these bytes a printed text?
pub fn is_text(bytes: Vec<u8>, text: &str) -> bool {
    let is_same = bytes.as_slice() == text.as_bytes();
    drop(bytes);
    is_same
}
