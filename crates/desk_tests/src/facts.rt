//! What a test tells. An assertion is proved where it stands, with all that its function then owns, so what holds is
//! gathered first and asserted here.

use std::process::Abort;

/// Ends the test where a fact doesn't hold, and names it.
pub fn holds(rt: &impl Abort, fact: &str, is_so: bool) {
    assert!(rt; is_so, "not so: {fact}");
}
