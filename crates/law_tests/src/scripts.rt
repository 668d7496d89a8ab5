//! The laws of scripts, and numbers that are put behind a text. Calls, scripts and moments are worked rows.

use crate::facts::all_hold;
use script_text::{calls_law, moments_law, put_number, replies_law, scripts_law};
use std::alloc::AllocError;

// Three numbers with spaces between them.
fn put_three(text: &mut String) -> Result<(), AllocError> {
    put_number(text, 7)?;
    text.push(' ')?;
    put_number(text, 10)?;
    text.push(' ')?;
    put_number(text, u64::MAX)
}

#[test]
fn numbers_are_put(rt: HostRuntime) {
    let mut text = String::new(rt.alloc());
    let done = put_three(&mut text);
    let is_put = text.as_str() == "7 10 18446744073709551615";
    drop(text);
    all_hold(&rt, &[("three numbers", is_put && done.is_ok())]);
}

#[test]
fn laws_hold() {
    moments_law();
    calls_law();
    replies_law();
    scripts_law();
}
