//! The work of a row.

use crate::answers::put_answer;
use crate::case_fault::CaseFault;
use crate::row_line::RowLine;
use crate::spelling::spell_part;
use std::alloc::Global;
use std::rt::Files;
use std::str;

// Puts the answer of a call behind a text, where its argument is a text.
fn answer_to<R: Files + AllocGlobal>(
    rt: &R,
    out: &mut String,
    plans: &str,
    call: &str,
    argument: &[u8],
) -> Result<(), CaseFault> {
    match str::from_utf8(argument) {
        Ok(argument) => put_answer(rt, out, plans, call, argument),
        Err(_) => Err(CaseFault::Argument),
    }
}

/// Puts the answer to a row behind a text. The plans lie in the folder of this name.
pub fn answer<R: Files + AllocGlobal>(
    rt: &R,
    out: &mut String,
    plans: &str,
    row: RowLine<'_>,
) -> Result<(), CaseFault> {
    let mut argument = Vec::new(rt.alloc());
    let mut done = spell_part(&mut argument, row.argument);
    if done.is_ok() {
        done = answer_to(rt, out, plans, row.call, &argument);
    }
    drop(argument);
    done
}

/// Whether a row wants this answer.
pub fn is_wanted(alloc: Global, row: RowLine<'_>, came: &str) -> Result<bool, CaseFault> {
    let mut wanted = Vec::new(alloc);
    let done = spell_part(&mut wanted, row.wanted);
    let is_so = wanted.as_slice() == came.as_bytes();
    drop(wanted);
    done?;
    Ok(is_so)
}
