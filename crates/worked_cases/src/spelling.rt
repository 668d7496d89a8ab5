//! What the lines of cases and rows spell.

ghost use Rattle.std.specs.Prelude.{◌<◌, length, IfOk};

use crate::case_fault::CaseFault;
use std::alloc::{AllocError, Global};

// How many lines are put behind a text at a time, where many are the same.
const BLOCK: u64 = 1024;

fn hex_digit(digit: u8) -> Result<u8, CaseFault>
    ensures { IfOk result (λ n. n < 16) }
{
    match digit {
        b'0'..=b'9' => Ok(digit - b'0'),
        b'A'..=b'F' => Ok(digit - b'A' + 10),
        b'a'..=b'f' => Ok(digit - b'a' + 10),
        _ => Err(CaseFault::Backslash),
    }
}

// The byte for which a backslash and what stands behind it stand, and what comes after that.
fn escaped(behind: &[u8]) -> Result<(u8, &[u8]), CaseFault>
    ensures { IfOk result (λ found. length found.1.now < length behind.now) }
{
    match behind {
        [b'n', rest @ ..] => Ok((b'\n', rest)),
        [b't', rest @ ..] => Ok((b'\t', rest)),
        [b'r', rest @ ..] => Ok((b'\r', rest)),
        [b'\\', rest @ ..] => Ok((b'\\', rest)),
        [b'x', high, low, rest @ ..] => Ok((hex_digit(*high)? * 16 + hex_digit(*low)?, rest)),
        _ => Err(CaseFault::Backslash),
    }
}

// Puts the bytes behind a text that a part of a line spells, but a backslash that stands last. Whether one does.
fn spell_bytes(text: &mut Vec<u8>, part: &str) -> Result<bool, CaseFault> {
    let mut rest = part.as_bytes();
    while let Some((first, behind)) = rest.split_first() {
        if *first != b'\\' {
            text.push(*first)?;
            rest = behind;
        } else if behind.is_empty() {
            return Ok(true);
        } else {
            let (byte, after) = escaped(behind)?;
            text.push(byte)?;
            rest = after;
        }
    }
    Ok(false)
}

/// Puts the bytes behind a text that a part of a row spells.
pub fn spell_part(text: &mut Vec<u8>, part: &str) -> Result<(), CaseFault> {
    if spell_bytes(text, part)? {
        return Err(CaseFault::Backslash);
    }
    Ok(())
}

/// Puts what a line spells behind a text: its bytes and its end, or where a backslash stands last, no end.
pub fn spell_line(text: &mut Vec<u8>, line: &str) -> Result<(), CaseFault> {
    if !spell_bytes(text, line)? {
        text.push(b'\n')?;
    }
    Ok(())
}

// The line with the number in the place of each `#`.
fn numbered(alloc: Global, line: &str, number: u64) -> Result<String, CaseFault> {
    let mut out = String::new(alloc);
    for (before, piece) in line.split('#').enumerate() {
        if before > 0 {
            write!(out, "{number}")?;
        }
        out.push_str(piece)?;
    }
    Ok(out)
}

fn put_times(text: &mut Vec<u8>, piece: &[u8], times: u64) -> Result<(), AllocError> {
    for _ in 0..times {
        text.extend_from_slice(piece)?;
    }
    Ok(())
}

// The same line so many times, a block at a time.
fn put_copies(
    alloc: Global,
    text: &mut Vec<u8>,
    line: &[u8],
    times: u64,
) -> Result<(), AllocError> {
    let mut block = Vec::new(alloc);
    put_times(&mut block, line, BLOCK)?;
    put_times(text, &block, times / BLOCK)?;
    put_times(text, line, times % BLOCK)
}

// Puts the same line behind a text so many times.
fn spell_copies(
    alloc: Global,
    text: &mut Vec<u8>,
    line: &str,
    times: u64,
) -> Result<(), CaseFault> {
    let mut spelled = Vec::new(alloc);
    spell_line(&mut spelled, line)?;
    Ok(put_copies(alloc, text, &spelled, times)?)
}

// Puts a line behind a text, with the number in the place of each `#`.
fn spell_numbered(
    alloc: Global,
    text: &mut Vec<u8>,
    line: &str,
    number: u64,
) -> Result<(), CaseFault> {
    let line = numbered(alloc, line, number)?;
    spell_line(text, line.as_str())
}

/// Puts so many lines behind a text, each with its number from 1 in the place of each `#`.
pub fn spell_times(
    alloc: Global,
    text: &mut Vec<u8>,
    line: &str,
    times: u64,
) -> Result<(), CaseFault> {
    if !line.contains('#') {
        return spell_copies(alloc, text, line, times);
    }
    for number in 1..=times {
        spell_numbered(alloc, text, line, number)?;
    }
    Ok(())
}
