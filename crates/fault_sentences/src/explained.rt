//! The form in which the refusal of a text is told.

ghost use Rattle.std.specs.Prelude.{◌≡◌, ◌++◌, ◌∷◌, ◌<◌, ◌-◌, ◌^◌, [], IfOk, OnOk, codes, length, map, option_map};
ghost use Rattle.std.specs.Prelude.{slice_get, string_bytes};
ghost use Rattle.rail_text.specs.Forms.{is_printable};
ghost use Rattle.rail_text.specs.Lines.{lines_of};
ghost use Rattle.fault_sentences.specs.Explained.{at_line, explanation, heading, indented, line_with, shown_byte};
ghost use Rattle.fault_sentences.specs.Explained.{shown_line};

use rail_text::{Cause, Lines, NoMemory, cause_text};
use std::alloc::{AllocError, Global};
use std::fmt::Write;

// Whether the byte may stand in a line.
fn is_printable(byte: u8) -> bool
    ensures { result ≡ is_printable byte }
{
    (b' '..=b'~').contains(&byte)
}

// Puts a byte behind a text, as it is shown.
fn put_shown_byte(out: &mut String, byte: u8) -> Result<(), AllocError>
    ensures { OnOk result (string_bytes out.new ≡ string_bytes out.old ++ shown_byte byte ∷ []) }
{
    if is_printable(byte) {
        out.push(char::from(byte))
    } else {
        out.push('?')
    }
}

// Puts the bytes of a line behind a text, as they are shown.
#[tactic(auto, using(crate::proofs::Shown::shown))]
fn put_shown(out: &mut String, bytes: &[u8]) -> Result<(), AllocError>
    ensures { OnOk result (string_bytes out.new ≡ string_bytes out.old ++ map shown_byte bytes.now) }
{
    for byte in bytes {
        put_shown_byte(out, *byte)?;
    }
    Ok(())
}

// Puts a line behind four blanks.
fn put_indented(out: &mut String, bytes: &[u8]) -> Result<(), AllocError>
    ensures { OnOk result (string_bytes out.new ≡ string_bytes out.old ++ indented bytes.now) }
{
    out.push_str("    ")?;
    put_shown(out, bytes)?;
    out.push('\n')
}

// Puts the number of a line behind a colon; nothing for the text as a whole.
fn put_line_number(out: &mut String, line: u32) -> Result<(), AllocError>
    ensures { OnOk result (string_bytes out.new ≡ string_bytes out.old ++ at_line line) }
{
    if line == 0 {
        return Ok(());
    }
    write!(out, ":{line}")?;
    Ok(())
}

// Puts what stands first: where the fault is, and its cause.
fn put_heading(out: &mut String, name: &str, line: u32, cause: Cause) -> Result<(), AllocError>
    ensures { OnOk result (string_bytes out.new ≡ string_bytes out.old ++ heading name.now line cause) }
{
    out.push_str(name)?;
    put_line_number(out, line)?;
    out.push_str(": ")?;
    out.push_str(cause_text(cause))?;
    out.push('\n')
}

// The line of a text of less than 4 GiB that stands behind so many.
fn line_behind(bytes: &[u8], before: u32) -> Option<&[u8]>
    requires { length bytes.now < 2 ^ 32 }
    ensures { option_map (λ text. text.now) result
        ≡ option_map (λ found. found.text) (slice_get (lines_of bytes.now) before) }
{
    let mut lines = Lines::new(bytes);
    for _ in 0..before {
        lines.next()?;
    }
    let line = lines.next()?;
    Some(line.text)
}

/// The line of a text with this number, from 1, without its end.
pub fn line_with(bytes: &[u8], line: u32) -> Option<&[u8]>
    ensures { option_map (λ text. text.now) result ≡ line_with bytes.now line }
{
    if line == 0 || bytes.len() > u32::MAX as usize {
        return None;
    }
    line_behind(bytes, line - 1)
}

// Puts the refused line, where the text has such a line.
fn put_refused_line(out: &mut String, bytes: &[u8], line: u32) -> Result<(), AllocError>
    ensures { OnOk result (string_bytes out.new
        ≡ string_bytes out.old ++ shown_line (line_with bytes.now line)) }
{
    match line_with(bytes, line) {
        Some(text) => put_indented(out, text),
        None => Ok(()),
    }
}

/// The explanation of a refusal with this sentence.
pub fn explained(
    alloc: Global,
    name: &str,
    bytes: &[u8],
    line: u32,
    cause: Cause,
    sentence: &[u8],
) -> Result<String, NoMemory>
    ensures { IfOk result (λ text. string_bytes text
        ≡ explanation name.now bytes.now line cause sentence.now) }
{
    let mut out = String::new(alloc);
    put_heading(&mut out, name, line, cause)?;
    put_refused_line(&mut out, bytes, line)?;
    put_indented(&mut out, sentence)?;
    Ok(out)
}
