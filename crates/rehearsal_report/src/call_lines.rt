//! The lines of a script's calls.

ghost use Rattle.std.specs.Prelude.{◌≡◌, ◌++◌, ◌<◌, ◌^◌, All, IfOk, OnOk, length, string_bytes};
ghost use Rattle.rail_text.specs.Forms.{is_skipped};
ghost use Rattle.rail_text.specs.Lines.{lines_of};
ghost use Rattle.rehearsal_report.specs.CallLines.{call_line, kept_numbers, place_text};

use rail_text::Lines;
use script_text::put_number;
use std::alloc::{AllocError, Global};
use std::marker::Model;

/// A script by its name, and its text.
#[derive(Drop)]
pub struct ScriptText<'a> {
    /// As its reader knows it, with which each place is told.
    pub name: &'a str,
    /// From which it was read.
    pub bytes: &'a [u8],
}

impl<'a> Model for ScriptText<'a> {
    ghost use Rattle.rehearsal_report.specs.CallLines.{NamedText};

    ghost Value = { NamedText };

    ghost view = { λ text. record { name = text.name.now; bytes = text.bytes.now } };
}

/// A script by its name and its text, with the lines of its calls. Contracts see its name and its text.
#[derive(Drop)]
pub struct NumberedScript<'a> {
    name: &'a str,
    bytes: &'a [u8],
    numbers: Vec<u32>,
}

impl<'a> Model for NumberedScript<'a> {
    ghost use Rattle.std.specs.Prelude.{◌≡◌};
    ghost use Rattle.rail_text.specs.Lines.{lines_of};
    ghost use Rattle.rehearsal_report.specs.CallLines.{NamedText, kept_numbers};

    ghost Value = { NamedText };

    ghost view = { λ script. record { name = script.name.now; bytes = script.bytes.now } };

    ghost invariant = { λ script. script.numbers.items ≡ kept_numbers 1 (lines_of script.bytes.now) };
}

// Whether a reader of scripts passes over a line.
fn is_skipped(text: &[u8]) -> bool
    ensures { result ≡ is_skipped text.now }
{
    match text.first() {
        None => true,
        Some(byte) => *byte == b'#',
    }
}

// The numbers of the lines that aren't skipped.
fn kept_numbers(alloc: Global, bytes: &[u8]) -> Result<Vec<u32>, AllocError>
    requires { length bytes.now < 2 ^ 32 }
    ensures { IfOk result (λ numbers. numbers.items ≡ kept_numbers 1 (lines_of bytes.now)) }
{
    let mut numbers = Vec::new(alloc);
    let mut lines = Lines::new(bytes);
    while let Some(line) = lines.next() {
        if !is_skipped(line.text) {
            numbers.push(line.number)?;
        }
    }
    Ok(numbers)
}

impl<'a> NumberedScript<'a> {
    /// The lines of the calls of a script are numbered, once.
    pub fn new(alloc: Global, text: &ScriptText<'a>) -> Result<NumberedScript<'a>, AllocError>
        requires { length text.now.bytes < 2 ^ 32 }
        ensures { IfOk result (λ script. script ≡ text.now) }
    {
        Ok(NumberedScript {
            name: text.name,
            bytes: text.bytes,
            numbers: kept_numbers(alloc, text.bytes)?,
        })
    }

    /// The script's name.
    pub fn name(&self) -> &'a str
        ensures { result.now ≡ self.now.name }
    {
        self.name
    }

    /// The line of call `number`, from 1; 0 where the text has no such call.
    pub fn call_line(&self, number: usize) -> u32
        ensures { result ≡ call_line self.now.bytes number }
    {
        match self.numbers.get(number) {
            Some(line) => *line,
            None => 0,
        }
    }

    /// Puts where a call stands behind a text: the script's name, a colon and the line of the call.
    pub fn put_place(&self, out: &mut String, number: usize) -> Result<(), AllocError>
        ensures { OnOk result (string_bytes out.new ≡ string_bytes out.old ++ place_text self.now number) }
    {
        let line = self.call_line(number);
        out.push_str(self.name)?;
        out.push(':')?;
        put_number(out, u64::from(line))?;
        Ok(())
    }
}

/// The lines of the calls of each script are numbered, once.
pub fn number_scripts<'a>(
    alloc: Global,
    texts: &[ScriptText<'a>],
) -> Result<Vec<NumberedScript<'a>>, AllocError>
    requires { All (λ text. length text.bytes < 2 ^ 32) texts.now }
    ensures { IfOk result (λ scripts. scripts.items ≡ texts.now) }
{
    let mut scripts = Vec::new(alloc);
    for text in texts {
        scripts.push(NumberedScript::new(alloc, text)?)?;
    }
    Ok(scripts)
}
