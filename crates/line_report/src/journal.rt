//! The printed journal.

ghost use Rattle.std.specs.Prelude.{◌≡◌, ◌+◌, ◌<◌, ◌^◌, ◌++◌, All, IfOk, OnErr, OnOk, length, string_bytes};
ghost use Rattle.script_text.specs.Entries.{IsSpelled};
ghost use Rattle.line_report.specs.Journals.{entry_text, entries_text, heading_text, journal_text};

use line_law::{Entry, Journal};
use line_plan::Plan;
use rail_text::NoMemory;
use script_text::{put_number, put_text, put_told};
use std::alloc::{AllocError, Global};

// Puts an entry's line behind a text that is being made. Where memory runs out a part of the line may stand behind it.
#[tactic(auto, unfolding(crate::specs::Journals::entry_text))]
fn put_line(out: &mut String, plan: &Plan, number: usize, entry: &Entry) -> Result<(), AllocError>
    requires { IsSpelled plan.now entry.now }
    ensures { OnOk result (string_bytes out.new ≡ string_bytes out.old ++ entry_text plan.now number entry.now) }
{
    put_number(out, number as u64)?;
    out.push(' ')?;
    out.push_str(plan.box_name(entry.box_no))?;
    out.push(' ')?;
    put_told(out, plan, entry)?;
    out.push('\n')
}

/// Puts an entry's line behind a text: its number, its box, the moment and the call, `->` and the reply, as in
/// `2 Ash 10:00 ring down 4 -> bell_busy 1 1`. Where memory runs out the text is as it was.
pub fn put_entry(
    out: &mut String,
    plan: &Plan,
    number: usize,
    entry: &Entry,
) -> Result<(), AllocError>
    requires { IsSpelled plan.now entry.now }
    ensures put { OnOk result (string_bytes out.new ≡ string_bytes out.old ++ entry_text plan.now number entry.now) }
    ensures kept { OnErr result (string_bytes out.new ≡ string_bytes out.old) }
{
    let mut line = String::new(*out.allocator());
    put_line(&mut line, plan, number, entry)?;
    put_text(out, line)
}

// The lines of entries that follow one another, the first with this number.
fn put_entry_lines(
    out: &mut String,
    plan: &Plan,
    number: usize,
    entries: &[Entry],
) -> Result<(), AllocError>
    requires spelled { All (IsSpelled plan.now) entries.now }
    requires numbers { number + length entries.now < 2 ^ 64 }
    ensures { OnOk result (string_bytes out.new ≡ string_bytes out.old ++ entries_text plan.now number entries.now) }
{
    for (place, entry) in entries.iter().enumerate() {
        put_line(out, plan, number + place, entry)?;
    }
    Ok(())
}

// The journal's first line.
#[tactic(auto, unfolding(crate::specs::Journals::heading_text))]
fn put_first_line(out: &mut String, plan: &Plan) -> Result<(), AllocError>
    ensures { OnOk result (string_bytes out.new ≡ string_bytes out.old ++ heading_text plan.now) }
{
    out.push_str("journal ")?;
    put_number(out, u64::from(plan.version))?;
    out.push('\n')
}

/// Puts the journal's first line behind a text: `journal` and the plan's version. Where memory runs out the text is as
/// it was.
pub fn put_heading(out: &mut String, plan: &Plan) -> Result<(), AllocError>
    ensures put { OnOk result (string_bytes out.new ≡ string_bytes out.old ++ heading_text plan.now) }
    ensures kept { OnErr result (string_bytes out.new ≡ string_bytes out.old) }
{
    let mut line = String::new(*out.allocator());
    put_first_line(&mut line, plan)?;
    put_text(out, line)
}

// The whole journal, from its first line to its end.
#[tactic(auto, unfolding(crate::specs::Journals::heading_text, crate::specs::Journals::journal_text))]
fn put_lines(out: &mut String, plan: &Plan, journal: &Journal) -> Result<(), AllocError>
    requires { All (IsSpelled plan.now) journal.now.entries }
    ensures { OnOk result (string_bytes out.new ≡ string_bytes out.old ++ journal_text plan.now journal.now.entries) }
{
    put_first_line(out, plan)?;
    put_entry_lines(out, plan, 1, journal.entries.as_slice())?;
    out.push_str("end\n")
}

/// Puts the whole journal behind a text, from its first line to its end. Each entry is one that the line can spell.
/// Where memory runs out the text is as it was.
pub fn put_journal(out: &mut String, plan: &Plan, journal: &Journal) -> Result<(), AllocError>
    requires { All (IsSpelled plan.now) journal.now.entries }
    ensures put { OnOk result
        (string_bytes out.new ≡ string_bytes out.old ++ journal_text plan.now journal.now.entries) }
    ensures kept { OnErr result (string_bytes out.new ≡ string_bytes out.old) }
{
    let mut lines = String::new(*out.allocator());
    put_lines(&mut lines, plan, journal)?;
    put_text(out, lines)
}

/// The journal of a line as it is printed: `journal` and the plan's version, a line for each entry, numbered from 1,
/// and `end`. Each entry is one that the line can spell, as `is_spelled` tells; all of a legal history are. A moment is
/// printed as `HH:MM` where the plan has version 1, else as `HH:MM:SS`.
pub fn print_journal(alloc: Global, plan: &Plan, journal: &Journal) -> Result<Vec<u8>, NoMemory>
    requires { All (IsSpelled plan.now) journal.now.entries }
    ensures { IfOk result (λ text. text.items ≡ journal_text plan.now journal.now.entries) }
{
    let mut out = String::new(alloc);
    put_lines(&mut out, plan, journal)?;
    Ok(out.into_bytes())
}
