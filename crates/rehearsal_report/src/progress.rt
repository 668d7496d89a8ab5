//! How far a rehearsal came, and lines with numbers.

ghost use Rattle.std.specs.Prelude.{◌≡◌, ◌<◌, ◌++◌, ◌∷◌, ◌^◌, [], OnOk, codes, decimal, nat_lt, string_bytes};
ghost use Rattle.rehearsal_report.specs.Standings.{calls_in, counts_text, heading_text, part_text};

use script_text::{Script, put_number};
use std::alloc::AllocError;

/// How many calls these scripts have.
pub fn count_calls(scripts: &[Script]) -> usize
    requires { calls_in scripts.now < 2 ^ 32 }
    ensures { result ≡ calls_in scripts.now }
{
    let mut count = 0;
    for script in scripts {
        count += script.calls.len();
    }
    count
}

/// Whether scripts have more calls than so many.
pub fn have_more(scripts: &[Script], made: usize) -> bool
    ensures { result ≡ nat_lt made (calls_in scripts.now) }
{
    let mut left = made;
    for script in scripts {
        match left.checked_sub(script.calls.len()) {
            Some(fewer) => left = fewer,
            None => return true,
        }
    }
    false
}

/// Puts words behind a text, as a line.
pub fn put_line(out: &mut String, words: &str) -> Result<(), AllocError>
    ensures { OnOk result (string_bytes out.new ≡ string_bytes out.old ++ words.now ++ 10 ∷ []) }
{
    out.push_str(words)?;
    out.push('\n')?;
    Ok(())
}

/// Puts words and a number behind a text, as a line.
pub fn put_count(out: &mut String, words: &str, number: usize) -> Result<(), AllocError>
    ensures { OnOk result (string_bytes out.new
        ≡ string_bytes out.old ++ (words.now ++ decimal number) ++ 10 ∷ []) }
{
    out.push_str(words)?;
    put_number(out, number as u64)?;
    out.push('\n')?;
    Ok(())
}

// Puts words, how many calls of how many are made, and words, as a line.
fn put_counts(
    out: &mut String,
    before: &str,
    made: usize,
    all: usize,
    behind: &str,
) -> Result<(), AllocError>
    ensures { OnOk result (string_bytes out.new
        ≡ string_bytes out.old ++ counts_text before.now made all behind.now ++ 10 ∷ []) }
{
    out.push_str(before)?;
    put_number(out, made as u64)?;
    out.push_str(" of ")?;
    put_number(out, all as u64)?;
    put_line(out, behind)?;
    Ok(())
}

// Puts how far a rehearsal came in which not all calls are made.
fn put_part(out: &mut String, made: usize, all: usize, free: bool) -> Result<(), AllocError>
    ensures { OnOk result (string_bytes out.new ≡ string_bytes out.old ++ part_text made all free ++ 10 ∷ []) }
{
    if free {
        let behind = " calls, with one that is refused";
        return put_counts(out, "ended after ", made, all, behind);
    }
    put_counts(out, "stopped after ", made, all, " calls")
}

// Puts that all calls are made.
fn put_whole(out: &mut String, all: usize) -> Result<(), AllocError>
    ensures { OnOk result (string_bytes out.new
        ≡ string_bytes out.old ++ (codes "made all " ++ decimal all ++ codes " calls") ++ 10 ∷ []) }
{
    out.push_str("made all ")?;
    put_number(out, all as u64)?;
    put_line(out, " calls")?;
    Ok(())
}

/// Puts how far a rehearsal came, by how many calls of how many are made, and whether some box may go on.
pub fn put_progress(out: &mut String, made: usize, all: usize, free: bool) -> Result<(), AllocError>
    ensures { OnOk result (string_bytes out.new
        ≡ string_bytes out.old ++ heading_text made all free ++ 10 ∷ []) }
{
    if made == all {
        return put_whole(out, all);
    }
    put_part(out, made, all, free)
}
