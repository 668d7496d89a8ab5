//! Moments of the day.

ghost use Rattle.std.specs.Prelude.{◌<◌};
ghost use Rattle.script_text.specs.Moments.{hundred_hours};

use crate::case_fault::CaseFault;
use crate::putting::{Done, two_parts};
use script_text::{put_moment, read_moment, read_ready};

// Puts a moment as a number, and as what it is printed.
fn put_read(out: &mut String, version: u8, read: Option<u32>) -> Done {
    match read {
        Some(moment) if moment < 6000 || (version != 1 && moment < 360_000) => {
            write!(out, "{moment} as ")?;
            put_moment(out, version, moment)?;
        }
        Some(_) => out.push_str("late")?,
        None => out.push_str("none")?,
    }
    Ok(())
}

fn version_of(word: &str) -> Result<u8, CaseFault> {
    match word {
        "1" => Ok(1),
        "2" => Ok(2),
        _ => Err(CaseFault::Argument),
    }
}

/// `moment VERSION WORD`: the moment of the day that the word spells.
pub fn put_day_moment(out: &mut String, argument: &str) -> Done {
    let (version, word) = two_parts(argument, " ")?;
    let version = version_of(version)?;
    put_read(out, version, read_moment(version, word.as_bytes()))
}

/// `ready VERSION WORD`: the moment at which a release may come that the word spells.
pub fn put_ready(out: &mut String, argument: &str) -> Done {
    let (version, word) = two_parts(argument, " ")?;
    let version = version_of(version)?;
    put_read(out, version, read_ready(version, word.as_bytes()))
}
