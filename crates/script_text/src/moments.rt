//! Moments as texts: `HH:MM` where the plan has version 1, else `HH:MM:SS`.

ghost use Rattle.std.specs.Prelude.{◌≡◌, ◌≤◌, ◌<◌, ◌+◌, ◌*◌, ◌++◌, length, string_bytes, IfSome, OnOk};
ghost use Rattle.line_law.specs.Known.{moments_of};
ghost use Rattle.script_text.specs.Moments.{two_digits, two_text, clock_of, time_of, moment_of, ready_of, moment_text};
ghost use Rattle.script_text.specs.Moments.{hundred_hours};

use std::alloc::AllocError;

// The number that two digits make, if there are two.
fn two_digits(word: &[u8], at: usize) -> Option<u32>
    requires { at + 2 ≤ length word.now }
    ensures { result ≡ two_digits word.now at }
{
    let (tens, ones) = (word[at], word[at + 1]);
    if tens.is_ascii_digit() && ones.is_ascii_digit() {
        Some(10 * u32::from(tens - b'0') + u32::from(ones - b'0'))
    } else {
        None
    }
}

// The minutes of a clock's text `HH:MM` whose hours are below a limit.
fn clock_of(word: &[u8], limit: u32) -> Option<u32>
    requires few { limit ≤ 100 }
    requires five { 5 ≤ length word.now }
    ensures exact { result ≡ clock_of limit word.now }
    ensures early { IfSome result (λ minutes. minutes < 60 * limit) }
{
    let hours = two_digits(word, 0)?;
    let minutes = two_digits(word, 3)?;
    if word[2] == b':' && hours < limit && minutes < 60 {
        Some(60 * hours + minutes)
    } else {
        None
    }
}

// The time that a word spells in the form of the plan's version, with hours below a limit.
fn time_of(version: u8, word: &[u8], limit: u32) -> Option<u32>
    requires { limit ≤ 100 }
    ensures { result ≡ time_of limit version word.now }
{
    if version == 1 {
        return if word.len() == 5 {
            clock_of(word, limit)
        } else {
            None
        };
    }
    if word.len() != 8 || word[5] != b':' {
        return None;
    }
    let minutes = clock_of(word, limit)?;
    let seconds = two_digits(word, 6)?;
    if seconds < 60 {
        Some(60 * minutes + seconds)
    } else {
        None
    }
}

/// The moment that a word spells: `HH:MM` from `00:00` to `23:59` in minutes where the plan has version 1, else
/// `HH:MM:SS` from `00:00:00` to `23:59:59` in seconds.
#[tactic(auto, using(crate::proofs::MomentTexts::moment_day))]
pub fn read_moment(version: u8, word: &[u8]) -> Option<u32>
    ensures exact { result ≡ moment_of version word.now }
    ensures day { IfSome result (λ moment. moment < moments_of version) }
{
    time_of(version, word, 24)
}

/// The moment at which a release may come, as a word spells it: one of the day, or of the hour behind it up to `24:59`
/// or `24:59:59`.
pub fn read_ready(version: u8, word: &[u8]) -> Option<u32>
    ensures { result ≡ ready_of version word.now }
{
    time_of(version, word, 25)
}

// A number below 100 in two digits.
fn put_two(out: &mut String, number: u32) -> Result<(), AllocError>
    requires { number < 100 }
    ensures { OnOk result (string_bytes out.new ≡ string_bytes out.old ++ two_text number) }
{
    let tens = b'0' + (number / 10) as u8;
    let ones = b'0' + (number % 10) as u8;
    out.push(char::from(tens))?;
    out.push(char::from(ones))
}

/// Puts a moment below 100 hours behind a text.
pub fn put_moment(out: &mut String, version: u8, moment: u32) -> Result<(), AllocError>
    requires { moment < hundred_hours version }
    ensures { OnOk result (string_bytes out.new ≡ string_bytes out.old ++ moment_text version moment) }
{
    let minutes = if version == 1 { moment } else { moment / 60 };
    put_two(out, minutes / 60)?;
    out.push(':')?;
    put_two(out, minutes % 60)?;
    if version != 1 {
        out.push(':')?;
        put_two(out, moment % 60)?;
    }
    Ok(())
}
