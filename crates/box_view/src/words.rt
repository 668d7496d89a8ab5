//! Texts, numbers and moments that are put one behind another.

ghost use Rattle.std.specs.Prelude.{◌≡◌, ◌<◌, ◌++◌, OnOk, decimal, string_bytes};
ghost use Rattle.script_text.specs.Moments.{hundred_hours, moment_text};

use script_text::{put_moment, put_number};
use std::alloc::AllocError;

/// Puts two texts behind a text.
pub fn put_two(out: &mut String, first: &str, second: &str) -> Result<(), AllocError>
    ensures { OnOk result (string_bytes out.new ≡ string_bytes out.old ++ (first.now ++ second.now)) }
{
    out.push_str(first)?;
    out.push_str(second)
}

/// Puts three texts behind a text.
pub fn put_three(out: &mut String, first: &str, second: &str, third: &str) -> Result<(), AllocError>
    ensures { OnOk result (string_bytes out.new ≡ string_bytes out.old ++ (first.now ++ second.now ++ third.now)) }
{
    out.push_str(first)?;
    put_two(out, second, third)
}

/// Puts four texts behind a text.
pub fn put_four(
    out: &mut String,
    first: &str,
    second: &str,
    third: &str,
    fourth: &str,
) -> Result<(), AllocError>
    ensures { OnOk result (string_bytes out.new
        ≡ string_bytes out.old ++ (first.now ++ second.now ++ third.now ++ fourth.now)) }
{
    out.push_str(first)?;
    put_three(out, second, third, fourth)
}

/// Puts five texts behind a text.
pub fn put_five(
    out: &mut String,
    first: &str,
    second: &str,
    third: &str,
    fourth: &str,
    fifth: &str,
) -> Result<(), AllocError>
    ensures { OnOk result (string_bytes out.new ≡ string_bytes out.old
        ++ (first.now ++ second.now ++ third.now ++ fourth.now ++ fifth.now)) }
{
    out.push_str(first)?;
    put_four(out, second, third, fourth, fifth)
}

/// Puts words and a number behind a text.
pub fn put_count(out: &mut String, words: &str, number: u64) -> Result<(), AllocError>
    ensures { OnOk result (string_bytes out.new ≡ string_bytes out.old ++ (words.now ++ decimal number)) }
{
    out.push_str(words)?;
    put_number(out, number)
}

/// Puts words and a moment below 100 hours behind a text.
pub fn put_time(out: &mut String, words: &str, version: u8, moment: u32) -> Result<(), AllocError>
    requires { moment < hundred_hours version }
    ensures { OnOk result (string_bytes out.new ≡ string_bytes out.old ++ (words.now ++ moment_text version moment)) }
{
    out.push_str(words)?;
    put_moment(out, version, moment)
}
