//! Numbers as texts.

ghost use Rattle.std.specs.Prelude.{◌≡◌, ◌++◌, OnOk, decimal, string_bytes};

use itoa::Buffer;
use std::alloc::AllocError;

/// Puts a number behind a text, in decimal.
#[tactic(auto, using(std::proofs::lemmas::Fmt::decimal_digit))]
pub fn put_number(out: &mut String, number: u64) -> Result<(), AllocError>
    ensures { OnOk result (string_bytes out.new ≡ string_bytes out.old ++ decimal number) }
{
    if number < 10 {
        return out.push(char::from(b'0' + number as u8));
    }
    let mut buffer = Buffer::new();
    out.push_str(buffer.format(number))
}
