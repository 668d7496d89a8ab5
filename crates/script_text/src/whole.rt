//! Texts that are put whole, or not at all.

ghost use Rattle.std.specs.Prelude.{◌≡◌, ◌++◌, OnErr, OnOk, string_bytes};

use std::alloc::AllocError;

/// Puts a text behind another. Where memory runs out, the other is as it was.
pub fn put_text(out: &mut String, text: String) -> Result<(), AllocError>
    ensures put { OnOk result (string_bytes out.new ≡ string_bytes out.old ++ string_bytes text) }
    ensures kept { OnErr result (string_bytes out.new ≡ string_bytes out.old) }
{
    if out.is_empty() {
        *out = text;
        return Ok(());
    }
    out.push_str(text.as_str())
}
