//! The colours of a terminal.

ghost use Rattle.std.specs.Prelude.{◌≡◌, ◌++◌, OnOk, string_bytes};
ghost use Rattle.hand_working.specs.Tones.{tone_text};

use std::alloc::AllocError;

/// Red, for what is refused.
pub(crate) const RED: &str = "[31m";

/// Cyan, for what he notices.
pub(crate) const CYAN: &str = "[36m";

/// No colour any more.
pub(crate) const NO_COLOUR: &str = "[0m";

/// Begins or ends a colour behind a text, where colours are wanted.
pub(crate) fn put_tone(out: &mut String, wanted: bool, tone: &str) -> Result<(), AllocError>
    ensures { OnOk result (string_bytes out.new ≡ string_bytes out.old ++ tone_text wanted tone.now) }
{
    if !wanted {
        return Ok(());
    }
    out.push('\u{1b}')?;
    out.push_str(tone)
}
