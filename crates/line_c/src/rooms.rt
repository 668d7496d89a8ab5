//! Rooms that callers give for texts.

ghost use Rattle.std.specs.Prelude.{◌≡◌, ◌≢◌, ◌≤◌, ◌<◌, length};
ghost use Rattle.line_c.specs.Looks.{Fills};

use crate::status::{DONE, NO_ROOM};

// A text fills the front of a room.
fn fill(text: &[u8], room: &mut [u8])
    requires { length text.now ≤ length room.old }
    ensures { Fills text.now room.old room.new }
{
    room[..text.len()].copy_from_slice(text);
}

/// A text is copied, where it has room; its length is told either way.
pub(crate) fn copy(text: &[u8], room: &mut [u8], size: &mut u64) -> u32
    ensures size { size.new ≡ length text.now }
    ensures done { result ≡ DONE → Fills text.now room.old room.new }
    ensures full { result ≢ DONE → (result ≡ NO_ROOM) × (length room.old < length text.now) }
    ensures same { result ≢ DONE → room.new ≡ room.old }
{
    *size = text.len() as u64;
    if text.len() > room.len() {
        return NO_ROOM;
    }
    fill(text, room);
    DONE
}
