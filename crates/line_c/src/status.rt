//! What a call of the library answers. The number 1 stands for a pointer or a length that can't be, which C tells
//! before it calls.

ghost use Rattle.std.specs.Prelude.{◌≡◌};
ghost use Rattle.line_c.specs.Statuses.{status_of_fault};

use line_engine::CallFault;
use line_requests::Fault;
use rail_text::Cause;

/// What was asked for is done.
pub const DONE: u32 = 0;

/// The line is closed.
pub const CLOSED: u32 = 2;

/// The line is open already.
pub const OPEN: u32 = 3;

/// Memory ran out.
pub const NO_MEMORY: u32 = 4;

/// A text is refused.
pub const REFUSED: u32 = 5;

/// There is no such box, call or entry.
pub const UNKNOWN: u32 = 6;

/// The moment is before that of the box's last call.
pub const MOMENT_FALLS: u32 = 7;

/// There are as many entries as may be.
pub const FULL: u32 = 8;

/// The room that was given is too small.
pub const NO_ROOM: u32 = 9;

/// A script works the box, and has calls left.
pub const HAS_SCRIPT: u32 = 10;

/// What is answered where a call isn't made.
pub(crate) fn status_of_fault(fault: CallFault) -> u32
    ensures { result ≡ status_of_fault fault }
{
    match fault {
        CallFault::NoMemory => NO_MEMORY,
        CallFault::Fault(Fault::Full) => FULL,
        CallFault::Fault(Fault::HasScript) => HAS_SCRIPT,
        CallFault::Fault(Fault::Cause(Cause::MomentFalls)) => MOMENT_FALLS,
        _ => UNKNOWN,
    }
}
