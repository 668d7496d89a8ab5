//! The limits of a plan, by its version.

ghost use Rattle.std.specs.Prelude.{◌≡◌};
ghost use Rattle.line_plan.specs.Limits.{most_boxes, most_delay};

/// The most bytes of a plan's text.
pub const PLAN_LIMIT: usize = 4_194_304;

/// The most places of a box.
pub const MOST_PLACES: usize = 64;

/// The most rows of a box.
pub const MOST_ROWS: usize = 400;

/// The most trains of a line.
pub const MOST_PLAN_TRAINS: usize = 5000;

/// The most looks of an await.
pub const MOST_LOOKS: u32 = 1_000_000_000;

/// The most boxes of a line.
pub fn most_boxes(version: u8) -> u32
    ensures { result ≡ most_boxes version }
{
    if version == 1 { 32 } else { 64 }
}

/// The longest delay: minutes in version 1, seconds in version 2.
pub fn most_delay(version: u8) -> u32
    ensures { result ≡ most_delay version }
{
    if version == 1 { 60 } else { 3600 }
}
