//! What is known of levers.

ghost use Rattle.std.specs.Prelude.{◌≡◌};
ghost use Rattle.row_refutations.specs.Known.{known_end, look_at};

use locking_table::{Cond, End};

/// What is known of a condition.
#[derive(Clone, Copy, Debug, PartialEq, Eq)]
pub(crate) enum Look {
    /// Its lever stands at its end.
    Stands,
    /// Its lever stands at the other end.
    Differs,
    Unknown,
}

/// What a row says beside what is known.
#[derive(Clone, Copy, Debug)]
pub(crate) enum Said {
    Nothing,
    /// All that it forbids is so.
    Broken,
    /// The lever of this condition stands at the other end.
    Forces(Cond),
}

// The end at which a lever is known to stand, if it is known.
fn known_end(known: &[Option<End>], lever: u32) -> Option<End>
    ensures { result ≡ known_end known.now lever }
{
    match known.get(lever.saturating_sub(1) as usize) {
        Some(end) => *end,
        None => None,
    }
}

/// What is known of a condition.
pub(crate) fn look_at(known: &[Option<End>], cond: Cond) -> Look
    ensures { result ≡ look_at known.now cond }
{
    match (known_end(known, cond.lever), cond.end) {
        (None, _) => Look::Unknown,
        (Some(End::Normal), End::Normal) | (Some(End::Reversed), End::Reversed) => Look::Stands,
        (Some(_), _) => Look::Differs,
    }
}
