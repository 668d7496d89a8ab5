//! What two threads made.

ghost use Rattle.std.specs.Prelude.{◌≡◌, Ok, IfOk};

use rail_text::NoMemory;

/// What two threads made, if memory lasted for both.
pub(crate) fn both_made<A: Drop, B: Drop>(
    first: Result<A, NoMemory>,
    second: Result<B, NoMemory>,
) -> Result<(A, B), NoMemory>
    ensures { IfOk result (λ both. (first ≡ Ok both.0) × (second ≡ Ok both.1)) }
{
    match first {
        Ok(first) => match second {
            Ok(second) => Ok((first, second)),
            Err(NoMemory) => {
                drop(first);
                Err(NoMemory)
            }
        },
        Err(NoMemory) => {
            drop(second);
            Err(NoMemory)
        }
    }
}
