//! Which call of its script each entry of a journal is.

ghost use Rattle.std.specs.Prelude.{◌≡◌, ◌<◌, All, IfOk, length};
ghost use Rattle.rehearsal_report.specs.Numbers.{AreNumbers};

use line_law::Entry;
use std::alloc::{AllocError, Global};

/// Which call of its script each entry is, from 1, on a line of so many boxes.
pub fn number_calls(
    alloc: Global,
    boxes: usize,
    entries: &[Entry],
) -> Result<Vec<usize>, AllocError>
    requires { All (λ e. e.box_no < boxes) entries.now }
    ensures { IfOk result (λ numbers. AreNumbers entries.now numbers.items) }
{
    let mut counts = vec![in alloc; 0usize; boxes]?;
    let mut numbers = Vec::new(alloc);
    for entry in entries {
        let box_no = entry.box_no as usize;
        let number = counts[box_no] + 1;
        counts[box_no] = number;
        numbers.push(number)?;
    }
    Ok(numbers)
}
