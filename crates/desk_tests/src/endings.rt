//! The end of a line that its men have worked.

ghost use Rattle.std.specs.Prelude.{◌≡◌, IfOk};
ghost use Rattle.line_journal.specs.Lists.{HaveEnded};
ghost use Rattle.signalman_seats.specs.Lines.{AreMen};

use instrument_rule::Line;
use line_journal::merge;
use line_law::Journal;
use line_plan::Plan;
use rail_text::NoMemory;
use signalman_seats::{CloseRefused, Signalman, close_line};
use std::alloc::Global;
use train_register::Ended;

// Closes a line that was refused once, by what the refusal handed back.
fn closed_again(alloc: Global, refused: CloseRefused) -> Result<Ended, NoMemory>
    requires { AreMen refused.line.table.shared.table_id refused.line.table.shared.key refused.men.items }
    ensures { IfOk result (λ ended. HaveEnded refused.line.table.shared.key ended.registers) }
{
    let CloseRefused { line, men } = refused;
    match close_line(alloc, line, men) {
        Ok(ended) => Ok(ended),
        Err(refused) => {
            drop(refused);
            Err(NoMemory)
        }
    }
}

/// Closes a line; where memory ran out for that, once more.
///
/// # Errors
///
/// `NoMemory` where memory runs out both times.
pub fn closed(alloc: Global, line: Line, men: Vec<Signalman>) -> Result<Ended, NoMemory>
    requires { AreMen line.table.shared.table_id line.table.shared.key men.items }
    ensures { IfOk result (λ ended. HaveEnded line.table.shared.key ended.registers) }
{
    match close_line(alloc, line, men) {
        Ok(ended) => Ok(ended),
        Err(refused) => closed_again(alloc, refused),
    }
}

/// How many entries the registers of a line have that was closed.
pub fn count_of(ended: &Ended) -> usize {
    let mut count: usize = 0;
    for register in ended.registers.as_slice() {
        count = count.saturating_add(register.entries().len());
    }
    count
}

/// Closes the line of a plan, and merges its registers.
///
/// # Errors
///
/// `NoMemory` where memory runs out.
pub fn merged(
    alloc: Global,
    plan: &Plan,
    line: Line,
    men: Vec<Signalman>,
) -> Result<Journal, NoMemory>
    requires plan { line.table.shared.key ≡ plan.now }
    requires men { AreMen line.table.shared.table_id line.table.shared.key men.items }
{
    let ended = closed(alloc, line, men)?;
    let journal = merge(alloc, plan, &ended);
    drop(ended);
    journal
}
