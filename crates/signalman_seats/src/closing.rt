//! The end of a line.

ghost use Rattle.std.specs.Prelude.{◌≡◌, IfErr, IfOk};
ghost use Rattle.signalman_seats.specs.Lines.{AreMen, Closed};
ghost use Rattle.instrument_rule.specs.Posts.{plan_of};

use crate::man::Signalman;
use instrument_rule::Line;
use line_plan::Items;
use std::alloc::Global;
use train_register::Ended;

/// No memory was left to close a line. The line and its men come back as they were.
#[derive(Drop)]
pub struct CloseRefused {
    pub line: Line,
    pub men: Vec<Signalman>,
}

/// Closes a line, by all its men in the order of the boxes, and gives their registers: the parts of one legal history,
/// of which each man had seen a beginning.
///
/// # Errors
///
/// `CloseRefused` where memory runs out. It takes its memory before anything else.
pub fn close_line(alloc: Global, line: Line, mut men: Vec<Signalman>) -> Result<Ended, CloseRefused>
    requires { AreMen line.table.shared.table_id (plan_of line) men.items }
    ensures closed { IfOk result (λ ended. Closed (plan_of line) men.items ended.registers) }
    ensures refused { IfErr result (λ refused. (refused.line ≡ line) × (refused.men.items ≡ men.items)) }
{
    let Ok(mut registers) = Vec::with_capacity(alloc, men.len()) else {
        return Err(CloseRefused { line, men });
    };
    let mut post = men[0].lend_watch(&line);
    for man in men {
        let (theirs, register) = man.into_parts();
        post.join(&line, theirs);
        registers.push_reserved(register);
    }
    drop(post);
    drop(line);
    Ok(Ended {
        registers: Items::from_vec(registers),
    })
}
