//! What is due at his box.

ghost use Rattle.std.specs.Prelude.{◌≡◌, ◌++◌, IfOk, string_bytes};
ghost use Rattle.hand_working.specs.Duties.{doings_of, post_of};
ghost use Rattle.hand_working.specs.Passages.{due_at};

use crate::duty::Duty;
use due_hints::{hint_of, put_hint};
use rail_text::NoMemory;
use std::alloc::Global;

/// Puts behind a text what is due at his box, where hints are wanted and exactly one thing is due.
pub(crate) fn put_due(
    alloc: Global,
    duty: &mut Duty<'_>,
    wanted: bool,
    out: &mut String,
) -> Result<(), NoMemory>
    ensures post { post_of duty.new ≡ post_of duty.old }
    ensures doings { doings_of duty.new ≡ doings_of duty.old }
    ensures told { IfOk result (λ _. string_bytes out.new
        ≡ string_bytes out.old ++ due_at wanted (post_of duty.old) (doings_of duty.old)) }
{
    if !wanted {
        return Ok(());
    }
    duty.work_again(alloc)?;
    let session = duty.session();
    session.meets_conditions();
    let due = hint_of(
        session.plan(),
        session.line(),
        session.box_no(),
        session.journal(),
    );
    if let Some(hint) = due {
        out.push_str("hint: ")?;
        put_hint(out, session.plan(), hint)?;
    }
    Ok(())
}
