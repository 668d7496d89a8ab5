//! What he notices of what the others do behind a call of his.

ghost use Rattle.std.specs.Prelude.{◌≡◌, ◌≤◌, ◌++◌, IsTrue, OnOk, drop, length, string_bytes};
ghost use Rattle.box_view.specs.Notices.{notices_text};
ghost use Rattle.hand_working.specs.Duties.{doings_of, journal_at, post_of};
ghost use Rattle.hand_working.specs.Passages.{listener_at};
ghost use Rattle.hand_working.specs.Tones.{cyan, in_tone};

use crate::duty::Duty;
use crate::tones::{CYAN, NO_COLOUR, put_tone};
use box_view::{listener_of, put_notices};
use std::alloc::AllocError;

// Puts behind a text what he notices of the entries of the journal from this place on.
fn put_noticed(duty: &Duty<'_>, place: usize, out: &mut String) -> Result<(), AllocError>
    requires worked { IsTrue duty.now.session.is_worked }
    requires place { place ≤ length (journal_at (post_of duty.now) (doings_of duty.now)) }
    ensures { OnOk result (string_bytes out.new ≡ string_bytes out.old
        ++ notices_text duty.now.session.plan (listener_at (post_of duty.now) (doings_of duty.now))
        (drop place (journal_at (post_of duty.now) (doings_of duty.now)))) }
{
    let session = duty.session();
    session.meets_conditions();
    duty.is_spelled();
    let him = listener_of(
        session.plan(),
        session.line(),
        session.box_no(),
        session.journal(),
    );
    put_notices(out, session.plan(), &him, &session.journal()[place..])
}

/// Puts behind a text what he notices of the entries of the journal from this place on, in a colour where colours are
/// wanted.
pub(crate) fn put_meanwhile(
    duty: &Duty<'_>,
    place: usize,
    colours: bool,
    out: &mut String,
) -> Result<(), AllocError>
    requires worked { IsTrue duty.now.session.is_worked }
    requires place { place ≤ length (journal_at (post_of duty.now) (doings_of duty.now)) }
    ensures { OnOk result (string_bytes out.new ≡ string_bytes out.old ++ in_tone colours cyan
        (notices_text duty.now.session.plan (listener_at (post_of duty.now) (doings_of duty.now))
        (drop place (journal_at (post_of duty.now) (doings_of duty.now))))) }
{
    put_tone(out, colours, CYAN)?;
    put_noticed(duty, place, out)?;
    put_tone(out, colours, NO_COLOUR)
}
