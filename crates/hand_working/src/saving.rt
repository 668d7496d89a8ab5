//! His calls as a script.

ghost use Rattle.std.specs.Prelude.{◌≡◌, ◌++◌, ◌∷◌, [], IfOk, IfSome, OnOk, map, string_bytes};
ghost use mathlib.Core.List.{IsPrefix};
ghost use Rattle.line_report.specs.Journals.{journal_text};
ghost use Rattle.script_text.specs.Scripts.{script_text};
ghost use Rattle.hand_working.specs.Duties.{doings_of, journal_at, post_of};

use crate::book::journal_of;
use crate::duty::Duty;
use crate::store::Store;
use box_session::MadeCall;
use line_law::Call;
use line_plan::Items;
use line_report::print_journal;
use rail_text::NoMemory;
use script_text::{MOST_CALLS, Script, print_script};
use std::alloc::{AllocError, Global};

// Puts a call behind others.
fn push_call(calls: &mut Vec<Call>, one: &MadeCall) -> Result<(), AllocError>
    ensures { OnOk result (calls.new.items ≡ calls.old.items ++ one.now.call ∷ []) }
{
    calls.push(one.call)?;
    Ok(())
}

// These calls alone.
fn calls_alone(alloc: Global, made: &[MadeCall]) -> Result<Vec<Call>, AllocError>
    ensures { IfOk result (λ calls. calls.items ≡ map (λ m. m.call) made.now) }
{
    let mut calls = Vec::new(alloc);
    for one in made {
        push_call(&mut calls, one)?;
    }
    Ok(calls)
}

/// The journal of the line so far, as `box_main judge` reads it.
pub fn print_line(alloc: Global, duty: &Duty<'_>) -> Result<Vec<u8>, NoMemory>
    ensures { IfOk result (λ text. text.items
        ≡ journal_text duty.now.session.plan (journal_at (post_of duty.now) (doings_of duty.now))) }
{
    let session = duty.session();
    session.meets_conditions();
    duty.is_spelled();
    let journal = journal_of(alloc, duty)?;
    let text = print_journal(alloc, session.plan(), &journal);
    drop(journal);
    text
}

/// His calls as the text of a script, where they are no more than a script may have.
pub fn print_calls(alloc: Global, duty: &Duty<'_>) -> Result<Option<Vec<u8>>, NoMemory>
    ensures { IfOk result (λ text. IfSome text (λ text. text.items ≡ script_text duty.now.session.plan
        (record { box_no = duty.now.session.box_no; calls = duty.now.session.calls }))) }
{
    let session = duty.session();
    session.meets_conditions();
    let made = session.calls();
    if made.len() > MOST_CALLS {
        return Ok(None);
    }
    let script = Script {
        box_no: session.box_no(),
        calls: Items::from_vec(calls_alone(alloc, made)?),
    };
    let text = print_script(alloc, session.plan(), &script);
    drop(script);
    Ok(Some(text?))
}

/// Saves his calls as a script, and tells how it went.
pub(crate) fn answer_save<W: Store>(
    alloc: Global,
    duty: &Duty<'_>,
    store: &mut W,
    name: &str,
    out: &mut String,
) -> Result<(), NoMemory>
    ensures { IfOk result (λ _. IsPrefix (string_bytes out.old) (string_bytes out.new)) }
{
    let Some(text) = print_calls(alloc, duty)? else {
        out.push_str("not saved: a script has at most 10000 calls\n")?;
        return Ok(());
    };
    let written = store.write(name, &text);
    drop(text);
    out.push_str(match written {
        Ok(()) => "saved: ",
        Err(_) => "not saved: could not be written: ",
    })?;
    out.push_str(name)?;
    out.push('\n')?;
    Ok(())
}
