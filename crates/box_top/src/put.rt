//! What is put of an outcome.

ghost use Rattle.std.specs.Prelude.{◌≡◌, ◌≢◌, string_bytes, IfOk};
ghost use Rattle.rail_text.specs.Causes.{Rose};
ghost use Rattle.box_top.specs.Top.{PutOutcome, PutStop, PutText, refused_line};

use crate::status::Status;
use rail_text::{Cause, Sink, SinkFault, cause_text, put_all};
use std::alloc::{AllocError, Global};
use text_fetch::Stop;

/// The line that is printed of words that are no command.
pub const WORDS_LINE: &[u8] = b"words not understood\n";

// The line that is printed of a refused text.
#[tactic(auto, unfolding(crate::specs::Top::refused_line))]
fn refused_line(alloc: Global, text: u32, line: u32, cause: Cause) -> Result<String, AllocError>
    ensures { IfOk result (λ s. string_bytes s ≡ refused_line text (record { line = line; cause = cause })) }
{
    let mut out = format!(in alloc; "refused text {text} line {line}: ")?;
    out.push_str(cause_text(cause))?;
    out.push_str("\n")?;
    Ok(out)
}

/// Puts the text, and answers the status, or that the sink failed.
pub fn put_text<K: Sink>(out: &mut K, text: &[u8], status: Status) -> Status
    requires { status ≢ Status.SinkFault }
    ensures took { PutText (K.taken out.old) (K.taken out.new) text.now status result }
    ensures cause { result ≡ Status.SinkFault → Rose (K.faults out.old) (K.faults out.new) }
{
    match put_all(out, text) {
        Ok(()) => status,
        Err(SinkFault::Failed) => Status::SinkFault,
    }
}

// Puts the line of a refusal. Of a fault of the shelf or want of memory nothing is put.
fn put_stop<K: Sink>(alloc: Global, out: &mut K, stop: Stop) -> Status
    ensures took { PutStop stop (K.taken out.old) (K.taken out.new) result }
    ensures sink { result ≡ Status.SinkFault → Rose (K.faults out.old) (K.faults out.new) }
    ensures not_fetched { result ≡ Status.ShelfFault → out.new ≡ out.old }
    ensures no_memory { result ≡ Status.NoMemory → out.new ≡ out.old }
{
    match stop {
        Stop::ShelfFault => Status::ShelfFault,
        Stop::NoMemory => Status::NoMemory,
        Stop::Refused { text, line, cause } => match refused_line(alloc, text, line, cause) {
            Ok(line) => put_text(out, line.as_bytes(), Status::Refused),
            Err(AllocError) => Status::NoMemory,
        },
    }
}

/// Puts what a command is to print: its text, or the line of a refusal. Of a fault of the shelf or want of memory
/// nothing is put.
pub fn put_outcome<K: Sink>(alloc: Global, out: &mut K, outcome: Result<Vec<u8>, Stop>) -> Status
    ensures took { PutOutcome (λ text. text.items) outcome (K.taken out.old) (K.taken out.new) result }
    ensures sink { result ≡ Status.SinkFault → Rose (K.faults out.old) (K.faults out.new) }
    ensures not_fetched { result ≡ Status.ShelfFault → out.new ≡ out.old }
    ensures no_memory { result ≡ Status.NoMemory → out.new ≡ out.old }
{
    match outcome {
        Ok(text) => put_text(out, &text, Status::Done),
        Err(stop) => put_stop(alloc, out, stop),
    }
}
