//! The lines of a source are answered.

ghost use Rattle.std.specs.Prelude.{◌≡◌, ◌≤◌, ◌++◌, ◌∷◌, [], IfErr, IfOk, not, true, string_bytes};
ghost use Rattle.rail_text.specs.Bytes.{appended};
ghost use Rattle.line_service.specs.Answers.{ends};
ghost use Rattle.line_serving.specs.Transcripts.{Answers, AnswersPart, AreOnward, IsCutShort, IsServed, PutsPart};

use crate::source::{RequestSource, SourceFault};
use line_service::Service;
use rail_text::{NoMemory, Sink, SinkFault, put_all};
use std::alloc::{AllocError, Global};

/// Why lines couldn't be served on.
#[derive(Clone, Copy, Debug, PartialEq, Eq)]
pub enum ServeFault {
    /// Lines can't be read.
    NoLines,
    /// The output can't be written.
    NoOutput,
    /// Memory ran out.
    NoMemory,
}

impl From<NoMemory> for ServeFault {
    fn from(_: NoMemory) -> ServeFault {
        ServeFault::NoMemory
    }
}

impl From<AllocError> for ServeFault {
    fn from(_: AllocError) -> ServeFault {
        ServeFault::NoMemory
    }
}

impl From<SinkFault> for ServeFault {
    fn from(_: SinkFault) -> ServeFault {
        ServeFault::NoOutput
    }
}

impl From<SourceFault> for ServeFault {
    fn from(fault: SourceFault) -> ServeFault {
        match fault {
            SourceFault::Failed => ServeFault::NoLines,
            SourceFault::NoMemory => ServeFault::NoMemory,
        }
    }
}

// Puts a line.
fn put_line<K: Sink>(out: &mut K, line: String) -> Result<(), ServeFault>
    ensures put { IfOk result (λ _. K.taken out.new ≡ appended (K.taken out.old) (string_bytes line ++ 10 ∷ [])) }
    ensures part { IfErr result (λ _. PutsPart (K.taken out.old) (K.taken out.new) (string_bytes line ++ 10 ∷ [])) }
    ensures later { K.faults out.old ≤ K.faults out.new }
{
    let mut line = line;
    line.push('\n')?;
    put_all(out, line.as_bytes())?;
    Ok(())
}

// A line is answered. Whether another may come.
fn serve_given<K: Sink>(
    alloc: Global,
    service: &mut Service,
    line: &[u8],
    out: &mut K,
) -> Result<bool, ServeFault>
    ensures answered { IfOk result (λ _. Answers service.old line.now service.new (K.taken out.old)
        (K.taken out.new)) }
    ensures onward { IfOk result (λ more. more ≡ not (ends line.now)) }
    ensures part { IfErr result (λ _. AnswersPart service.old line.now service.new (K.taken out.old)
        (K.taken out.new)) }
    ensures later { K.faults out.old ≤ K.faults out.new }
{
    let answer = service.answer(alloc, line)?;
    put_line(out, answer.text)?;
    Ok(!answer.ends)
}

// A line is taken and answered. Whether another may come.
fn serve_line<N: RequestSource, K: Sink>(
    alloc: Global,
    service: &mut Service,
    source: &mut N,
    out: &mut K,
) -> Result<bool, ServeFault>
    ensures served { IfOk result (λ _. IsServed service.old service.new (N.given source.old) (N.given source.new)
        (K.taken out.old) (K.taken out.new)) }
    ensures onward { IfOk result (λ more. more ≡ true → AreOnward service.old service.new (N.given source.old)
        (N.given source.new) (K.taken out.old) (K.taken out.new)) }
    ensures cut { IfErr result (λ _. IsCutShort service.old service.new (N.given source.old) (N.given source.new)
        (K.taken out.old) (K.taken out.new)) }
    ensures later { K.faults out.old ≤ K.faults out.new }
{
    match source.next_line(alloc)? {
        Some(line) => serve_given(alloc, service, &line, out),
        None => Ok(false),
    }
}

/// The lines of a source are answered by a service, each by one line that is put at once, until one asks to end or
/// there are no more. What is put is the transcript of the lines that were given, and where it ends before that, a
/// front part.
pub fn serve<N: RequestSource, K: Sink>(
    alloc: Global,
    service: &mut Service,
    source: &mut N,
    out: &mut K,
) -> Result<(), ServeFault>
    ensures served { IfOk result (λ _. IsServed service.old service.new (N.given source.old) (N.given source.new)
        (K.taken out.old) (K.taken out.new)) }
    ensures cut { IfErr result (λ _. IsCutShort service.old service.new (N.given source.old) (N.given source.new)
        (K.taken out.old) (K.taken out.new)) }
    ensures later { K.faults out.old ≤ K.faults out.new }
{
    for _ in 0..u64::MAX {
        if !serve_line(alloc, service, source, out)? {
            return Ok(());
        }
    }
    Ok(())
}
