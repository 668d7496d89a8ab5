//! A man works his box: he types lines, and each is answered.

ghost use Rattle.std.specs.Prelude.{◌≡◌, ◌<◌, ◌≤◌, IfOk, length, not, true};
ghost use Rattle.hand_working.specs.Duties.{doings_of, post_of};
ghost use Rattle.typed_words.specs.Typed.{line_read};
ghost use Rattle.hand_working.specs.Passages.{after_line, is_end};
ghost use Rattle.hand_working.specs.Works.{AreLines, AreOnward, Grows, IsWorked, PutsPassage};
ghost use Rattle.rail_text.specs.Bytes.{appended};

use crate::duty::Duty;
use crate::ending::ending;
use crate::manner::Manner;
use crate::passage::{opening, serve_line};
use crate::screen::draw;
use crate::source::{LineSource, SourceFault};
use crate::store::Store;
use box_session::MOST_MADE;
use rail_text::{NoMemory, Sink, SinkFault, put_all};
use script_text::put_moment;
use std::alloc::{AllocError, Global};

/// Why a man couldn't work on.
#[derive(Clone, Copy, Debug, PartialEq, Eq)]
pub enum HandFault {
    /// Lines can't be read.
    NoLines,
    /// The output can't be written.
    NoOutput,
    /// Memory ran out.
    NoMemory,
}

impl From<NoMemory> for HandFault {
    fn from(_: NoMemory) -> HandFault {
        HandFault::NoMemory
    }
}

impl From<AllocError> for HandFault {
    fn from(_: AllocError) -> HandFault {
        HandFault::NoMemory
    }
}

impl From<SinkFault> for HandFault {
    fn from(_: SinkFault) -> HandFault {
        HandFault::NoOutput
    }
}

impl From<SourceFault> for HandFault {
    fn from(fault: SourceFault) -> HandFault {
        match fault {
            SourceFault::Failed => HandFault::NoLines,
            SourceFault::NoMemory => HandFault::NoMemory,
        }
    }
}

// The prompt: his box, and his clock.
fn prompt(alloc: Global, duty: &Duty<'_>) -> Result<String, AllocError> {
    let session = duty.session();
    session.meets_conditions();
    let mut text = String::new(alloc);
    text.push_str(session.plan().box_name(session.box_no()))?;
    text.push(' ')?;
    put_moment(&mut text, session.plan().version, duty.moment())?;
    text.push_str("> ")?;
    Ok(text)
}

// Puts the prompt, where there is one. Where it can't be put, nobody hears of it.
fn ask<L: Sink>(
    alloc: Global,
    duty: &Duty<'_>,
    manner: Manner,
    told: &mut L,
) -> Result<(), AllocError>
    ensures told { Grows (L.taken told.old) (L.taken told.new) }
    ensures later { L.faults told.old ≤ L.faults told.new }
{
    if !manner.echoes {
        let text = prompt(alloc, duty)?;
        let _ = put_all(told, text.as_bytes());
    }
    Ok(())
}

// What is put for a line: his box, where it is drawn anew, and then its passage.
fn put_passage<K: Sink, L: Sink>(
    alloc: Global,
    duty: &mut Duty<'_>,
    draws: bool,
    text: &str,
    out: &mut K,
    told: &mut L,
) -> Result<(), HandFault>
    ensures post { post_of duty.new ≡ post_of duty.old }
    ensures doings { doings_of duty.new ≡ doings_of duty.old }
    ensures put { IfOk result (λ _. K.taken out.new ≡ appended (K.taken out.old) text.now) }
    ensures grows { Grows (K.taken out.old) (K.taken out.new) }
    ensures told { Grows (L.taken told.old) (L.taken told.new) }
    ensures later { L.faults told.old ≤ L.faults told.new }
{
    draw(alloc, duty, draws, text, told)?;
    put_all(out, text.as_bytes())?;
    Ok(())
}

// A line is answered. Whether another may come.
fn answer_line<W: Store, K: Sink, L: Sink>(
    alloc: Global,
    duty: &mut Duty<'_>,
    manner: Manner,
    line: &str,
    store: &mut W,
    out: &mut K,
    told: &mut L,
) -> Result<bool, HandFault>
    requires room { length duty.old.session.calls < MOST_MADE }
    ensures post { post_of duty.new ≡ post_of duty.old }
    ensures doings { IfOk result (λ _. doings_of duty.new
        ≡ after_line (post_of duty.old) (doings_of duty.old) line.now) }
    ensures put { IfOk result (λ _. PutsPassage manner (post_of duty.old) (doings_of duty.old) line.now
        (K.taken out.old) (K.taken out.new)) }
    ensures onward { IfOk result (λ more. more ≡ not (is_end (line_read duty.old.session.plan
        duty.old.session.box_no duty.old.moment line.now))) }
    ensures grows { Grows (K.taken out.old) (K.taken out.new) }
    ensures told { Grows (L.taken told.old) (L.taken told.new) }
    ensures later { L.faults told.old ≤ L.faults told.new }
{
    let passage = serve_line(alloc, duty, store, manner, line)?;
    let draws = manner.draws && !passage.ends;
    put_passage(alloc, duty, draws, passage.text.as_str(), out, told)?;
    Ok(!passage.ends)
}

// A line is asked for, taken and answered. Whether another may come.
fn work_line<N: LineSource, W: Store, K: Sink, L: Sink>(
    alloc: Global,
    duty: &mut Duty<'_>,
    manner: Manner,
    source: &mut N,
    store: &mut W,
    out: &mut K,
    told: &mut L,
) -> Result<bool, HandFault>
    requires room { length duty.old.session.calls < MOST_MADE }
    ensures post { post_of duty.new ≡ post_of duty.old }
    ensures lines { IfOk result (λ _. AreLines manner (post_of duty.old) (doings_of duty.old)
        (doings_of duty.new) (N.given source.old) (N.given source.new) (K.taken out.old) (K.taken out.new)) }
    ensures onward { IfOk result (λ more. more ≡ true → AreOnward manner (post_of duty.old) (doings_of duty.old)
        (doings_of duty.new) (N.given source.old) (N.given source.new) (K.taken out.old) (K.taken out.new)) }
    ensures grows { Grows (K.taken out.old) (K.taken out.new) }
    ensures told { Grows (L.taken told.old) (L.taken told.new) }
    ensures later { L.faults told.old ≤ L.faults told.new }
{
    ask(alloc, duty, manner, told)?;
    let Some(line) = source.next_line(alloc)? else {
        return Ok(false);
    };
    let more = answer_line(alloc, duty, manner, line.as_str(), store, out, told)?;
    Ok(more)
}

// He works until he goes off duty, or no line comes, or he has made as many calls as he may.
fn work_lines<N: LineSource, W: Store, K: Sink, L: Sink>(
    alloc: Global,
    duty: &mut Duty<'_>,
    manner: Manner,
    source: &mut N,
    store: &mut W,
    out: &mut K,
    told: &mut L,
) -> Result<(), HandFault>
    ensures post { post_of duty.new ≡ post_of duty.old }
    ensures lines { IfOk result (λ _. AreLines manner (post_of duty.old) (doings_of duty.old)
        (doings_of duty.new) (N.given source.old) (N.given source.new) (K.taken out.old) (K.taken out.new)) }
    ensures grows { Grows (K.taken out.old) (K.taken out.new) }
    ensures told { Grows (L.taken told.old) (L.taken told.new) }
    ensures later { L.faults told.old ≤ L.faults told.new }
{
    for _ in 0..u64::MAX {
        if duty.session().is_full() {
            return Ok(());
        }
        if !work_line(alloc, duty, manner, source, store, out, told)? {
            return Ok(());
        }
    }
    Ok(())
}

/// A man works his box. He is told what he notices of what the others have done before his first call. The lines that
/// the source gives are read as `read_typed` of `typed_words` reads them; each is answered, until one is `end`, or
/// there are no more. Then come his register, his refused calls with their sentences, and where he worked against the
/// nine rules of good working. Prompts and drawn boxes go to `told`, all else to `out`.
///
/// What he has done is what the given lines make of it, and so is what is put: the same lines give the same transcript.
pub fn work_by_hand<N: LineSource, W: Store, K: Sink, L: Sink>(
    alloc: Global,
    duty: &mut Duty<'_>,
    manner: Manner,
    source: &mut N,
    store: &mut W,
    out: &mut K,
    told: &mut L,
) -> Result<(), HandFault>
    ensures post { post_of duty.new ≡ post_of duty.old }
    ensures worked { IfOk result (λ _. IsWorked manner (post_of duty.old) (doings_of duty.old)
        (doings_of duty.new) (N.given source.old) (N.given source.new) (K.taken out.old) (K.taken out.new)) }
    ensures grows { Grows (K.taken out.old) (K.taken out.new) }
    ensures told { Grows (L.taken told.old) (L.taken told.new) }
    ensures later { L.faults told.old ≤ L.faults told.new }
{
    let text = opening(alloc, duty, manner)?;
    put_passage(alloc, duty, manner.draws, text.as_str(), out, told)?;
    drop(text);
    work_lines(alloc, duty, manner, source, store, out, told)?;
    let text = ending(alloc, duty)?;
    put_all(out, text.as_bytes())?;
    Ok(())
}
