//! Calls that have a text to tell.

ghost use Rattle.std.specs.Prelude.{◌≡◌, ◌≢◌, ◌↔◌, ◌<◌, None, length};
ghost use Rattle.line_report.specs.Hearings.{text_judged};
ghost use Rattle.line_c.specs.Lines.{IsRefused};
ghost use Rattle.line_c.specs.Looks.{Fills};
ghost use Rattle.line_c.specs.Taken.{Holds, Takes};
ghost use Rattle.line_c.specs.Texts.{IsJournal, IsJudgement, IsRequested};

use crate::lines::{FaultNumbers, refuse};
use crate::rooms::copy;
use crate::status::{CLOSED, DONE, NO_MEMORY, NO_ROOM, REFUSED};
use engine_handle::Handle;
use line_engine::Engine;
use rail_text::NoMemory;
use std::alloc::Global;

// A request is answered.
fn request_on(alloc: Global, engine: &mut Engine, request: &[u8], size: &mut u64) -> u32
    ensures done { result ≡ DONE → IsRequested engine.old request.now engine.new size.new }
    ensures memory { result ≢ DONE → result ≡ NO_MEMORY }
    ensures kept { result ≢ DONE → engine.new ≡ engine.old }
    ensures same { result ≢ DONE → size.new ≡ size.old }
{
    match engine.request(alloc, request) {
        Ok(()) => {
            *size = engine.text().len() as u64;
            DONE
        }
        Err(NoMemory) => NO_MEMORY,
    }
}

/// Answers a request, a line of JSON as `signalbox serve` takes it. The answer is the text to tell.
#[unsafe(no_mangle)]
pub extern "C" fn line_request(
    alloc: Global,
    line: &mut Handle,
    request: &[u8],
    size: &mut u64,
) -> u32
    ensures closed { result ≡ CLOSED ↔ line.old.slot.held ≡ None }
    ensures done { result ≡ DONE
        → Takes line.old.slot.held line.new.slot.held (λ old new. IsRequested old request.now new size.new) }
    ensures memory { result ≢ DONE → result ≢ CLOSED → result ≡ NO_MEMORY }
    ensures kept { result ≢ DONE → line.new.slot.held ≡ line.old.slot.held }
    ensures same { result ≢ DONE → size.new ≡ size.old }
{
    let Some(mut engine) = line.take() else {
        return CLOSED;
    };
    let status = request_on(alloc, &mut engine, request, size);
    line.hold(engine);
    status
}

// The journal is made.
fn journal_on(alloc: Global, engine: &mut Engine, size: &mut u64) -> u32
    ensures done { result ≡ DONE → IsJournal engine.old engine.new size.new }
    ensures memory { result ≢ DONE → result ≡ NO_MEMORY }
    ensures kept { result ≢ DONE → engine.new ≡ engine.old }
    ensures same { result ≢ DONE → size.new ≡ size.old }
{
    match engine.journal(alloc) {
        Ok(()) => {
            *size = engine.text().len() as u64;
            DONE
        }
        Err(NoMemory) => NO_MEMORY,
    }
}

/// The journal of the calls made so far, as `box_main` prints one, is the text to tell.
#[unsafe(no_mangle)]
pub extern "C" fn line_journal(alloc: Global, line: &mut Handle, size: &mut u64) -> u32
    ensures closed { result ≡ CLOSED ↔ line.old.slot.held ≡ None }
    ensures done { result ≡ DONE → Takes line.old.slot.held line.new.slot.held (λ old new. IsJournal old new size.new) }
    ensures memory { result ≢ DONE → result ≢ CLOSED → result ≡ NO_MEMORY }
    ensures kept { result ≢ DONE → line.new.slot.held ≡ line.old.slot.held }
    ensures same { result ≢ DONE → size.new ≡ size.old }
{
    let Some(mut engine) = line.take() else {
        return CLOSED;
    };
    let status = journal_on(alloc, &mut engine, size);
    line.hold(engine);
    status
}

// A text is judged.
fn judge_on(
    alloc: Global,
    engine: &mut Engine,
    journal: &[u8],
    size: &mut u64,
    fault: &mut FaultNumbers,
) -> u32
    ensures done { result ≡ DONE → IsJudgement engine.old journal.now engine.new size.new }
    ensures refused { result ≡ REFUSED
        → IsRefused (text_judged engine.old.service.plan journal.now) fault.new }
    ensures held { result ≢ CLOSED }
    ensures others { result ≢ DONE → result ≢ REFUSED → result ≡ NO_MEMORY }
    ensures kept { result ≢ DONE → engine.new ≡ engine.old }
    ensures same { result ≢ DONE → size.new ≡ size.old }
    ensures none { result ≢ REFUSED → fault.new ≡ fault.old }
{
    match engine.judge(alloc, journal) {
        Ok(()) => {
            *size = engine.text().len() as u64;
            DONE
        }
        Err(error) => refuse(error, fault),
    }
}

/// What `box_main judge` finds of the text of a journal of the plan is the text to tell; or the line and the cause of
/// the text's first fault are told. The calls made so far have no part in it.
#[unsafe(no_mangle)]
pub extern "C" fn line_judge(
    alloc: Global,
    line: &mut Handle,
    journal: &[u8],
    size: &mut u64,
    fault: &mut FaultNumbers,
) -> u32
    ensures closed { result ≡ CLOSED ↔ line.old.slot.held ≡ None }
    ensures done { result ≡ DONE
        → Takes line.old.slot.held line.new.slot.held (λ old new. IsJudgement old journal.now new size.new) }
    ensures refused { result ≡ REFUSED
        → Holds line.old.slot.held (λ old. IsRefused (text_judged old.service.plan journal.now) fault.new) }
    ensures others { result ≢ DONE → result ≢ REFUSED → result ≢ CLOSED → result ≡ NO_MEMORY }
    ensures kept { result ≢ DONE → line.new.slot.held ≡ line.old.slot.held }
    ensures same { result ≢ DONE → size.new ≡ size.old }
    ensures none { result ≢ REFUSED → fault.new ≡ fault.old }
{
    let Some(mut engine) = line.take() else {
        return CLOSED;
    };
    let status = judge_on(alloc, &mut engine, journal, size, fault);
    line.hold(engine);
    status
}

/// Copies the text that the last call had to tell, where the room is enough; its length is told either way.
#[unsafe(no_mangle)]
pub extern "C" fn line_text(line: &mut Handle, room: &mut [u8], size: &mut u64) -> u32
    ensures closed { result ≡ CLOSED ↔ line.old.slot.held ≡ None }
    ensures size { Holds line.old.slot.held (λ engine. size.new ≡ length engine.text) }
    ensures done { result ≡ DONE → Holds line.old.slot.held (λ engine. Fills engine.text room.old room.new) }
    ensures full { result ≡ NO_ROOM → Holds line.old.slot.held (λ engine. length room.old < length engine.text) }
    ensures others { result ≢ DONE → result ≢ NO_ROOM → result ≡ CLOSED }
    ensures kept { line.new.slot.held ≡ line.old.slot.held }
    ensures same { result ≢ DONE → room.new ≡ room.old }
{
    let Some(engine) = line.take() else {
        return CLOSED;
    };
    let status = copy(engine.text(), room, size);
    line.hold(engine);
    status
}
