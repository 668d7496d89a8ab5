//! Lines that open and close.

ghost use Rattle.std.specs.Prelude.{◌≡◌, ◌≢◌, ◌↔◌, ◌<◌, IsOk, None, Some, length};
ghost use Rattle.plan_draft.specs.Reading.{plan_of};
ghost use Rattle.rail_text.specs.Gives.{FailsText};
ghost use Rattle.line_numbers.specs.CauseNumbers.{cause_number};
ghost use Rattle.line_c.specs.Lines.{IsExplained, IsOpened, IsRefusal, IsRefused, engine_box, fault_numbers};
ghost use Rattle.line_c.specs.Taken.{Holds};

use crate::rooms::copy;
use crate::status::{CLOSED, DONE, NO_MEMORY, NO_ROOM, OPEN, REFUSED, UNKNOWN};
use engine_handle::Handle;
use line_engine::{Engine, why_refused};
use line_numbers::cause_number;
use rail_text::{Cause, NoMemory, ReadError};
use std::alloc::{AllocError, Global};

/// Where a text has its first fault, and its cause. The line 0 stands for the text as a whole.
#[repr(C)]
#[derive(Clone, Copy, Debug, PartialEq, Eq)]
pub struct FaultNumbers {
    pub line: u32,
    pub cause: u32,
}

/// A fault in numbers.
pub(crate) fn fault_numbers(line: u32, cause: Cause) -> FaultNumbers
    ensures { result ≡ fault_numbers line cause }
{
    FaultNumbers {
        line,
        cause: cause_number(cause),
    }
}

/// What is answered where a text isn't read, and its fault, where it has one.
pub(crate) fn refuse(error: ReadError, fault: &mut FaultNumbers) -> u32
    ensures told { IsRefusal error result fault.old fault.new }
    ensures others { result ≢ REFUSED → result ≡ NO_MEMORY }
{
    match error {
        ReadError::Refused { line, cause } => {
            *fault = fault_numbers(line, cause);
            REFUSED
        }
        ReadError::NoMemory => NO_MEMORY,
    }
}

// An engine is put at a handle that is closed.
fn hold(line: &mut Handle, engine: Engine) -> u32
    requires { line.old.slot.held ≡ None }
    ensures done { result ≡ DONE → line.new.slot.held ≡ Some engine }
    ensures memory { result ≢ DONE → result ≡ NO_MEMORY }
    ensures kept { result ≢ DONE → line.new.slot.held ≡ None }
{
    match line.put(engine) {
        Ok(()) => DONE,
        Err(AllocError) => NO_MEMORY,
    }
}

/// Opens the line of the plan that a text spells; or tells the line and the cause of the text's first fault.
#[unsafe(no_mangle)]
pub extern "C" fn line_open(
    alloc: Global,
    line: &mut Handle,
    plan: &[u8],
    fault: &mut FaultNumbers,
) -> u32
    ensures done { result ≡ DONE → IsOpened plan.now line.new.slot.held }
    ensures refused { result ≡ REFUSED → IsRefused (plan_of plan.now) fault.new }
    ensures was_open { result ≡ OPEN ↔ line.old.slot.held ≢ None }
    ensures others { result ≢ DONE → result ≢ REFUSED → result ≢ OPEN → result ≡ NO_MEMORY }
    ensures kept { result ≢ DONE → line.new.slot.held ≡ line.old.slot.held }
    ensures none { result ≢ REFUSED → fault.new ≡ fault.old }
{
    if line.is_open() {
        return OPEN;
    }
    match Engine::open(alloc, plan) {
        Ok(engine) => hold(line, engine),
        Err(error) => refuse(error, fault),
    }
}

/// Closes a line, and gives back what it holds.
#[unsafe(no_mangle)]
pub extern "C" fn line_close(line: &mut Handle) -> u32
    ensures closed { result ≡ CLOSED ↔ line.old.slot.held ≡ None }
    ensures done { result ≢ CLOSED → result ≡ DONE }
    ensures after { line.new.slot.held ≡ None }
{
    let Some(engine) = line.take() else {
        return CLOSED;
    };
    drop(engine);
    DONE
}

/// Tells how many boxes a line has, and how many entries there are.
#[unsafe(no_mangle)]
pub extern "C" fn line_count(line: &mut Handle, boxes: &mut u64, entries: &mut u64) -> u32
    ensures closed { result ≡ CLOSED ↔ line.old.slot.held ≡ None }
    ensures boxes { Holds line.old.slot.held (λ engine. boxes.new ≡ length engine.service.plan.boxes) }
    ensures entries { Holds line.old.slot.held (λ engine. entries.new ≡ length engine.service.entries) }
    ensures done { result ≢ CLOSED → result ≡ DONE }
    ensures kept { line.new.slot.held ≡ line.old.slot.held }
    ensures no_boxes { result ≡ CLOSED → boxes.new ≡ boxes.old }
    ensures no_entries { result ≡ CLOSED → entries.new ≡ entries.old }
{
    let Some(engine) = line.take() else {
        return CLOSED;
    };
    *boxes = engine.plan().boxes.len() as u64;
    *entries = engine.entries().len() as u64;
    line.hold(engine);
    DONE
}

// The number of the box of a name is told.
fn box_on(engine: &Engine, name: &[u8], box_no: &mut u32) -> u32
    ensures done { result ≡ DONE → engine_box engine.now name.now ≡ Some box_no.new }
    ensures unknown { result ≢ DONE → (result ≡ UNKNOWN) × (engine_box engine.now name.now ≡ None) }
    ensures same { result ≢ DONE → box_no.new ≡ box_no.old }
{
    match engine.box_named(name) {
        Some(found) => {
            *box_no = found;
            DONE
        }
        None => UNKNOWN,
    }
}

/// Tells the number of the box of a name, from 0, where the line has one.
#[unsafe(no_mangle)]
pub extern "C" fn line_box(line: &mut Handle, name: &[u8], box_no: &mut u32) -> u32
    ensures closed { result ≡ CLOSED ↔ line.old.slot.held ≡ None }
    ensures done { result ≡ DONE → Holds line.old.slot.held (λ engine. engine_box engine name.now ≡ Some box_no.new) }
    ensures unknown { result ≡ UNKNOWN → Holds line.old.slot.held (λ engine. engine_box engine name.now ≡ None) }
    ensures others { result ≢ DONE → result ≢ UNKNOWN → result ≡ CLOSED }
    ensures kept { line.new.slot.held ≡ line.old.slot.held }
    ensures same { result ≢ DONE → box_no.new ≡ box_no.old }
{
    let Some(engine) = line.take() else {
        return CLOSED;
    };
    let status = box_on(&engine, name, box_no);
    line.hold(engine);
    status
}

/// Tells why the text of a plan is refused, as people are told it, where the room is enough; its length is told either
/// way. Of a text that spells a plan nothing is told.
#[unsafe(no_mangle)]
pub extern "C" fn line_explain(alloc: Global, plan: &[u8], room: &mut [u8], size: &mut u64) -> u32
    ensures done { result ≡ DONE → IsExplained plan.now room.old room.new size.new }
    ensures plan { result ≡ UNKNOWN → IsOk (plan_of plan.now) }
    ensures full { result ≡ NO_ROOM → length room.old < size.new }
    ensures others { result ≢ DONE → result ≢ NO_ROOM → result ≢ UNKNOWN → result ≡ NO_MEMORY }
    ensures same { result ≢ DONE → room.new ≡ room.old }
{
    match why_refused(alloc, plan) {
        Ok(Some(text)) => copy(text.as_bytes(), room, size),
        Ok(None) => UNKNOWN,
        Err(NoMemory) => NO_MEMORY,
    }
}
