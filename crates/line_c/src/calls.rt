//! Calls in numbers.

ghost use Rattle.std.specs.Prelude.{◌≡◌, ◌≢◌, ◌<◌, ◌≤◌, ◌-◌, ◌↔◌, None, IfOk, IfErr, length, slice_get, Some};
ghost use Rattle.line_law.specs.Known.{KnowsCall};
ghost use Rattle.line_numbers.specs.CallParts.{call_numbers};
ghost use Rattle.line_engine.specs.Engines.{reply_asked};
ghost use Rattle.line_c.specs.Calls.{IsAnsweredBy, IsEntryAt, IsMadeOf, IsPerformed, IsRead, IsUnread, entry_numbers};
ghost use Rattle.line_c.specs.Statuses.{entry_of_numbers, status_of, status_of_fault};
ghost use Rattle.line_c.specs.Taken.{Holds, Takes};

use crate::lines::{FaultNumbers, fault_numbers};
use crate::status::{CLOSED, DONE, NO_MEMORY, REFUSED, UNKNOWN, status_of_fault};
use engine_handle::Handle;
use line_engine::{CallFault, Engine};
use line_law::{Entry, Reply};
use line_numbers::{CallNumbers, ReplyNumbers, call_in, call_numbers, reply_numbers};

/// An entry of a journal in numbers.
#[repr(C)]
#[derive(Clone, Copy, Debug, PartialEq, Eq)]
pub struct EntryNumbers {
    /// Its number in the journal, from 1.
    pub number: u64,
    /// The call.
    pub call: CallNumbers,
    /// What it was answered.
    pub reply: ReplyNumbers,
}

// An entry in numbers.
fn entry_numbers(number: u64, entry: &Entry) -> EntryNumbers
    ensures { result ≡ entry_numbers number entry.now }
{
    EntryNumbers {
        number,
        call: call_numbers(entry.box_no, &entry.call),
        reply: reply_numbers(&entry.reply),
    }
}

// The call of these numbers is made, where it may be.
fn perform_in(engine: &mut Engine, numbers: &CallNumbers) -> Result<Entry, CallFault>
    ensures { IsMadeOf engine.old numbers.now engine.new result }
{
    match call_in(numbers) {
        Some(call) => engine.perform(numbers.box_no, &call),
        None => Err(CallFault::NotKnown),
    }
}

// Its entry is told.
#[tactic(auto, using(crate::proofs::Unmade::unmade_kept, crate::proofs::Unmade::unmade_why))]
fn perform_on(engine: &mut Engine, numbers: &CallNumbers, told: &mut EntryNumbers) -> u32
    ensures done { result ≡ DONE → IsPerformed engine.old numbers.now engine.new told.new }
    ensures why { result ≢ NO_MEMORY → result ≡ status_of (entry_of_numbers engine.old.service numbers.now) }
    ensures kept { result ≢ DONE → engine.new ≡ engine.old }
    ensures same { result ≢ DONE → told.new ≡ told.old }
{
    let number = engine.entries().len() as u64 + 1;
    match perform_in(engine, numbers) {
        Ok(entry) => {
            *told = entry_numbers(number, &entry);
            DONE
        }
        Err(fault) => status_of_fault(fault),
    }
}

/// Makes the call of these numbers, and tells its entry. A call that the law refuses is an entry too. Where it isn't
/// made, nothing is changed.
#[unsafe(no_mangle)]
pub extern "C" fn line_perform(
    line: &mut Handle,
    call: &CallNumbers,
    entry: &mut EntryNumbers,
) -> u32
    ensures closed { result ≡ CLOSED ↔ line.old.slot.held ≡ None }
    ensures done { result ≡ DONE
        → Takes line.old.slot.held line.new.slot.held (λ old new. IsPerformed old call.now new entry.new) }
    ensures why { result ≢ NO_MEMORY
        → Holds line.old.slot.held (λ old. result ≡ status_of (entry_of_numbers old.service call.now)) }
    ensures kept { result ≢ DONE → line.new.slot.held ≡ line.old.slot.held }
    ensures same { result ≢ DONE → entry.new ≡ entry.old }
{
    let Some(mut engine) = line.take() else {
        return CLOSED;
    };
    let status = perform_on(&mut engine, call, entry);
    line.hold(engine);
    status
}

// The reply that the call of these numbers would get.
fn answer_in(engine: &Engine, numbers: &CallNumbers) -> Result<Reply, CallFault>
    ensures { result ≡ reply_asked (entry_of_numbers engine.now.service numbers.now) }
{
    match call_in(numbers) {
        Some(call) => engine.answer(numbers.box_no, &call),
        None => Err(CallFault::NotKnown),
    }
}

// It is told.
fn answer_on(engine: &Engine, numbers: &CallNumbers, told: &mut ReplyNumbers) -> u32
    ensures done { result ≡ DONE → IsAnsweredBy engine.now numbers.now told.new }
    ensures why { result ≡ status_of (entry_of_numbers engine.now.service numbers.now) }
    ensures same { result ≢ DONE → told.new ≡ told.old }
{
    match answer_in(engine, numbers) {
        Ok(reply) => {
            *told = reply_numbers(&reply);
            DONE
        }
        Err(fault) => status_of_fault(fault),
    }
}

/// Tells what the call of these numbers would be answered if it were made now. Nothing is changed.
#[unsafe(no_mangle)]
pub extern "C" fn line_answer(
    line: &mut Handle,
    call: &CallNumbers,
    reply: &mut ReplyNumbers,
) -> u32
    ensures closed { result ≡ CLOSED ↔ line.old.slot.held ≡ None }
    ensures done { result ≡ DONE → Holds line.old.slot.held (λ engine. IsAnsweredBy engine call.now reply.new) }
    ensures why { Holds line.old.slot.held (λ engine. result ≡ status_of (entry_of_numbers engine.service call.now)) }
    ensures kept { line.new.slot.held ≡ line.old.slot.held }
    ensures same { result ≢ DONE → reply.new ≡ reply.old }
{
    let Some(engine) = line.take() else {
        return CLOSED;
    };
    let status = answer_on(&engine, call, reply);
    line.hold(engine);
    status
}

// The call that a line of a script spells is told in numbers.
fn read_on(
    engine: &Engine,
    box_no: u32,
    text: &[u8],
    call: &mut CallNumbers,
    fault: &mut FaultNumbers,
) -> u32
    ensures done { result ≡ DONE → IsRead engine.now box_no text.now call.new }
    ensures refused { result ≡ REFUSED → IsUnread engine.now box_no text.now fault.new }
    ensures unknown { result ≡ UNKNOWN ↔ length engine.now.service.plan.boxes ≤ box_no }
    ensures others { result ≢ DONE → result ≢ REFUSED → result ≡ UNKNOWN }
    ensures held { result ≢ CLOSED }
    ensures same { result ≢ DONE → call.new ≡ call.old }
    ensures none { result ≢ REFUSED → fault.new ≡ fault.old }
{
    if box_no as usize >= engine.plan().boxes.len() {
        return UNKNOWN;
    }
    match engine.call_of(box_no, text) {
        Ok(read) => {
            *call = call_numbers(box_no, &read);
            DONE
        }
        Err(cause) => {
            *fault = fault_numbers(1, cause);
            REFUSED
        }
    }
}

/// Tells in numbers the call that a line of a box's script spells, the moment and what is done; or why it spells none.
/// Nothing is changed.
#[unsafe(no_mangle)]
pub extern "C" fn line_read_call(
    line: &mut Handle,
    box_no: u32,
    text: &[u8],
    call: &mut CallNumbers,
    fault: &mut FaultNumbers,
) -> u32
    ensures closed { result ≡ CLOSED ↔ line.old.slot.held ≡ None }
    ensures done { result ≡ DONE → Holds line.old.slot.held (λ engine. IsRead engine box_no text.now call.new) }
    ensures refused { result ≡ REFUSED
        → Holds line.old.slot.held (λ engine. IsUnread engine box_no text.now fault.new) }
    ensures unknown { Holds line.old.slot.held
        (λ engine. result ≡ UNKNOWN ↔ length engine.service.plan.boxes ≤ box_no) }
    ensures others { result ≢ DONE → result ≢ REFUSED → result ≢ UNKNOWN → result ≡ CLOSED }
    ensures kept { line.new.slot.held ≡ line.old.slot.held }
    ensures same { result ≢ DONE → call.new ≡ call.old }
    ensures none { result ≢ REFUSED → fault.new ≡ fault.old }
{
    let Some(engine) = line.take() else {
        return CLOSED;
    };
    let status = read_on(&engine, box_no, text, call, fault);
    line.hold(engine);
    status
}

// The entry with a number is told.
fn entry_on(engine: &Engine, number: u64, told: &mut EntryNumbers) -> u32
    ensures done { result ≡ DONE → IsEntryAt engine.now number told.new }
    ensures unknown { result ≢ DONE → result ≡ UNKNOWN }
    ensures there { 0 < number → number ≤ length engine.now.service.entries → result ≡ DONE }
    ensures same { result ≢ DONE → told.new ≡ told.old }
{
    let entries = engine.entries();
    if number == 0 || number > entries.len() as u64 {
        return UNKNOWN;
    }
    *told = entry_numbers(number, &entries[number as usize - 1]);
    DONE
}

/// Tells the entry with a number, from 1. Nothing is changed.
#[unsafe(no_mangle)]
pub extern "C" fn line_entry(line: &mut Handle, number: u64, entry: &mut EntryNumbers) -> u32
    ensures closed { result ≡ CLOSED ↔ line.old.slot.held ≡ None }
    ensures done { result ≡ DONE → Holds line.old.slot.held (λ engine. IsEntryAt engine number entry.new) }
    ensures there { 0 < number
        → Holds line.old.slot.held (λ engine. number ≤ length engine.service.entries → result ≡ DONE) }
    ensures others { result ≢ DONE → result ≢ UNKNOWN → result ≡ CLOSED }
    ensures kept { line.new.slot.held ≡ line.old.slot.held }
    ensures same { result ≢ DONE → entry.new ≡ entry.old }
{
    let Some(engine) = line.take() else {
        return CLOSED;
    };
    let status = entry_on(&engine, number, entry);
    line.hold(engine);
    status
}
