//! What stands at a box, in numbers.

ghost use Rattle.std.specs.Prelude.{◌≡◌, ◌≢◌, ◌↔◌, ◌≤◌, ◌<◌, IfOk, None, length, map};
ghost use Rattle.line_numbers.specs.ThingParts.{thing_numbers};
ghost use Rattle.line_c.specs.Looks.{Fills, numbers_at};
ghost use Rattle.line_c.specs.Taken.{Holds};

use crate::status::{CLOSED, DONE, NO_MEMORY, NO_ROOM, UNKNOWN};
use engine_handle::Handle;
use line_engine::Engine;
use line_numbers::{ThingNumbers, thing_numbers};
use look_records::BoxThing;
use rail_text::NoMemory;
use std::alloc::{AllocError, Global};

// Things in numbers.
fn numbers_of(alloc: Global, things: &[BoxThing]) -> Result<Vec<ThingNumbers>, AllocError>
    ensures { IfOk result (λ numbers. numbers.items ≡ map thing_numbers things.now) }
{
    things
        .iter()
        .map(|thing| thing_numbers(thing))
        .collect(alloc)
}

// What stands at a box, in numbers.
fn numbers_at(alloc: Global, engine: &Engine, box_no: u32) -> Result<Vec<ThingNumbers>, NoMemory>
    requires { box_no < length engine.now.service.plan.boxes }
    ensures { IfOk result (λ numbers. numbers.items ≡ numbers_at engine.now box_no) }
{
    let things = engine.things_at(alloc, box_no)?;
    Ok(numbers_of(alloc, &things)?)
}

// Things fill the front of a room.
fn fill(numbers: &[ThingNumbers], room: &mut [ThingNumbers])
    requires { length numbers.now ≤ length room.old }
    ensures { Fills numbers.now room.old room.new }
{
    room[..numbers.len()].copy_from_slice(numbers);
}

// So many things are told, where they have room.
fn tell(numbers: &[ThingNumbers], room: &mut [ThingNumbers], count: &mut u64) -> u32
    ensures count { count.new ≡ length numbers.now }
    ensures done { result ≡ DONE → Fills numbers.now room.old room.new }
    ensures full { result ≢ DONE → (result ≡ NO_ROOM) × (length room.old < length numbers.now) }
    ensures same { result ≢ DONE → room.new ≡ room.old }
{
    *count = numbers.len() as u64;
    if numbers.len() > room.len() {
        return NO_ROOM;
    }
    fill(numbers, room);
    DONE
}

// What stands at a box is told.
fn look_on(
    alloc: Global,
    engine: &Engine,
    box_no: u32,
    room: &mut [ThingNumbers],
    count: &mut u64,
) -> u32
    ensures done { result ≡ DONE → Fills (numbers_at engine.now box_no) room.old room.new }
    ensures count { result ≡ DONE → count.new ≡ length (numbers_at engine.now box_no) }
    ensures full { result ≡ NO_ROOM → count.new ≡ length (numbers_at engine.now box_no) }
    ensures unknown { result ≡ UNKNOWN ↔ length engine.now.service.plan.boxes ≤ box_no }
    ensures others { result ≢ DONE → result ≢ NO_ROOM → result ≢ UNKNOWN → result ≡ NO_MEMORY }
    ensures held { result ≢ CLOSED }
    ensures same { result ≢ DONE → room.new ≡ room.old }
{
    if box_no as usize >= engine.plan().boxes.len() {
        return UNKNOWN;
    }
    match numbers_at(alloc, engine, box_no) {
        Ok(numbers) => tell(&numbers, room, count),
        Err(NoMemory) => NO_MEMORY,
    }
}

/// Tells what stands at a box, where the room is enough; how many things that are is told either way.
#[unsafe(no_mangle)]
pub extern "C" fn line_look(
    alloc: Global,
    line: &mut Handle,
    box_no: u32,
    things: &mut [ThingNumbers],
    count: &mut u64,
) -> u32
    ensures closed { result ≡ CLOSED ↔ line.old.slot.held ≡ None }
    ensures done { result ≡ DONE
        → Holds line.old.slot.held (λ engine. Fills (numbers_at engine box_no) things.old things.new) }
    ensures count { result ≡ DONE → Holds line.old.slot.held (λ engine. count.new ≡ length (numbers_at engine box_no)) }
    ensures full { result ≡ NO_ROOM
        → Holds line.old.slot.held (λ engine. count.new ≡ length (numbers_at engine box_no)) }
    ensures unknown { Holds line.old.slot.held
        (λ engine. result ≡ UNKNOWN ↔ length engine.service.plan.boxes ≤ box_no) }
    ensures others { result ≢ DONE → result ≢ NO_ROOM → result ≢ UNKNOWN → result ≢ CLOSED → result ≡ NO_MEMORY }
    ensures kept { line.new.slot.held ≡ line.old.slot.held }
    ensures same { result ≢ DONE → things.new ≡ things.old }
{
    let Some(engine) = line.take() else {
        return CLOSED;
    };
    let status = look_on(alloc, &engine, box_no, things, count);
    line.hold(engine);
    status
}
