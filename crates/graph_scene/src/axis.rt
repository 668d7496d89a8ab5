//! How far to the right entries stand.

ghost use Rattle.std.specs.Prelude.{◌≡◌, ℕ, ◌+◌, ◌*◌, ◌/◌, ◌<◌, ◌≤◌, ◌^◌, All, IfOk, length, slice_index};
ghost use Rattle.line_law.specs.Known.{moments_of};
ghost use Rattle.graph_scene.specs.Moments.{AreOf, axis_of, beginning_of, earliest, end_of, latest, least_width};
ghost use Rattle.graph_scene.specs.Moments.{moments, offsets_of, places_by, room_for, room_of, rooms_of, start_at};
ghost use Rattle.graph_scene.specs.Moments.{starts_by, ten_minutes, width_for, with_room};

use crate::bars::turn_of;
use crate::deeds::deed_of;
use crate::words::{letters_of, train_name};
use line_law::{Entry, moments_of};
use line_plan::Plan;
use rail_text::NoMemory;
use std::alloc::Global;
use std::marker::Model;

/// How far to the right the entries of a journal stand.
#[derive(Debug, Drop)]
pub struct Axis {
    beginning: u32,
    ending: u32,
    // Where each moment of a day begins, from the beginning of the day.
    starts: Vec<u64>,
    // How far to the right each entry stands.
    places: Vec<u64>,
}

impl Model for Axis {
    ghost use Rattle.graph_scene.specs.Moments.{AxisFields, IsNarrow};

    ghost Value = { AxisFields };

    ghost view = { λ axis. record {
      beginning = axis.beginning;
      ending = axis.ending;
      starts = axis.starts.items;
      places = axis.places.items;
    } };

    ghost invariant = { λ axis. IsNarrow (record {
      beginning = axis.beginning;
      ending = axis.ending;
      starts = axis.starts.items;
      places = axis.places.items;
    }) };
}

// The number at a place of a list, or nothing beyond it.
fn number_at(numbers: &[u64], at: usize) -> u64
    ensures value { result ≡ slice_index numbers.now at }
    ensures most { (most : ℕ) → 0 < most → All (λ number. number < most) numbers.now → result < most }
{
    match numbers.get(at) {
        Some(number) => *number,
        None => 0,
    }
}

impl Axis {
    /// The moment at which the graph begins, a full ten minutes.
    pub fn beginning(&self) -> u32
        ensures value { result ≡ self.now.beginning }
        ensures most { result < 2 ^ 20 }
    {
        self.beginning
    }

    /// The moment at which it ends.
    pub fn ending(&self) -> u32
        ensures value { result ≡ self.now.ending }
        ensures most { result < 2 ^ 20 }
    {
        self.ending
    }

    /// Where a moment begins, from the graph's left end.
    pub fn start_at(&self, moment: u32) -> u64
        ensures value { result ≡ start_at self.now moment }
        ensures most { result < 2 ^ 60 }
    {
        let start = number_at(&self.starts, moment as usize);
        start.saturating_sub(number_at(&self.starts, self.beginning as usize))
    }

    /// How far to the right an entry stands, numbered from 0.
    pub fn place_of(&self, entry: usize) -> u64
        ensures value { result ≡ slice_index self.now.places entry }
        ensures most { result < 2 ^ 61 }
    {
        number_at(&self.places, entry)
    }
}

/// How many moments ten minutes have.
pub fn ten_minutes(version: u8) -> u32
    ensures { result ≡ ten_minutes version }
{
    if version == 1 { 10 } else { 600 }
}

// The least width of a moment.
fn least_width(version: u8) -> u64
    ensures { result ≡ least_width version }
{
    if version == 1 { 24 } else { 1 }
}

// The width of a moment of which so much room is taken.
fn width_for(version: u8, room: u64) -> u64
    requires { room < 2 ^ 40 }
    ensures value { result ≡ width_for version room }
    ensures most { result < 2 ^ 40 }
{
    least_width(version).max(room)
}

// The room that a mark takes with so many letters beside it.
fn room_for(letters: usize) -> u64
    ensures value { result ≡ room_for letters }
    ensures most { result ≤ 158 }
{
    if letters == 0 {
        8
    } else {
        14 + 6 * letters.min(24) as u64
    }
}

// The room that an entry takes.
fn room_of(plan: &Plan, entry: &Entry) -> u64
    requires { entry.now.box_no < length plan.now.boxes }
    ensures value { result ≡ room_of plan.now entry.now }
    ensures most { result ≤ 158 }
{
    match deed_of(plan, 0, entry) {
        Some(its) => room_for(letters_of(train_name(plan, its.train), its.deed)),
        None if turn_of(entry).is_some() => room_for(0),
        None => 0,
    }
}

// The earliest moment of entries, and one more.
fn earliest(moment: u32, entries: &[Entry]) -> u32
    ensures { result ≡ earliest moment (moments entries.now) }
{
    let mut first = moment;
    for entry in entries {
        first = first.min(entry.call.moment);
    }
    first
}

// The latest moment of entries, and one more.
fn latest(moment: u32, entries: &[Entry]) -> u32
    ensures { result ≡ latest moment (moments entries.now) }
{
    let mut last = moment;
    for entry in entries {
        last = last.max(entry.call.moment);
    }
    last
}

// The room that entries take of each moment of a day, and that taken before each entry of its own.
#[derive(Drop)]
struct Rooms {
    taken: Vec<u64>,
    offsets: Vec<u64>,
}

// Takes the room of an entry from its moment, and tells how much of that was taken before.
fn take_room(taken: &mut [u64], plan: &Plan, entry: &Entry) -> u64
    requires box_no { entry.now.box_no < length plan.now.boxes }
    requires moment { entry.now.call.moment < length taken.old }
    requires few { slice_index taken.old entry.now.call.moment < 2 ^ 40 }
    ensures offset { result ≡ slice_index taken.old entry.now.call.moment }
    ensures taken { taken.new ≡ with_room plan.now entry.now taken.old }
{
    let moment = entry.call.moment as usize;
    let offset = taken[moment];
    taken[moment] = offset + room_of(plan, entry);
    offset
}

// The room that entries take.
#[tactic(auto, using(crate::proofs::Rooms::room_rules))]
fn rooms_of(alloc: Global, plan: &Plan, entries: &[Entry]) -> Result<Rooms, NoMemory>
    requires of { AreOf plan.now entries.now }
    requires few { length entries.now < 2 ^ 32 }
    ensures taken { IfOk result (λ rooms. rooms.taken.items ≡ rooms_of plan.now entries.now) }
    ensures offsets { IfOk result (λ rooms. rooms.offsets.items ≡ offsets_of plan.now entries.now) }
{
    let mut taken: Vec<u64> = vec![in alloc; 0; moments_of(plan.version) as usize]?;
    let mut offsets = Vec::new(alloc);
    for entry in entries {
        offsets.push(take_room(&mut taken, plan, entry))?;
    }
    Ok(Rooms { taken, offsets })
}

// Where each moment begins, by the room that is taken of each.
#[tactic(auto, using(crate::proofs::Days::step_rules))]
fn starts_by(alloc: Global, version: u8, rooms: &[u64]) -> Result<Vec<u64>, NoMemory>
    requires few { length rooms.now < 2 ^ 20 }
    requires each { All (λ room. room < 2 ^ 40) rooms.now }
    ensures value { IfOk result (λ starts. starts.items ≡ starts_by version rooms.now) }
    ensures most { IfOk result (λ starts. All (λ start. start < 2 ^ 60) starts.items) }
{
    let mut starts = Vec::new(alloc);
    let mut start: u64 = 0;
    for room in rooms {
        starts.push(start)?;
        start += width_for(version, *room);
    }
    starts.push(start)?;
    Ok(starts)
}

// How far to the right each entry stands, in a graph that begins at a moment.
fn place_entries(
    alloc: Global,
    entries: &[Entry],
    starts: &[u64],
    offsets: &[u64],
    beginning: u32,
) -> Result<Vec<u64>, NoMemory>
    requires starts { All (λ start. start < 2 ^ 60) starts.now }
    requires offsets { All (λ offset. offset < 2 ^ 40) offsets.now }
    requires each { length offsets.now ≡ length entries.now }
    requires within { All (λ e. e.call.moment < length starts.now) entries.now }
    requires beginning { beginning < length starts.now }
    ensures value { IfOk result (λ places. places.items
        ≡ places_by starts.now offsets.now beginning (moments entries.now)) }
    ensures most { IfOk result (λ places. All (λ place. place < 2 ^ 61) places.items) }
{
    let left = starts[beginning as usize];
    let mut places = Vec::new(alloc);
    for (number, entry) in entries.iter().enumerate() {
        let start = starts[entry.call.moment as usize];
        places.push(start.saturating_sub(left) + offsets[number])?;
    }
    Ok(places)
}

// The full ten minutes at or before a moment.
fn full_before(version: u8, moment: u32) -> u32
    ensures value { result ≡ moment / ten_minutes version * ten_minutes version }
    ensures most { result ≤ moment }
{
    if version == 1 {
        moment / 10 * 10
    } else {
        moment / 600 * 600
    }
}

// The full ten minutes after a moment of a day.
fn full_after(version: u8, moment: u32) -> u32
    requires { moment < moments_of version }
    ensures value { result ≡ (moment / ten_minutes version + 1) * ten_minutes version }
    ensures most { result < 2 ^ 20 }
{
    if version == 1 {
        (moment / 10 + 1) * 10
    } else {
        (moment / 600 + 1) * 600
    }
}

// The moment at which a graph of entries begins.
#[tactic(auto, using(crate::proofs::Days::day_rules))]
fn beginning_of(plan: &Plan, entries: &[Entry]) -> u32
    ensures value { result ≡ beginning_of plan.now entries.now }
    ensures most { result < moments_of plan.now.version }
{
    let last = moments_of(plan.version) - 1;
    full_before(plan.version, earliest(last, entries))
}

// The moment at which it ends.
#[tactic(auto, using(crate::proofs::Days::day_rules))]
fn end_of(plan: &Plan, entries: &[Entry]) -> u32
    requires { AreOf plan.now entries.now }
    ensures value { result ≡ end_of plan.now entries.now }
    ensures most { result < 2 ^ 20 }
{
    full_after(plan.version, latest(0, entries))
}

/// How far to the right the entries of a journal stand.
#[tactic(auto, using(crate::proofs::Days::day_rules))]
pub fn axis_of(alloc: Global, plan: &Plan, entries: &[Entry]) -> Result<Axis, NoMemory>
    requires of { AreOf plan.now entries.now }
    requires few { length entries.now < 2 ^ 32 }
    ensures { IfOk result (λ axis. axis ≡ axis_of plan.now entries.now) }
{
    let rooms = rooms_of(alloc, plan, entries)?;
    let starts = starts_by(alloc, plan.version, &rooms.taken)?;
    let beginning = beginning_of(plan, entries);
    let places = place_entries(alloc, entries, &starts, &rooms.offsets, beginning)?;
    Ok(Axis {
        beginning,
        ending: end_of(plan, entries),
        starts,
        places,
    })
}
