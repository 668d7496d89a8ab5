//! The most trains that each section of a line held.

ghost use Rattle.std.specs.Prelude.{◌≡◌, ◌+◌, ◌++◌, ◌∷◌, ◌<◌, ◌≤◌, ◌^◌, ℕ, IfOk, OnOk, length, replicate};
ghost use Rattle.std.specs.Prelude.{IsOk, List, OnErr, string_bytes};
ghost use Rattle.line_plan.specs.Sections.{IsSection, limit_of};
ghost use Rattle.line_law.specs.declared.call.Entry.{Entry};
ghost use Rattle.line_law.specs.History.{IsLegal};
ghost use Rattle.line_law.specs.Sections.{IsClean};
ghost use Rattle.line_report.specs.Asked.{AreFewEntries};
ghost use Rattle.line_report.specs.Between.{AreMost, CountsBeside, CountsOn, MayGain, no_trains, pair_after};
ghost use Rattle.line_report.specs.Between.{pair_text, pairs_after, pairs_text, section_between, trains_at};
ghost use Rattle.line_report.specs.Gains.{count_after, counts_trains, gains, gains_at_rear, gains_in_advance};
ghost use Rattle.line_report.specs.Gains.{loses, loses_in_advance, works_home, works_starter};
ghost use Rattle.line_report.specs.Sections.{most_of, section_text, sections_text};

use block_words::Way;
use line_law::{Act, ByWay, Entry, Journal, Reply, starter_way};
use line_plan::{Plan, Section};
use rail_text::NoMemory;
use script_text::put_text;
use std::alloc::{AllocError, Global};
use std::fmt::Write;

/// The most trains that a section held: after any of the entries of a legal journal, or before them all. There are
/// fewer than 2^32 entries. Where the journal is clean for the section, that is no more than the section may hold. The
/// replies tell when the section gains or loses a train, so that no memory is taken, and never told to have run out.
#[tactic(auto, using(crate::proofs::MostTrains::one_train_reaches))]
pub fn most_trains(
    _alloc: Global,
    plan: &Plan,
    journal: &Journal,
    section: Section,
) -> Result<u32, NoMemory>
    requires section { IsSection plan.now section }
    requires legal { IsLegal plan.now journal.now.entries }
    requires few { AreFewEntries journal.now.entries }
    ensures most { IfOk result (λ most. most ≡ most_of plan.now journal.now.entries section) }
    ensures clean { IsClean plan.now section journal.now.entries
        → IfOk result (λ most. most ≤ limit_of plan.now section) }
    ensures memory { IsOk result }
{
    plan.meets_conditions();
    Ok(most_in(plan, journal.entries.as_slice(), section))
}

/// How many trains a section holds, and the most that it held so far.
#[derive(Clone, Copy)]
pub struct HeldTrains {
    pub now: u32,
    pub most: u32,
}

// No trains, as a line opens.
const NO_TRAINS: HeldTrains = HeldTrains { now: 0, most: 0 };

// Whether a lever works the starter of a section.
fn works_starter(plan: &Plan, section: Section, lever: u32) -> bool
    requires { IsSection plan.now section }
    ensures { result ≡ works_starter plan.now section lever }
{
    let rear = &plan.boxes.as_slice()[section.rear as usize];
    starter_way(rear.signal(lever)) == Some(section.way)
}

// Whether a lever works a home of a section's berth.
fn works_home(plan: &Plan, section: Section, lever: u32) -> bool
    requires { IsSection plan.now section }
    ensures { result ≡ works_home plan.now section lever }
{
    let advance = &plan.boxes.as_slice()[section.advance(plan) as usize];
    match (section.berth(plan), advance.signal(lever)) {
        (Some(berth), Some(signal)) => signal.from == berth.place,
        _ => false,
    }
}

// Whether a section gains a train by an entry of its rear box: one enters past its starter.
fn gains_at_rear(plan: &Plan, section: Section, entry: &Entry) -> bool
    requires { IsSection plan.now section }
    ensures { result ≡ gains_at_rear plan.now section entry.now.call.act entry.now.reply }
{
    match entry.call.act {
        Act::Pass { lever } | Act::Overrun { lever } => {
            matches!(entry.reply, Reply::Entered { .. }) && works_starter(plan, section, lever)
        }
        _ => false,
    }
}

// Whether it gains one by an entry of its box in advance: a train comes into its berth in part.
fn gains_in_advance(section: Section, entry: &Entry) -> bool
    ensures { result ≡ gains_in_advance section entry.now.call.act entry.now.reply }
{
    match entry.call.act {
        Act::BerthPart { way } => {
            way == section.way && matches!(entry.reply, Reply::PartBerthed { .. })
        }
        _ => false,
    }
}

// Whether it loses one by an entry of its box in advance: a left portion is cleared away, or a train goes out of its
// berth.
fn loses_in_advance(plan: &Plan, section: Section, entry: &Entry) -> bool
    requires { IsSection plan.now section }
    ensures { result ≡ loses_in_advance plan.now section entry.now.call.act entry.now.reply }
{
    match entry.call.act {
        Act::ClearPortion { way } => {
            way == section.way && matches!(entry.reply, Reply::Cleared { .. })
        }
        Act::Pass { lever } | Act::Overrun { lever } => {
            matches!(entry.reply, Reply::Passed { .. } | Reply::Entered { .. })
                && works_home(plan, section, lever)
        }
        _ => false,
    }
}

// Whether a section gains a train by an entry.
fn gains(plan: &Plan, section: Section, entry: &Entry) -> bool
    requires { IsSection plan.now section }
    ensures { result ≡ gains plan.now section entry.now }
{
    entry.box_no == section.rear && gains_at_rear(plan, section, entry)
        || entry.box_no == section.advance(plan) && gains_in_advance(section, entry)
}

// Whether a section loses a train by an entry.
fn loses(plan: &Plan, section: Section, entry: &Entry) -> bool
    requires { IsSection plan.now section }
    ensures { result ≡ loses plan.now section entry.now }
{
    entry.box_no == section.advance(plan) && loses_in_advance(plan, section, entry)
}

impl HeldTrains {
    // A section's trains after an entry: one more where it gains a train, one less where it loses one.
    fn after(self, plan: &Plan, section: Section, entry: &Entry) -> HeldTrains
        requires section { IsSection plan.now section }
        requires few { self.now + 1 < 2 ^ 32 }
        ensures { result ≡ count_after plan.now section entry.now self }
    {
        let gained = self.now + u32::from(gains(plan, section, entry));
        let now = gained.saturating_sub(u32::from(loses(plan, section, entry)));
        HeldTrains {
            now,
            most: self.most.max(now),
        }
    }
}

// The most trains that a section held, counted entry by entry.
fn most_in(plan: &Plan, entries: &[Entry], section: Section) -> u32
    requires section { IsSection plan.now section }
    requires legal { IsLegal plan.now entries.now }
    requires few { AreFewEntries entries.now }
    ensures { result ≡ most_of plan.now entries.now section }
{
    plan.meets_conditions();
    let mut trains = NO_TRAINS;
    for entry in entries {
        trains = trains.after(plan, section, entry);
    }
    trains.most
}

// The section of a way between two neighbours: pair `p` is of the boxes `p` and `p + 1`.
fn section_between(plan: &Plan, pair: usize, way: Way) -> Section
    requires { pair + 1 < length plan.now.boxes }
    ensures between { result ≡ section_between pair way }
    ensures section { IsSection plan.now result }
{
    plan.meets_conditions();
    let rear = pair as u32;
    match way {
        Way::Up => Section {
            rear: rear + 1,
            way: Way::Up,
        },
        Way::Down => Section {
            rear,
            way: Way::Down,
        },
    }
}

// The trains of a pair's two sections after an entry.
fn pair_after(
    trains: ByWay<HeldTrains>,
    plan: &Plan,
    pair: usize,
    entry: &Entry,
) -> ByWay<HeldTrains>
    requires pair { pair + 1 < length plan.now.boxes }
    requires few { MayGain trains }
    ensures { result ≡ pair_after plan.now entry.now pair trains }
{
    let up = section_between(plan, pair, Way::Up);
    let down = section_between(plan, pair, Way::Down);
    ByWay {
        up: trains.up.after(plan, up, entry),
        down: trains.down.after(plan, down, entry),
    }
}

// Counts a pair on by an entry. A pair off the line has no trains.
#[tactic(auto, using(std::proofs::lemmas::List::set_past))]
fn count_pair(trains: &mut [ByWay<HeldTrains>], plan: &Plan, pair: usize, entry: &Entry)
    requires each { length trains.old + 1 ≡ length plan.now.boxes }
    requires few { MayGain (trains_at trains.old pair) }
    ensures { trains.new ≡ pairs_after plan.now entry.now pair trains.old }
{
    if pair < trains.len() {
        trains[pair] = pair_after(trains[pair], plan, pair, entry);
    }
}

// Counts the pairs of an entry's box on by it: it changes what no other pair's sections hold.
#[tactic(auto, using(crate::proofs::PairsHeld::counts_one, crate::proofs::PairsHeld::counts_two))]
fn count_beside(trains: &mut [ByWay<HeldTrains>], plan: &Plan, entry: &Entry)
    requires each { length trains.old + 1 ≡ length plan.now.boxes }
    requires few { (pair : ℕ) → MayGain (trains_at trains.old pair) }
    ensures { CountsBeside plan.now entry.now trains.old trains.new }
{
    let after = entry.box_no as usize;
    count_pair(trains, plan, after, entry);
    if after > 0 {
        count_pair(trains, plan, after - 1, entry);
    }
}

// Whether a reply may tell of a train more or less in a section.
fn counts_trains(reply: &Reply) -> bool
    ensures { result ≡ counts_trains reply.now }
{
    matches!(
        reply,
        Reply::Entered { .. }
            | Reply::PartBerthed { .. }
            | Reply::Cleared { .. }
            | Reply::Passed { .. }
    )
}

/// Counts the trains of the sections of each pair of neighbours on by an entry: pair `p` is of the boxes `p` and
/// `p + 1`. Where the entries of a legal history are counted so from none on, each section's trains are those that it
/// holds, as `held_law` says.
pub fn count_on(trains: &mut [ByWay<HeldTrains>], plan: &Plan, entry: &Entry)
    requires each { length trains.old + 1 ≡ length plan.now.boxes }
    requires few { (pair : ℕ) → MayGain (trains_at trains.old pair) }
    ensures { CountsOn plan.now entry.now trains.old trains.new }
{
    if counts_trains(&entry.reply) {
        count_beside(trains, plan, entry);
    }
}

/// So many pairs of neighbours with no trains.
pub fn no_trains(alloc: Global, pairs: usize) -> Result<Vec<ByWay<HeldTrains>>, NoMemory>
    ensures { IfOk result (λ trains. trains.items ≡ replicate pairs no_trains) }
{
    let none = ByWay {
        up: NO_TRAINS,
        down: NO_TRAINS,
    };
    Ok(vec![in alloc; none; pairs]?)
}

// A section's line.
#[tactic(auto, unfolding(crate::specs::Sections::section_text))]
fn put_section(out: &mut String, plan: &Plan, section: Section, most: u32) -> Result<(), AllocError>
    requires { IsSection plan.now section }
    ensures { OnOk result (string_bytes out.new ≡ string_bytes out.old ++ section_text plan.now section most) }
{
    out.push_str("section ")?;
    section.put_name(out, plan)?;
    write!(out, " most {most}\n")
}

// The lines of the two sections of a pair of neighbours: the down line's, then the up line's.
fn put_pair(
    out: &mut String,
    plan: &Plan,
    pair: usize,
    trains: ByWay<HeldTrains>,
) -> Result<(), AllocError>
    requires { pair + 1 < length plan.now.boxes }
    ensures { OnOk result (string_bytes out.new ≡ string_bytes out.old ++ pair_text plan.now pair trains) }
{
    let up = section_between(plan, pair, Way::Up);
    let down = section_between(plan, pair, Way::Down);
    put_section(out, plan, down, trains.down.most)?;
    put_section(out, plan, up, trains.up.most)
}

// The lines of the sections of all pairs.
fn put_pairs(out: &mut String, plan: &Plan, trains: &[ByWay<HeldTrains>]) -> Result<(), AllocError>
    requires { length trains.now + 1 ≡ length plan.now.boxes }
    ensures { OnOk result (string_bytes out.new ≡ string_bytes out.old ++ pairs_text plan.now 0 trains.now) }
{
    for (pair, trains) in trains.iter().enumerate() {
        put_pair(out, plan, pair, *trains)?;
    }
    Ok(())
}

/// Puts the lines of all sections behind a text: for each pair of neighbours in order that of the down line, and then
/// that of the up line, each with the most trains that were counted of the section. Where memory runs out the text is
/// as it was.
#[tactic(auto, using(crate::proofs::PairTexts::all_pairs))]
pub fn put_sections(
    out: &mut String,
    alloc: Global,
    plan: &Plan,
    trains: &[ByWay<HeldTrains>],
) -> Result<(), NoMemory>
    requires { length trains.now + 1 ≡ length plan.now.boxes }
    ensures put { OnOk result (string_bytes out.new ≡ string_bytes out.old ++ pairs_text plan.now 0 trains.now) }
    ensures most { (es : List Entry) → AreMost plan.now es trains.now
        → OnOk result (string_bytes out.new ≡ string_bytes out.old ++ sections_text plan.now es) }
    ensures kept { OnErr result (string_bytes out.new ≡ string_bytes out.old) }
{
    let mut lines = String::new(alloc);
    put_pairs(&mut lines, plan, trains)?;
    put_text(out, lines)?;
    Ok(())
}
