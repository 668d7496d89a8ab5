//! What the lines of a box make of the box.

ghost use Rattle.std.specs.Prelude.{◌≡◌, ◌<◌, ◌≤◌, ◌==◌, ◌++◌, [], ◌∷◌, IfOk, OnOk, OnErr, bytes_eq, drop, map};
ghost use Rattle.std.specs.Prelude.{filter, is_some, false, length, option_map};
ghost use Rattle.std.specs.List.{join_with_byte, list_any};
ghost use Rattle.rail_text.specs.Gives.{FaultsFirst, GivesCause, GivesLine, TakesNoMemory};
ghost use Rattle.locking_table.specs.Reading.{row_of};
ghost use Rattle.locking_table.specs.Sound.{IsRow, all_differ, levers_of};
ghost use Rattle.line_plan.specs.Frames.{begins_at, berth_places, end_places, entered_by, frame_size, homes_of};
ghost use Rattle.line_plan.specs.Frames.{is_entered, kind_of, place_of, signal_of};
ghost use Rattle.plan_draft.specs.BoxLines.{all_worked, arm_in, berth_at, berth_onto, clear_onto, clearing_in};
ghost use Rattle.plan_draft.specs.BoxLines.{coming_in, counted_over, leaving_in, lever_onto, new_place, next_number};
ghost use Rattle.plan_draft.specs.BoxLines.{over_in, permissive_onto, place_onto, row_onto, signal_onto, spelled_row};
ghost use Rattle.plan_draft.specs.BoxLines.{starter_onto, track_in, track_onto, with_row, with_signal, worked};
ghost use Rattle.plan_draft.specs.BoxLines.{row_cause};

use crate::line_words::{
    counted, end_in, kept, kind_in, lever_in, new_name, number_in_names, number_of, places_from,
    way_in, word, working_in,
};
use arrayvec::ArrayVec;
use block_words::Way;
use line_plan::{
    Berth, BoxPlan, Items, Kind, Lever, MOST_PLACES, MOST_ROWS, Signal, To, TrackLock, comes_in,
    leaves,
};
use locking_table::{Cond, MOST_LEVERS, Row, RowFault, read_spelled};
use rail_text::{Cause, LineFault, LineWords, NoMemory};
use std::alloc::Global;

// ---- places and levers

// A name that a place may have: any but `away`, and none that another place of the box has.
#[tactic(auto, unfolding(crate::specs::BoxLines::new_place))]
fn new_place<'a>(here: &BoxPlan, word: &'a [u8]) -> Result<&'a str, LineFault>
    ensures gives { GivesLine (λ name. name.now) result (new_place here.now word.now) }
    ensures new { IfOk result (λ name. list_any (bytes_eq name.now) here.now.places ≡ false) }
    ensures memory { TakesNoMemory result }
{
    if word == b"away".as_slice() {
        return Err(LineFault::Cause(Cause::BadName));
    }
    new_name(&here.places, word)
}

/// `place NAME`
#[tactic(auto, unfolding(crate::specs::BoxLines::place_onto))]
pub fn place_line(here: &mut BoxPlan, words: &LineWords<'_>) -> Result<(), LineFault>
    ensures gives { GivesLine (λ _. here.new) result (place_onto here.old words.now) }
    ensures name { here.new.name ≡ here.old.name }
    ensures memory { FaultsFirst result (place_onto here.old words.now) }
    ensures same { OnErr result (here.new ≡ here.old) }
{
    counted(words, 2, 2)?;
    let name = new_place(here, word(words, 1))?;
    if here.places.len() >= MOST_PLACES {
        return Err(LineFault::Cause(Cause::TooMany));
    }
    here.add_place(name)?;
    Ok(())
}

// A number above that of the box's last lever.
#[tactic(auto, unfolding(crate::specs::BoxLines::next_number))]
fn next_number(here: &BoxPlan, word: &[u8]) -> Result<u32, Cause>
    ensures gives { result ≡ next_number here.now word.now }
    ensures above { IfOk result (λ number. frame_size here.now.levers < number) }
{
    let number = number_of(word, 1, MOST_LEVERS)?;
    if here.frame_size() < number {
        Ok(number)
    } else {
        Err(Cause::LeverOrder)
    }
}

/// `lever L KIND`
#[tactic(auto, unfolding(crate::specs::BoxLines::lever_onto))]
pub fn lever_line(alloc: Global, here: &mut BoxPlan, words: &LineWords<'_>) -> Result<(), LineFault>
    ensures gives { GivesLine (λ _. here.new) result (lever_onto here.old words.now) }
    ensures name { here.new.name ≡ here.old.name }
    ensures memory { FaultsFirst result (lever_onto here.old words.now) }
    ensures same { OnErr result (here.new ≡ here.old) }
{
    counted(words, 3, 3)?;
    let number = next_number(here, word(words, 1))?;
    let kind = kind_in(word(words, 2))?;
    here.add_lever(alloc, Lever { number, kind })?;
    Ok(())
}

// ---- signals and starters

// The lever of a signal or starter: a signal lever that has none so far.
#[tactic(auto, unfolding(crate::specs::BoxLines::arm_in))]
fn arm_in(here: &BoxPlan, word: &[u8]) -> Result<u32, Cause>
    ensures gives { result ≡ arm_in here.now word.now }
    ensures free { IfOk result (λ number. is_some (signal_of here.now number) ≡ false) }
{
    let lever = lever_in(here, word)?;
    if lever.kind != Kind::Signal {
        return Err(Cause::WrongKind);
    }
    if here.signal(lever.number).is_some() {
        return Err(Cause::Taken);
    }
    Ok(lever.number)
}

// The places behind the word `over`, where the line goes on.
#[tactic(auto, unfolding(crate::specs::BoxLines::over_in))]
fn over_in(here: &BoxPlan, words: &LineWords<'_>) -> Result<ArrayVec<u32, 8>, Cause>
    requires { length words.now ≤ 9 }
    ensures { GivesCause (λ places. places.items) result (over_in here.now words.now) }
{
    if words.word_count() == 4 {
        return Ok(ArrayVec::new());
    }
    if word(words, 4) != b"over".as_slice() {
        return Err(Cause::UnknownWord);
    }
    places_from(&here.places, words, 5)
}

// Four words, or six to nine.
fn counted_over(words: &LineWords<'_>) -> Result<(), Cause>
    ensures gives { result ≡ counted_over words.now }
    ensures few { OnOk result (length words.now ≤ 9) }
{
    if words.word_count() == 4 {
        return Ok(());
    }
    counted(words, 6, 9)
}

// Whether the place is among these.
fn is_among(places: &[u32], place: u32) -> bool
    ensures { result ≡ list_any (λ other. other == place) places.now }
{
    places.iter().any(|other| *other == place)
}

// Whether no two of the places are equal.
fn all_differ(places: &[u32]) -> bool
    ensures { result ≡ all_differ places.now }
{
    for (i, place) in places.iter().enumerate() {
        if is_among(&places[i + 1..], *place) {
            return false;
        }
    }
    true
}

// Whether no two of the places are equal that a signal's line names: where it begins, those over which it runs, and
// where it ends.
#[tactic(auto, using(crate::proofs::Differ::differ_rules))]
fn ends_differ(from: u32, over: &[u32], to: To) -> bool
    ensures { result ≡ all_differ (from ∷ over.now ++ end_places to) }
{
    match to {
        To::Place(end) => !(from == end || is_among(over, end)) && differ_from(from, over),
        To::Section(_) | To::Away => differ_from(from, over),
    }
}

// A signal more, whose places all differ.
#[tactic(auto, unfolding(crate::specs::BoxLines::with_signal))]
fn with_signal(
    alloc: Global,
    here: &mut BoxPlan,
    lever: u32,
    from: u32,
    over: &[u32],
    to: To,
) -> Result<(), LineFault>
    requires { is_some (signal_of here.old lever) ≡ false }
    ensures gives { GivesLine (λ _. here.new) result
        (with_signal here.old (record { lever = lever; from = from; over = over.now; to = to })) }
    ensures name { here.new.name ≡ here.old.name }
    ensures memory { FaultsFirst result
        (with_signal here.old (record { lever = lever; from = from; over = over.now; to = to })) }
    ensures same { OnErr result (here.new ≡ here.old) }
{
    if !ends_differ(from, over, to) {
        return Err(LineFault::Cause(Cause::SamePlace));
    }
    let over = kept(alloc, over)?;
    let signal = Signal {
        lever,
        from,
        over,
        to,
    };
    here.add_signal(alloc, signal)?;
    Ok(())
}

/// `signal L FROM TO`, and, if wanted, `over P..`
#[tactic(auto, unfolding(crate::specs::BoxLines::signal_onto))]
pub fn signal_line(
    alloc: Global,
    here: &mut BoxPlan,
    words: &LineWords<'_>,
) -> Result<(), LineFault>
    ensures gives { GivesLine (λ _. here.new) result (signal_onto here.old words.now) }
    ensures name { here.new.name ≡ here.old.name }
    ensures memory { FaultsFirst result (signal_onto here.old words.now) }
    ensures same { OnErr result (here.new ≡ here.old) }
{
    counted_over(words)?;
    let lever = arm_in(here, word(words, 1))?;
    let from = number_in_names(&here.places, word(words, 2))?;
    let to = end_in(&here.places, word(words, 3))?;
    let over = over_in(here, words)?;
    with_signal(alloc, here, lever, from, over.as_slice(), to)
}

// An outgoing line of a box to a neighbour, without a starter so far.
#[tactic(auto, unfolding(crate::specs::BoxLines::leaving_in))]
fn leaving_in(boxes: u32, box_no: u32, here: &BoxPlan, word: &[u8]) -> Result<Way, Cause>
    ensures { result ≡ leaving_in boxes box_no here.now word.now }
{
    let way = way_in(word)?;
    if !leaves(boxes, box_no, way) {
        return Err(Cause::NoLine);
    }
    if here.starter(way).is_some() {
        return Err(Cause::Taken);
    }
    Ok(way)
}

/// `starter WAY L FROM`, and, if wanted, `over P..`
#[tactic(auto, unfolding(crate::specs::BoxLines::starter_onto))]
pub fn starter_line(
    alloc: Global,
    boxes: u32,
    box_no: u32,
    here: &mut BoxPlan,
    words: &LineWords<'_>,
) -> Result<(), LineFault>
    ensures gives { GivesLine (λ _. here.new) result (starter_onto boxes box_no here.old words.now) }
    ensures name { here.new.name ≡ here.old.name }
    ensures memory { FaultsFirst result (starter_onto boxes box_no here.old words.now) }
    ensures same { OnErr result (here.new ≡ here.old) }
{
    counted_over(words)?;
    let way = leaving_in(boxes, box_no, here, word(words, 1))?;
    let lever = arm_in(here, word(words, 2))?;
    let from = number_in_names(&here.places, word(words, 3))?;
    let over = over_in(here, words)?;
    with_signal(alloc, here, lever, from, over.as_slice(), To::Section(way))
}

// ---- berths

// An incoming line of a box from a neighbour, without a berth so far.
#[tactic(auto, unfolding(crate::specs::BoxLines::coming_in))]
fn coming_in(boxes: u32, box_no: u32, here: &BoxPlan, word: &[u8]) -> Result<Way, Cause>
    ensures { result ≡ coming_in boxes box_no here.now word.now }
{
    let way = way_in(word)?;
    if !comes_in(boxes, box_no, way) {
        return Err(Cause::NoLine);
    }
    if here.berth(way).is_some() {
        return Err(Cause::Taken);
    }
    Ok(way)
}

// Whether it leads to the place.
fn ends_at(to: To, place: u32) -> bool
    ensures { result ≡ list_any (λ end. end == place) (end_places to) }
{
    match to {
        To::Place(end) => end == place,
        To::Section(_) => false,
        To::Away => false,
    }
}

// Whether a signal leads into the place or over it.
#[tactic(auto, using(line_plan::proofs::Listed::any_rules))]
fn enters(signal: &Signal, place: u32) -> bool
    ensures { result ≡ list_any (λ entered. entered == place) (entered_by signal.now) }
{
    is_among(signal.over.as_slice(), place) || ends_at(signal.to, place)
}

// Whether some signal leads into the place or over it.
fn is_entered(signals: &[Signal], place: u32) -> bool
    ensures { result ≡ is_entered signals.now place }
{
    signals.iter().any(|signal| enters(signal, place))
}

// Whether a berth is at the place.
fn is_at(berth: Option<&Berth>, place: u32) -> bool
    ensures { result ≡ list_any (λ at. at == place) (place_of (option_map (λ berth. berth.now) berth.entry)) }
{
    match berth {
        Some(berth) => berth.place == place,
        None => false,
    }
}

/// Whether the place is a berth of the box.
pub fn is_berth(here: &BoxPlan, place: u32) -> bool
    ensures { result ≡ list_any (λ berth. berth == place) (berth_places here.now) }
{
    is_at(here.berth_up.as_ref(), place) || is_at(here.berth_down.as_ref(), place)
}

// Whether the lever's signal or starter begins at the place.
fn begins_at(here: &BoxPlan, place: u32, lever: Lever) -> bool
    ensures { result ≡ begins_at here.now place lever }
{
    match here.signal(lever.number) {
        Some(signal) => signal.from == place,
        None => false,
    }
}

// How many signals and starters begin at the place.
fn home_count(here: &BoxPlan, place: u32) -> usize
    ensures { result ≡ length (filter (begins_at here.now place) here.now.levers) }
{
    here.levers
        .as_slice()
        .iter()
        .filter(|lever| begins_at(here, place, **lever))
        .count()
}

// All levers whose signal or starter begins at the place, in lever order.
fn homes_of(alloc: Global, here: &BoxPlan, place: u32) -> Result<Items<u32>, NoMemory>
    ensures { IfOk result (λ homes. homes ≡ homes_of here.now place) }
{
    let mut homes = Vec::new(alloc);
    for lever in here.levers.as_slice() {
        if begins_at(here, place, *lever) {
            homes.push(lever.number)?;
        }
    }
    Ok(Items::from_vec(homes))
}

// A place that can be a berth: no berth already, no signal leads into it or over it, and some signal begins there.
#[tactic(auto, using(crate::proofs::Longer::counting_rules), unfolding(crate::specs::BoxLines::berth_at))]
fn berth_at(alloc: Global, here: &BoxPlan, place: u32) -> Result<Berth, LineFault>
    ensures gives { GivesLine (λ berth. berth) result (berth_at here.now place) }
    ensures memory { FaultsFirst result (berth_at here.now place) }
{
    if is_berth(here, place) {
        return Err(LineFault::Cause(Cause::Taken));
    }
    if is_entered(here.signals.as_slice(), place) {
        return Err(LineFault::Cause(Cause::BerthEntered));
    }
    if home_count(here, place) == 0 {
        return Err(LineFault::Cause(Cause::NoHome));
    }
    let homes = homes_of(alloc, here, place)?;
    Ok(Berth {
        place,
        homes,
        clearing: Items::new(alloc),
        permissive: None,
    })
}

/// `berth WAY PLACE`
#[tactic(auto, unfolding(crate::specs::BoxLines::berth_onto))]
pub fn berth_line(
    alloc: Global,
    boxes: u32,
    box_no: u32,
    here: &mut BoxPlan,
    words: &LineWords<'_>,
) -> Result<(), LineFault>
    ensures gives { GivesLine (λ _. here.new) result (berth_onto boxes box_no here.old words.now) }
    ensures name { here.new.name ≡ here.old.name }
    ensures memory { FaultsFirst result (berth_onto boxes box_no here.old words.now) }
    ensures same { OnErr result (here.new ≡ here.old) }
{
    counted(words, 3, 3)?;
    let way = coming_in(boxes, box_no, here, word(words, 1))?;
    let place = number_in_names(&here.places, word(words, 2))?;
    let berth = berth_at(alloc, here, place)?;
    here.set_berth(way, berth);
    Ok(())
}

// Whether no two of a berth and its clearing places are equal.
fn differ_from(berth: u32, places: &[u32]) -> bool
    ensures { result ≡ all_differ (berth ∷ places.now) }
{
    !is_among(places, berth) && all_differ(places)
}

// Clearing places that differ from each other and from the berth.
#[tactic(auto, unfolding(crate::specs::BoxLines::clearing_in))]
fn clearing_in(
    here: &BoxPlan,
    berth: &Berth,
    words: &LineWords<'_>,
) -> Result<ArrayVec<u32, 8>, Cause>
    requires { length words.now ≤ 10 }
    ensures { GivesCause (λ places. places.items) result (clearing_in here.now berth.now words.now) }
{
    let places = places_from(&here.places, words, 2)?;
    if !differ_from(berth.place, places.as_slice()) {
        return Err(Cause::SamePlace);
    }
    Ok(places)
}

/// `clear WAY P..`
#[tactic(auto, unfolding(crate::specs::BoxLines::clear_onto))]
pub fn clear_line(alloc: Global, here: &mut BoxPlan, words: &LineWords<'_>) -> Result<(), LineFault>
    ensures gives { GivesLine (λ _. here.new) result (clear_onto here.old words.now) }
    ensures name { here.new.name ≡ here.old.name }
    ensures memory { FaultsFirst result (clear_onto here.old words.now) }
    ensures same { OnErr result (here.new ≡ here.old) }
{
    counted(words, 3, 10)?;
    let way = way_in(word(words, 1))?;
    let Some(berth) = here.berth(way) else {
        return Err(LineFault::Cause(Cause::NoBerth));
    };
    if !berth.clearing.is_empty() {
        return Err(LineFault::Cause(Cause::Taken));
    }
    let places = clearing_in(here, berth, words)?;
    let places = kept(alloc, places.as_slice())?;
    here.set_clearing(way, places);
    Ok(())
}

/// `permissive WAY N`
#[tactic(auto, unfolding(crate::specs::BoxLines::permissive_onto))]
pub fn permissive_line(here: &mut BoxPlan, words: &LineWords<'_>) -> Result<(), LineFault>
    ensures gives { GivesLine (λ _. here.new) result (permissive_onto here.old words.now) }
    ensures name { here.new.name ≡ here.old.name }
    ensures memory { TakesNoMemory result }
    ensures same { OnErr result (here.new ≡ here.old) }
{
    counted(words, 3, 3)?;
    let way = way_in(word(words, 1))?;
    let Some(berth) = here.berth(way) else {
        return Err(LineFault::Cause(Cause::NoBerth));
    };
    if berth.permissive.is_some() {
        return Err(LineFault::Cause(Cause::Taken));
    }
    let most = number_of(word(words, 2), 1, 3)?;
    here.set_permissive(way, most as u8);
    Ok(())
}

// ---- track circuits and rows

// A working lever without track circuits so far.
#[tactic(auto, unfolding(crate::specs::BoxLines::track_in))]
fn track_in(here: &BoxPlan, word: &[u8]) -> Result<u32, Cause>
    ensures gives { result ≡ track_in here.now word.now }
    ensures free { IfOk result (λ number. list_any (λ track. track.lever == number) here.now.tracks ≡ false) }
{
    let lever = working_in(here, word)?;
    if here.has_track(lever) {
        return Err(Cause::Taken);
    }
    Ok(lever)
}

/// `track L P..`
#[tactic(auto, unfolding(crate::specs::BoxLines::track_onto))]
pub fn track_line(alloc: Global, here: &mut BoxPlan, words: &LineWords<'_>) -> Result<(), LineFault>
    ensures gives { GivesLine (λ _. here.new) result (track_onto here.old words.now) }
    ensures name { here.new.name ≡ here.old.name }
    ensures memory { FaultsFirst result (track_onto here.old words.now) }
    ensures same { OnErr result (here.new ≡ here.old) }
{
    counted(words, 3, 10)?;
    let lever = track_in(here, word(words, 1))?;
    let places = places_from(&here.places, words, 2)?;
    if !all_differ(places.as_slice()) {
        return Err(LineFault::Cause(Cause::SamePlace));
    }
    let places = kept(alloc, places.as_slice())?;
    here.add_track(alloc, TrackLock { lever, places })?;
    Ok(())
}

// What stands behind the line's first word.
#[tactic(auto, using(crate::proofs::Behind::behind_rules))]
fn rest<'a>(words: &LineWords<'a>) -> &'a [u8]
    ensures { result.now ≡ join_with_byte 32 (drop 1 words.now) }
{
    match words.behind(0) {
        Some(rest) => rest,
        None => &[],
    }
}

// Why a text spells no row.
fn row_cause(fault: RowFault) -> Cause
    ensures { result ≡ row_cause fault }
{
    match fault {
        RowFault::BadRow { .. } => Cause::BadRow,
        RowFault::SameLever => Cause::SameLever,
    }
}

// The row that a text spells.
fn spelled_row(text: &[u8]) -> Result<Row, Cause>
    ensures gives { result ≡ spelled_row (row_of text.now) }
    ensures row { IfOk result IsRow }
{
    match read_spelled(text) {
        Ok(row) => Ok(row),
        Err(fault) => Err(row_cause(fault)),
    }
}

// The lever is of the box, and no spare one.
fn worked(here: &BoxPlan, lever: u32) -> Result<(), Cause>
    ensures { result ≡ worked (kind_of here.now lever) }
{
    match here.kind(lever) {
        None => Err(Cause::UnknownLever),
        Some(Kind::Spare) => Err(Cause::WrongKind),
        Some(_) => Ok(()),
    }
}

// The levers of these conditions are so.
#[tactic(auto, unfolding(crate::specs::BoxLines::all_worked))]
fn conds_worked(here: &BoxPlan, conds: &[Cond]) -> Result<(), Cause>
    ensures { result ≡ all_worked here.now (map (λ cond. cond.lever) conds.now) }
{
    for cond in conds {
        worked(here, cond.lever)?;
    }
    Ok(())
}

// The levers of a row are so.
#[tactic(auto, unfolding(crate::specs::BoxLines::all_worked))]
fn row_worked(here: &BoxPlan, row: &Row) -> Result<(), Cause>
    ensures { result ≡ all_worked here.now (levers_of row.now) }
{
    worked(here, row.subject)?;
    worked(here, row.object)?;
    conds_worked(here, row.when.as_slice())
}

// A row more, whose levers are so.
#[tactic(auto, unfolding(crate::specs::BoxLines::with_row))]
fn with_row(here: &mut BoxPlan, row: Row) -> Result<(), LineFault>
    requires { IsRow row }
    ensures gives { GivesLine (λ _. here.new) result (with_row here.old row) }
    ensures name { here.new.name ≡ here.old.name }
    ensures memory { FaultsFirst result (with_row here.old row) }
    ensures same { OnErr result (here.new ≡ here.old) }
{
    row_worked(here, &row)?;
    if here.table.len() >= MOST_ROWS {
        return Err(LineFault::Cause(Cause::TooMany));
    }
    here.add_row(row)?;
    Ok(())
}

/// `row`, and behind it the text of a row.
#[tactic(auto, unfolding(crate::specs::BoxLines::row_onto))]
pub fn row_line(here: &mut BoxPlan, words: &LineWords<'_>) -> Result<(), LineFault>
    ensures gives { GivesLine (λ _. here.new) result (row_onto here.old words.now) }
    ensures name { here.new.name ≡ here.old.name }
    ensures memory { FaultsFirst result (row_onto here.old words.now) }
    ensures same { OnErr result (here.new ≡ here.old) }
{
    let row = spelled_row(rest(words))?;
    with_row(here, row)
}
