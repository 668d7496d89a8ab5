//! The keys under which marks are kept.

ghost use Rattle.std.specs.Prelude.{◌≡◌, ◌<◌, ◌^◌};
ghost use Rattle.line_races.specs.Keys.{
  kind_no,
  number_in,
  other_end,
  other_key,
  own_key,
  position_no,
  way_no,
};
ghost use Rattle.word_laws.specs.Footprint.{way_at};
ghost use Rattle.line_journal.specs.Halves.{pair_for};

use crate::marks::Mark;
use block_words::{Position, Way};
use line_law::Entry;
use line_plan::Plan;

/// The key of a mark: the box that left it, the pair and the way of its word, its kind and its number.
pub type Key = (usize, usize, u8, u8, u64);

// The number of a way.
fn way_no(way: Way) -> u8
    ensures { result ≡ way_no way }
{
    match way {
        Way::Up => 0,
        Way::Down => 1,
    }
}

// The number of a position.
fn position_no(position: Position) -> u64
    ensures { result ≡ position_no position }
{
    match position {
        Position::Normal => 0,
        Position::LineClear => 1,
        Position::TrainOnLine => 2,
    }
}

// The number of a mark's kind.
fn kind_no(mark: Mark) -> u8
    ensures { result ≡ kind_no mark }
{
    match mark {
        Mark::RungAs(_) => 0,
        Mark::BusyAt(_) => 1,
        Mark::HeardAs(_) => 2,
        Mark::InVainAt(_) => 3,
        Mark::TurnedAs(_) => 4,
        Mark::UsedAt(_) => 5,
        Mark::EnteredAs(_) => 6,
        Mark::FullUntil(_) => 7,
        Mark::NoneAt(_) => 8,
        Mark::LeftAs(_) => 9,
        Mark::TurnedFrom(_) => 10,
    }
}

// The number in a mark.
fn number_in(mark: Mark) -> u64
    ensures { result ≡ number_in mark }
{
    match mark {
        Mark::RungAs(number)
        | Mark::BusyAt(number)
        | Mark::HeardAs(number)
        | Mark::InVainAt(number)
        | Mark::TurnedAs(number)
        | Mark::UsedAt(number)
        | Mark::EnteredAs(number)
        | Mark::FullUntil(number)
        | Mark::NoneAt(number)
        | Mark::LeftAs(number) => number,
        Mark::TurnedFrom(position) => position_no(position),
    }
}

/// The key of a mark that an entry leaves on its word, that of this pair and way, if it does.
pub fn own_key(plan: &Plan, entry: &Entry, pair: usize, way: Way, mark: Option<Mark>) -> Option<Key>
    requires pair { pair ≡ pair_for plan.now entry.now }
    requires way { way ≡ way_at plan.now entry.now.box_no entry.now.call }
    ensures { result ≡ own_key plan.now mark entry.now }
{
    let mark = mark?;
    Some((
        entry.box_no as usize,
        pair,
        way_no(way),
        kind_no(mark),
        number_in(mark),
    ))
}

// The box at the other end of an entry's word.
fn other_end(plan: &Plan, entry: &Entry, pair: usize) -> usize
    requires { pair ≡ pair_for plan.now entry.now }
    ensures { result ≡ other_end plan.now entry.now }
{
    let box_no = entry.box_no as usize;
    if pair == box_no { box_no + 1 } else { pair }
}

/// The key of a mark that an entry looks for on its word, that of this pair and way, if it does.
pub fn other_key(
    plan: &Plan,
    entry: &Entry,
    pair: usize,
    way: Way,
    mark: Option<Mark>,
) -> Option<Key>
    requires pair { pair ≡ pair_for plan.now entry.now }
    requires way { way ≡ way_at plan.now entry.now.box_no entry.now.call }
    ensures { result ≡ other_key plan.now mark entry.now }
{
    let mark = mark?;
    Some((
        other_end(plan, entry, pair),
        pair,
        way_no(way),
        kind_no(mark),
        number_in(mark),
    ))
}
