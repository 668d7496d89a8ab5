//! Whether a reply fits the word on which its call was decided, and what becomes of the word.

ghost use Rattle.std.specs.Prelude.{◌≡◌, ◌+◌, ◌<◌, length, slice_index_or};
ghost use Rattle.word_laws.specs.Footprint.{way_at};
ghost use Rattle.line_law.specs.Instruments.{same_position};
ghost use Rattle.word_laws.specs.TellsWord.{kind_told};
ghost use Rattle.line_law.specs.Ways.{of_way};
ghost use Rattle.line_journal.specs.Fits.{bell_made, block_made, code_of, plain_line_made, position_of, word_made};
ghost use Rattle.line_journal.specs.Halves.{found_at, made, pair_for};
ghost use Rattle.line_journal.specs.FitTests.{
  HasSpace,
  fits_bell,
  fits_block,
  fits_here,
  fits_plain_line,
  fits_word,
  is_next,
  is_word,
  same_mark,
  same_number,
};

use bell_codes::CodeNo;
use block_words::{Position, Way};
use line_law::{Act, Bell, Block, Entry, PairState, Passage, PlainLine, Reply};
use line_plan::Plan;

// Whether one number is the next after another.
fn is_next(number: u64, next: u64) -> bool
    ensures { result ≡ is_next number next }
{
    number < next && next - number == 1
}

// Whether a bell shows this code, or none where this is none.
fn shows(unheard: Option<CodeNo>, shown: Option<CodeNo>) -> bool
    ensures { result ≡ same_number unheard shown }
{
    match unheard {
        None => match shown {
            None => true,
            Some(_) => false,
        },
        Some(code) => match shown {
            None => false,
            Some(other) => code == other,
        },
    }
}

// Whether the train found is this one, or none where this is none.
fn is_train(found: Option<u32>, train: Option<u32>) -> bool
    ensures { result ≡ same_number found train }
{
    match found {
        None => match train {
            None => true,
            Some(_) => false,
        },
        Some(first) => match train {
            None => false,
            Some(other) => first == other,
        },
    }
}

// Whether two positions are the same.
fn same_position(position: Position, other: Position) -> bool
    ensures { result ≡ same_position position other }
{
    position == other
}

// Whether two marks are the same.
fn same_mark(mark: bool, other: bool) -> bool
    ensures { result ≡ same_mark mark other }
{
    if mark { other } else { !other }
}

// The code that an entry's call rings.
fn code_of(entry: &Entry) -> CodeNo
    ensures { result ≡ code_of entry.now.call.act }
{
    match entry.call.act {
        Act::Ring { side: _, code } => code,
        _ => 0,
    }
}

// The position to which an entry's call turns an instrument, or for which it looks there.
fn position_of(entry: &Entry) -> Position
    ensures { result ≡ position_of entry.now.call.act }
{
    match entry.call.act {
        Act::Turn { way: _, position } | Act::AwaitBlock { way: _, position } => position,
        _ => Position::Normal,
    }
}

// Whether an entry's reply fits a bell.
fn fits_bell(entry: &Entry, bell: Bell) -> bool
    ensures { result ≡ fits_bell entry.now.reply bell }
{
    match entry.reply {
        Reply::Rung { k } => is_next(bell.count, k) && shows(bell.unheard, None),
        Reply::BellBusy { k, code } => bell.count == k && shows(bell.unheard, Some(code)),
        Reply::Heard { k, code } => bell.count == k && shows(bell.unheard, Some(code)),
        Reply::Silent { k } => bell.count == k && shows(bell.unheard, None),
        Reply::BellNotYet { k, shown } => bell.count == k && shows(bell.unheard, shown),
        _ => false,
    }
}

// Whether an entry's reply fits an instrument.
fn fits_block(entry: &Entry, block: Block) -> bool
    ensures { result ≡ fits_block entry.now.call.act entry.now.reply block }
{
    match entry.reply {
        Reply::Turned { v } => is_next(block.turns, v),
        Reply::Seen { v } => block.turns == v && same_position(block.position, position_of(entry)),
        Reply::BlockNotYet { v, shown } => {
            block.turns == v && same_position(block.position, shown)
        }
        Reply::PulledUnder { v } => block.turns == v && block.is_unspent_clear(),
        Reply::HeldByInstrument {
            way: _,
            v,
            shown,
            spent,
        } => {
            block.turns == v
                && (same_position(block.position, shown) && same_mark(block.spent, spent))
        }
        _ => false,
    }
}

// Whether an entry's reply fits a plain line.
fn fits_plain_line(entry: &Entry, line: &PlainLine) -> bool
    ensures { result ≡ fits_plain_line entry.now.reply line.now }
{
    match entry.reply {
        Reply::Entered { k, train: _ } => !line.holds(k),
        Reply::SectionFull { k } => line.holds(k),
        Reply::Approaching { j, train } => is_train(line.first_train(j), Some(train)),
        Reply::TrainNotYet { j } => is_train(line.first_train(j), None),
        Reply::Berthed { j, train } => is_train(line.first_train(j), Some(train)),
        Reply::PartBerthed { j, train } => is_train(line.first_train(j), Some(train)),
        Reply::NoTrainAt { j } => is_train(line.first_train(j), None),
        Reply::Cleared { j, train } => is_train(line.first_train(j), Some(train)),
        _ => false,
    }
}

/// Whether an entry's call was decided on a word, and not on its box's own tally.
pub fn is_on_word(entry: &Entry) -> bool
    ensures { result ≡ is_word (kind_told entry.now.reply) }
{
    match entry.reply {
        Reply::Rung { .. }
        | Reply::BellBusy { .. }
        | Reply::Heard { .. }
        | Reply::Silent { .. }
        | Reply::BellNotYet { .. }
        | Reply::Turned { .. }
        | Reply::Seen { .. }
        | Reply::BlockNotYet { .. }
        | Reply::PulledUnder { .. }
        | Reply::HeldByInstrument { .. }
        | Reply::Entered { .. }
        | Reply::SectionFull { .. }
        | Reply::Approaching { .. }
        | Reply::TrainNotYet { .. }
        | Reply::Berthed { .. }
        | Reply::PartBerthed { .. }
        | Reply::NoTrainAt { .. }
        | Reply::Cleared { .. } => true,
        _ => false,
    }
}

// Whether an entry fits the word of that way in a pair; on its box's own tally it fits always.
fn fits_word(pair: &PairState, way: Way, entry: &Entry) -> bool
    ensures { result ≡ fits_word (kind_told entry.now.reply) way entry.now.call.act entry.now.reply pair.now }
{
    match entry.reply {
        Reply::Rung { .. }
        | Reply::BellBusy { .. }
        | Reply::Heard { .. }
        | Reply::Silent { .. }
        | Reply::BellNotYet { .. } => fits_bell(entry, pair.bells.get(way)),
        Reply::Turned { .. }
        | Reply::Seen { .. }
        | Reply::BlockNotYet { .. }
        | Reply::PulledUnder { .. }
        | Reply::HeldByInstrument { .. } => fits_block(entry, pair.blocks.get(way)),
        Reply::Entered { .. }
        | Reply::SectionFull { .. }
        | Reply::Approaching { .. }
        | Reply::TrainNotYet { .. }
        | Reply::Berthed { .. }
        | Reply::PartBerthed { .. }
        | Reply::NoTrainAt { .. }
        | Reply::Cleared { .. } => match way {
            Way::Up => fits_plain_line(entry, &pair.lines.up),
            Way::Down => fits_plain_line(entry, &pair.lines.down),
        },
        _ => true,
    }
}

// Makes of a bell what an entry says.
fn make_bell(entry: &Entry, bell: Bell) -> Bell
    ensures { result ≡ bell_made entry.now.call.act entry.now.reply bell }
{
    match entry.reply {
        Reply::Rung { k } => Bell {
            count: k,
            unheard: Some(code_of(entry)),
        },
        Reply::Heard { k, code: _ } => Bell {
            count: k,
            unheard: None,
        },
        _ => bell,
    }
}

// Makes of an instrument what an entry says.
fn make_block(entry: &Entry, block: Block) -> Block
    ensures { result ≡ block_made entry.now.call.act entry.now.reply block }
{
    match entry.reply {
        Reply::Turned { v } => Block {
            turns: v,
            position: position_of(entry),
            spent: false,
        },
        Reply::PulledUnder { .. } | Reply::HeldByInstrument { .. } => Block {
            spent: true,
            ..block
        },
        _ => block,
    }
}

// Makes of a plain line what an entry says.
fn make_plain_line(entry: &Entry, line: &mut PlainLine)
    requires { HasSpace entry.now.reply line.old }
    ensures { line.new ≡ plain_line_made entry.now.reply line.old }
{
    match entry.reply {
        Reply::Entered { k, train } => line.push(Passage { number: k, train }),
        Reply::Berthed { .. } | Reply::Cleared { .. } => line.remove_first(),
        _ => {}
    }
}

// Makes of the word of that way in a pair what an entry says.
fn make_word(pair: &mut PairState, way: Way, entry: &Entry)
    requires { HasSpace entry.now.reply (of_way pair.old.lines way) }
    ensures { pair.new ≡ word_made (kind_told entry.now.reply) way entry.now.call.act entry.now.reply pair.old }
{
    match entry.reply {
        Reply::Rung { .. }
        | Reply::BellBusy { .. }
        | Reply::Heard { .. }
        | Reply::Silent { .. }
        | Reply::BellNotYet { .. } => {
            pair.bells.set(way, make_bell(entry, pair.bells.get(way)));
        }
        Reply::Turned { .. }
        | Reply::Seen { .. }
        | Reply::BlockNotYet { .. }
        | Reply::PulledUnder { .. }
        | Reply::HeldByInstrument { .. } => {
            pair.blocks
                .set(way, make_block(entry, pair.blocks.get(way)));
        }
        Reply::Entered { .. }
        | Reply::SectionFull { .. }
        | Reply::Approaching { .. }
        | Reply::TrainNotYet { .. }
        | Reply::Berthed { .. }
        | Reply::PartBerthed { .. }
        | Reply::NoTrainAt { .. }
        | Reply::Cleared { .. } => match way {
            Way::Up => make_plain_line(entry, &mut pair.lines.up),
            Way::Down => make_plain_line(entry, &mut pair.lines.down),
        },
        _ => {}
    }
}

/// Whether an entry fits its word in the pairs of a line: that of this pair and way.
pub fn fits(plan: &Plan, pairs: &Vec<PairState>, pair: usize, way: Way, entry: &Entry) -> bool
    requires pair { pair ≡ pair_for plan.now entry.now }
    requires way { way ≡ way_at plan.now entry.now.box_no entry.now.call }
    requires within { pair < length pairs.now.items }
    ensures { result ≡ fits_here plan.now pairs.now.items entry.now }
{
    fits_word(&pairs[pair], way, entry)
}

/// Makes of an entry's word, that of this pair and way, what its reply says.
pub fn make(plan: &Plan, pairs: &mut Vec<PairState>, pair: usize, way: Way, entry: &Entry)
    requires pair { pair ≡ pair_for plan.now entry.now }
    requires way { way ≡ way_at plan.now entry.now.box_no entry.now.call }
    requires within { pair < length pairs.old.items }
    requires space { HasSpace entry.now.reply (of_way (found_at pairs.old.items (pair_for plan.now entry.now)).lines
        (way_at plan.now entry.now.box_no entry.now.call)) }
    ensures { pairs.new.items ≡ made plan.now pairs.old.items entry.now }
{
    make_word(&mut pairs[pair], way, entry);
}
