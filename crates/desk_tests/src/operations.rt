//! The operations of a call on words that are plain numbers.

ghost use Rattle.std.specs.Prelude.{◌≡◌, ◌<◌, ◌+◌, ◌*◌, ◌^◌, length, slice_index_or, slice_set};
ghost use Rattle.block_words.specs.Operations.{word_after};
ghost use Rattle.instrument_rule.specs.Calls.{bell_on, block_on, line_on, look_link, op_word};
ghost use Rattle.line_law.specs.Links.{pair_no, way_of};
ghost use Rattle.line_law.specs.Replies.{way_number};
ghost use Rattle.word_laws.specs.WordPlaces.{word_place};

use block_words::{COUNT_MASK, SPENT_BIT, Way, WordOp};
use line_law::{Act, Link};

// The place of a word of one of a box's lines, among the words of its kind.
fn place_on(box_no: u32, link: Link) -> usize
    ensures place { result ≡ 2 * pair_no box_no link + way_number (way_of link) }
    ensures small { result < 2 ^ 34 }
{
    let own = box_no as usize;
    match link {
        Link::Out(Way::Up) => 2 * own.saturating_sub(1),
        Link::Out(Way::Down) => 2 * own + 1,
        Link::In(Way::Up) => 2 * own,
        Link::In(Way::Down) => 2 * own.saturating_sub(1) + 1,
    }
}

// The line of a box on which a section is looked at for a call.
fn look_link(act: Act, way: Way) -> Link
    ensures { result ≡ look_link act way }
{
    match act {
        Act::Pass { lever: _ } | Act::Overrun { lever: _ } => Link::Out(way),
        _ => Link::In(way),
    }
}

// The place of the bell of a box on one of its lines, on a line of so many boxes.
fn bell(boxes: u32, box_no: u32, link: Link) -> usize
    ensures { result ≡ word_place boxes (bell_on box_no link) }
{
    1 + boxes as usize + place_on(box_no, link)
}

// The place of its instrument there.
fn block(boxes: u32, box_no: u32, link: Link) -> usize
    ensures { result ≡ word_place boxes (block_on box_no link) }
{
    let boxes = boxes as usize;
    1 + boxes + 2 * boxes.saturating_sub(1) + place_on(box_no, link)
}

// The place of its section there.
fn section(boxes: u32, box_no: u32, link: Link) -> usize
    ensures { result ≡ word_place boxes (line_on box_no link) }
{
    let boxes = boxes as usize;
    1 + boxes + 4 * boxes.saturating_sub(1) + place_on(box_no, link)
}

// The place of the word on which a box does an operation for a call.
fn place(boxes: u32, box_no: u32, act: Act, op: WordOp) -> usize
    ensures { result ≡ word_place boxes (op_word box_no act op) }
{
    match op {
        WordOp::Local => 1 + box_no as usize,
        WordOp::Ring {
            side,
            expect: _,
            new: _,
        } => bell(boxes, box_no, Link::Out(side)),
        WordOp::Hear { side } | WordOp::LookBell { side } => {
            bell(boxes, box_no, Link::In(side.opposite()))
        }
        WordOp::Turn { way, new: _ } => block(boxes, box_no, Link::In(way)),
        WordOp::Pull { way } | WordOp::LookBlock { way } => block(boxes, box_no, Link::Out(way)),
        WordOp::LookSection { way } => section(boxes, box_no, look_link(act, way)),
        WordOp::Enter { way, bits: _ } => section(boxes, box_no, Link::Out(way)),
        WordOp::TakeOut { way, mask: _ } => section(boxes, box_no, Link::In(way)),
    }
}

// What an operation makes of a word.
fn word_after(op: WordOp, word: u64) -> u64
    ensures { result ≡ word_after op word }
{
    match op {
        WordOp::Local => word.wrapping_add(1),
        WordOp::Ring {
            side: _,
            expect,
            new,
        } => if word == expect { new } else { word },
        WordOp::Hear { side: _ } => word & COUNT_MASK,
        WordOp::Turn { way: _, new } => new,
        WordOp::Pull { way: _ } => word | SPENT_BIT,
        WordOp::LookBell { side: _ } | WordOp::LookBlock { way: _ } => word,
        WordOp::LookSection { way: _ } => word,
        WordOp::Enter { way: _, bits } => word | bits,
        WordOp::TakeOut { way: _, mask } => word & mask,
    }
}

/// Does an operation for a call of a box, on the words of a line of so many boxes. The answer is the word as it was.
pub fn operate(words: &mut [u64], boxes: u32, box_no: u32, act: Act, op: WordOp) -> u64
    requires { word_place boxes (op_word box_no act op) < length words.old }
    ensures met { result ≡ slice_index_or words.old (word_place boxes (op_word box_no act op)) 0 }
    ensures made { words.new ≡ slice_set words.old (word_place boxes (op_word box_no act op)) (word_after op result) }
{
    let at = place(boxes, box_no, act, op);
    let word = words[at];
    words[at] = word_after(op, word);
    word
}
