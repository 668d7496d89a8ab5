//! Whether a board shows a journal, as a reader of the two tells it: by the turns and the pulls that the journal has.

ghost use Rattle.std.specs.Prelude.{◌≡◌, ◌+◌, ◌≤◌, IsTrue, length};
ghost use Rattle.line_plan.specs.Ways.{leaves};

use block_words::{Position, Way};
use line_law::{Act, Entry, Reply};
use line_plan::{Section, leaves};
use line_watch::{Board, Sight};

// An instrument that was never turned.
const UNTURNED: Sight = Sight {
    turns: 0,
    position: Position::Normal,
    spent: false,
};

// Whether a box is the one in advance of a section.
fn is_advance(section: Section, box_no: u32) -> bool {
    match section.way {
        Way::Down => box_no.checked_sub(1) == Some(section.rear),
        Way::Up => section.rear.checked_sub(1) == Some(box_no),
    }
}

// Whether a lever is the starter of the busy line's boxes for a way.
fn is_starter(lever: u32, way: Way) -> bool {
    match way {
        Way::Down => lever == 2,
        Way::Up => lever == 4,
    }
}

// What the instrument of a section shows after an entry, where it showed this before: a turn at the box in advance
// counts, and a pull of the starter that reaches it spends it, whether it lets the lever go or holds it.
fn shown_after(section: Section, shown: Sight, entry: &Entry) -> Sight {
    match (entry.call.act, entry.reply) {
        (Act::Turn { way, position }, Reply::Turned { v }) => {
            if way == section.way && is_advance(section, entry.box_no) {
                Sight {
                    turns: v,
                    position,
                    spent: false,
                }
            } else {
                shown
            }
        }
        (Act::Pull { lever }, Reply::PulledUnder { .. } | Reply::HeldByInstrument { .. }) => {
            if entry.box_no == section.rear && is_starter(lever, section.way) {
                Sight {
                    spent: true,
                    ..shown
                }
            } else {
                shown
            }
        }
        _ => shown,
    }
}

// The first round from this on that shows something else of a section, or the number behind the last.
fn next_round(board: &Board, rounds: u32, section: Section, from: u32, shown: Sight) -> u32
    requires rounds { rounds ≡ length board.now.rounds }
    requires few { rounds ≤ 1000 }
    requires section { IsTrue (leaves board.now.boxes section.rear section.way) }
    requires from { (1 ≤ from) × (from ≤ rounds + 1) }
    ensures { (1 ≤ result) × (result ≤ rounds + 1) }
{
    for round in from..rounds + 1 {
        if board.sight(round, section) != shown {
            return round;
        }
    }
    rounds + 1
}

// Whether the sights of a section are, in the order of the rounds, what its instrument showed in the order of the
// entries, and the last of them what it showed at the end.
fn shows_section(board: &Board, rounds: u32, section: Section, entries: &[Entry]) -> bool
    requires rounds { rounds ≡ length board.now.rounds }
    requires some { (1 ≤ rounds) × (rounds ≤ 1000) }
    requires section { IsTrue (leaves board.now.boxes section.rear section.way) }
{
    let mut shown = UNTURNED;
    let mut round = next_round(board, rounds, section, 1, shown);
    for entry in entries {
        shown = shown_after(section, shown, entry);
        round = next_round(board, rounds, section, round, shown);
    }
    round == rounds + 1 && board.sight(rounds, section) == shown
}

// The same of the line of a way that leaves a box, if one does.
fn shows_way(board: &Board, boxes: u32, rounds: u32, rear: u32, way: Way, entries: &[Entry]) -> bool
    requires boxes { boxes ≡ board.now.boxes }
    requires rounds { rounds ≡ length board.now.rounds }
    requires some { (1 ≤ rounds) × (rounds ≤ 1000) }
{
    !leaves(boxes, rear, way) || shows_section(board, rounds, Section { rear, way }, entries)
}

/// Whether a board of so many rounds shows the entries of the busy line, which has so many boxes.
pub fn shows(board: &Board, boxes: u32, rounds: u32, entries: &[Entry]) -> bool
    requires boxes { boxes ≡ board.now.boxes }
    requires rounds { rounds ≡ length board.now.rounds }
    requires some { (1 ≤ rounds) × (rounds ≤ 1000) }
{
    for rear in 0..boxes {
        if !shows_way(board, boxes, rounds, rear, Way::Down, entries)
            || !shows_way(board, boxes, rounds, rear, Way::Up, entries)
        {
            return false;
        }
    }
    true
}
