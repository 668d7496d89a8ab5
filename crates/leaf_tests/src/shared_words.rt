//! The worked words of a bell, an instrument and a section.

use crate::facts::{all_hold, hold};
use block_words::{
    COUNT_MASK, Position, SPENT_BIT, Way, WelwynState, WordOp, bell_code, bell_count, bell_word,
    block_position, block_spent, block_turns, block_word, lane, lane_bits, lane_mask,
};

// How often a bell was rung, the code, the bell's word, and the word when the code was heard.
const BELLS: [(&str, u32, u8, u64, u64); 3] = [
    ("code 0 never rung", 0, 0, 0, 0),
    ("code 3 rung twice", 2, 3, 515, 512),
    ("code 200 rung 7 times", 7, 200, 1992, 1792),
];

fn is_bell(word: u64, count: u32, code: u8) -> bool {
    let count = u64::from(count);
    bell_word(count, code) == word && bell_count(word) == count && bell_code(word) == code
}

#[test]
fn packs_and_hears_bells(rt: HostRuntime) {
    for (name, count, code, word, heard) in BELLS.iter() {
        hold(
            &rt,
            name,
            is_bell(*word, *count, *code) && *word & COUNT_MASK == *heard,
        );
    }
}

// How often an instrument was turned, whether its Line Clear is spent, what it shows, its word, and the word after
// a pull.
const INSTRUMENTS: [(&str, u32, bool, Position, u64, u64); 4] = [
    ("at normal", 0, false, Position::Normal, 0, 4),
    ("at Line Clear", 1, false, Position::LineClear, 9, 13),
    ("at Line Clear, spent", 1, true, Position::LineClear, 13, 13),
    ("at Train on Line", 2, false, Position::TrainOnLine, 18, 22),
];

fn is_instrument(word: u64, turns: u32, spent: bool, position: Position) -> bool {
    let turns = u64::from(turns);
    block_word(turns, spent, position) == word
        && block_turns(word) == turns
        && block_spent(word) == spent
        && word % 4 < 3
        && block_position(word) == position
}

#[test]
fn packs_and_pulls_instruments(rt: HostRuntime) {
    for (name, turns, spent, position, word, pulled) in INSTRUMENTS.iter() {
        let is_packed = is_instrument(*word, *turns, *spent, *position);
        hold(&rt, name, is_packed && *word | SPENT_BIT == *pulled);
    }
}

// The lanes of a section with train 1 in lane 1 and train 2 in lane 2.
const LANES: [(&str, u64, u16); 6] = [
    ("lane 0", 0, 0),
    ("lane 1", 1, 1),
    ("lane 2", 2, 2),
    ("lane 3", 3, 0),
    ("lane 4 is lane 0", 4, 0),
    ("lane 5 is lane 1", 5, 1),
];

#[test]
fn fills_and_empties_sections(rt: HostRuntime) {
    let first = lane_bits(1, 1);
    let both = first | lane_bits(2, 2);
    for (name, i, train) in LANES.iter() {
        hold(&rt, name, lane(both, *i) == *train);
    }
    all_hold(
        &rt,
        &[
            ("train 1", first == 65_536),
            ("trains 1 and 2", both == 8_590_000_128),
            ("train 2", both & lane_mask(1) == 8_589_934_592),
            (
                "the greatest train",
                lane_bits(7, u16::MAX) == 18_446_462_598_732_840_960,
            ),
            ("a mask", lane_mask(4) == 18_446_744_073_709_486_080),
        ],
    );
}

#[test]
fn turns_ways_and_compares_operations(rt: HostRuntime) {
    let (expect, new) = (0, 515);
    let ring = WordOp::Ring {
        side: Way::Up,
        expect,
        new,
    };
    let other = WordOp::Ring {
        side: Way::Down,
        expect,
        new,
    };
    all_hold(
        &rt,
        &[
            ("from up", Way::Up.opposite() == Way::Down),
            ("from down", Way::Down.opposite() == Way::Up),
            ("states differ", WelwynState::Given != WelwynState::Berthed),
            ("an operation is itself", ring == ring),
            ("operations differ", ring != other),
        ],
    );
}
