//! The limits of a plan.

use crate::known_words::put_list;
use crate::numbered_line::{Refused, first_with, naming, number_of, words_with};
use crate::sentence::Piece::{Number, Text, Word};
use crate::sentence::{Done, Sentence};
use rail_text::read_number;

// The numbers that may stand in a line of a plan of version 1, and in one of version 2.
const RANGES: [(&str, &str, &str); 9] = [
    (
        "plan",
        "A plan has the version 1 or 2.",
        "A plan has the version 1 or 2.",
    ),
    (
        "boxes",
        "A line has 2 to 32 boxes; under `plan 2` it may have 64.",
        "A line has 2 to 64 boxes.",
    ),
    (
        "delay",
        "In version 1 the delay is 0 to 60 minutes.",
        "In version 2 the delay is 0 to 3600 seconds.",
    ),
    (
        "looks",
        "The looks are 1 to 1000000000.",
        "The looks are 1 to 1000000000.",
    ),
    ("lever", LEVERS, LEVERS),
    ("signal", LEVERS, LEVERS),
    ("starter", LEVERS, LEVERS),
    ("track", LEVERS, LEVERS),
    (
        "permissive",
        "A permissive line takes 1 to 3 trains at once.",
        "A permissive line takes 1 to 3 trains at once.",
    ),
];

const LEVERS: &str = "The levers of a box have numbers from 1 to 120.";

// The most lines of a kind.
const MOST: [(&str, &str); 4] = [
    ("class", "A plan has at most 190 lines `class`."),
    ("place", "A box has at most 64 places."),
    ("row", "A box has at most 400 rows."),
    ("train", "A plan has at most 5000 trains."),
];

// Whether the plan has version 2.
fn is_version_2(refused: &Refused<'_>) -> bool {
    naming(refused.above, b"plan", 1, b"2").is_some()
}

// Which numbers may stand in a line with this keyword.
fn range_of(keyword: &[u8], is_version_2: bool) -> &'static str {
    for (word, first, second) in &RANGES {
        if keyword == word.as_bytes() {
            return if is_version_2 { *second } else { *first };
        }
    }
    "The number is too small or too great."
}

/// A number of a plan that is out of its range.
pub fn put_out_of_range(sentence: &mut Sentence, refused: &Refused<'_>, number: &[u8]) -> Done {
    let range = range_of(refused.word(0), is_version_2(refused));
    sentence.say(&[Word(number), Text(" is out of range. "), Text(range)])
}

// The number of boxes that is announced.
fn announced(refused: &Refused<'_>) -> u64 {
    match first_with(refused.above, b"boxes") {
        Some(line) => read_number(line.word(1)).unwrap_or(0),
        None => 0,
    }
}

// The names of the boxes that stand, in their order.
fn put_boxes(sentence: &mut Sentence, refused: &Refused<'_>) -> Done {
    let boxes = words_with(sentence.alloc(), refused.above, b"box", 1)?;
    let done = put_boxes_among(sentence, &boxes);
    drop(boxes);
    done
}

fn put_boxes_among(sentence: &mut Sentence, boxes: &[&[u8]]) -> Done {
    if boxes.is_empty() {
        return sentence.text("none");
    }
    put_list(sentence, boxes)
}

// More boxes than are announced.
fn put_too_many_boxes(sentence: &mut Sentence, refused: &Refused<'_>) -> Done {
    let announced = announced(refused);
    let line = first_with(refused.above, b"boxes");
    sentence.say(&[
        Text("Line "),
        Number(number_of(line)),
        Text(" says that the plan has "),
        Number(announced),
        Text(" boxes, and all stand: "),
    ])?;
    put_boxes(sentence, refused)?;
    sentence.say(&[
        Text(". Is `boxes "),
        Number(announced.saturating_add(1)),
        Text("` right?"),
    ])
}

/// A line more than there may be.
pub fn put_too_many(sentence: &mut Sentence, refused: &Refused<'_>) -> Done {
    let keyword = refused.word(0);
    for (word, text) in &MOST {
        if keyword == word.as_bytes() {
            return sentence.say(&[Text(*text), Text(" They stand, and this is one more.")]);
        }
    }
    put_too_many_boxes(sentence, refused)
}

/// A line that stands behind all boxes, before all stand.
pub fn put_too_few_boxes(sentence: &mut Sentence, refused: &Refused<'_>) -> Done {
    let line = first_with(refused.above, b"boxes");
    sentence.say(&[
        Text("Line "),
        Number(number_of(line)),
        Text(" says that the plan has "),
        Number(announced(refused)),
        Text(" boxes. So far stand: "),
    ])?;
    put_boxes(sentence, refused)?;
    sentence.say(&[
        Text(". The others stand above the line "),
        Word(refused.word(0)),
        Text("."),
    ])
}

/// A plan for which there isn't one script for each box. The lines of the whole plan are read for it.
pub fn put_script_count(sentence: &mut Sentence, refused: &Refused<'_>) -> Done {
    sentence.say(&[
        Text("The plan has "),
        Number(announced(refused)),
        Text(" boxes, and each has a script of its own. Give them in the order of the plan: "),
    ])?;
    put_boxes(sentence, refused)?;
    sentence.text(".")
}
