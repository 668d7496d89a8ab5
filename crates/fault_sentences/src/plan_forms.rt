//! How the lines of a plan are written.

use crate::line_forms::LineForm;
use rail_text::NoMemory;
use std::alloc::Global;

/// The places of some kinds of lines in the order of a plan's lines, from 1.
pub const LOOKS: usize = 4;

pub const CLASS: usize = 5;

pub const BOX: usize = 6;

pub const TRAIN: usize = 16;

// The lines of a plan in the order in which they stand.
const PLAN_LINES: [LineForm; 17] = [
    LineForm {
        keyword: "plan",
        words: "plan V",
        example: "plan 2",
    },
    LineForm {
        keyword: "boxes",
        words: "boxes N",
        example: "boxes 3",
    },
    LineForm {
        keyword: "delay",
        words: "delay D",
        example: "delay 2",
    },
    LineForm {
        keyword: "looks",
        words: "looks K",
        example: "looks 1000000000",
    },
    LineForm {
        keyword: "class",
        words: "class NAME CODE",
        example: "class parcels 1-3-1",
    },
    LineForm {
        keyword: "box",
        words: "box NAME",
        example: "box Elm",
    },
    LineForm {
        keyword: "place",
        words: "place NAME",
        example: "place P1",
    },
    LineForm {
        keyword: "lever",
        words: "lever L KIND",
        example: "lever 4 signal",
    },
    LineForm {
        keyword: "signal",
        words: "signal L FROM TO [over P..]",
        example: "signal 4 P1 P2 over P3",
    },
    LineForm {
        keyword: "starter",
        words: "starter WAY L FROM [over P..]",
        example: "starter down 2 P1",
    },
    LineForm {
        keyword: "berth",
        words: "berth WAY PLACE",
        example: "berth up P1",
    },
    LineForm {
        keyword: "clear",
        words: "clear WAY P..",
        example: "clear up P2 P3",
    },
    LineForm {
        keyword: "permissive",
        words: "permissive WAY N",
        example: "permissive up 2",
    },
    LineForm {
        keyword: "track",
        words: "track L P..",
        example: "track 5 P1 P2",
    },
    LineForm {
        keyword: "row",
        words: "row A locks B normal",
        example: "row 2 locks 5 normal",
    },
    LineForm {
        keyword: "train",
        words: "train NAME CLASS BOX PLACE",
        example: "train t1 ordinary Elm P1",
    },
    LineForm {
        keyword: "end",
        words: "end",
        example: "end",
    },
];

/// The keywords, in the order in which their lines stand.
pub fn keywords() -> [&'static [u8]; 17] {
    [
        b"plan",
        b"boxes",
        b"delay",
        b"looks",
        b"class",
        b"box",
        b"place",
        b"lever",
        b"signal",
        b"starter",
        b"berth",
        b"clear",
        b"permissive",
        b"track",
        b"row",
        b"train",
        b"end",
    ]
}

// Whether a line of the kind with this place in that order may follow one of the kind with that place, which is no
// line above `looks`.
fn may_follow(rank: usize, last: usize) -> bool {
    match rank {
        0..=LOOKS => false,
        CLASS => last <= CLASS,
        BOX => last < TRAIN,
        _ if rank < TRAIN => BOX <= last && last <= rank,
        _ => true,
    }
}

// Adds those of the keywords whose lines may follow one of the kind with this place.
fn push_keywords<'a>(
    words: &mut Vec<&'a [u8]>,
    keywords: &[&'a [u8]],
    last: usize,
) -> Result<(), NoMemory> {
    for (at, word) in keywords.iter().enumerate() {
        if may_follow(at + 1, last) {
            words.push(*word)?;
        }
    }
    Ok(())
}

/// Those of the keywords whose lines may follow one of the kind with this place, which is no line above `looks`.
pub fn keywords_behind<'a>(
    alloc: Global,
    keywords: &[&'a [u8]],
    last: usize,
) -> Result<Vec<&'a [u8]>, NoMemory> {
    let mut words = Vec::new(alloc);
    match push_keywords(&mut words, keywords, last) {
        Ok(()) => Ok(words),
        Err(error) => {
            drop(words);
            Err(error)
        }
    }
}

/// The place of a keyword in the order of a plan's lines, from 1.
pub fn rank_of(keyword: &[u8]) -> Option<usize> {
    for (at, form) in PLAN_LINES.iter().enumerate() {
        if keyword == form.keyword.as_bytes() {
            return Some(at + 1);
        }
    }
    None
}

/// How a line with this keyword is written.
pub fn form_of(keyword: &[u8]) -> Option<LineForm> {
    for form in &PLAN_LINES {
        if keyword == form.keyword.as_bytes() {
            return Some(*form);
        }
    }
    None
}
