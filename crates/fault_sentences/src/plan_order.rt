//! Lines of a plan that stand where they may not.

use crate::known_words::{put_known, put_listed};
use crate::near_words::meant;
use crate::numbered_line::{NumberedLine, Refused, first_with, number_of};
use crate::plan_forms::{BOX, CLASS, LOOKS, TRAIN, keywords, keywords_behind, rank_of};
use crate::sentence::Piece::{Number, Text, Word};
use crate::sentence::{Done, Sentence};

// What stands behind so many of the first four lines of a plan.
const HEADS: [&str; 4] = [
    "A plan begins with the line `plan 1` or `plan 2`.",
    "Behind the line `plan` stands the line `boxes N`, as in `boxes 3`.",
    "Behind the line `boxes` stands the line `delay D`, as in `delay 2`.",
    "Behind the line `delay` stands the line `looks K`, as in `looks 1000000000`.",
];

// Words with which other texts begin, and what is to be said of them.
const OTHER_TEXTS: [(&str, &str); 3] = [
    ("script", "A script begins so, and a plan is wanted here."),
    ("journal", "A journal begins so, and a plan is wanted here."),
    (
        "token",
        "A script with tokens begins so, and a plan is wanted here.",
    ),
];

// What is to be said of a line that begins so, where it belongs to another text.
fn of_other_text(keyword: &[u8]) -> Option<&'static str> {
    for (word, text) in &OTHER_TEXTS {
        if keyword == word.as_bytes() {
            return Some(*text);
        }
    }
    None
}

// The place of a line in the order of a plan's lines, from 1; 0 where it begins with no such word.
fn rank_in(line: NumberedLine<'_>) -> usize {
    rank_of(line.word(0)).unwrap_or(0)
}

// The place of the last line above in that order; 0 where none stands above.
fn last_rank(refused: &Refused<'_>) -> usize {
    match refused.above.last() {
        Some(line) => rank_in(*line),
        None => 0,
    }
}

// The first of these lines that stands behind this place in that order.
fn first_behind<'a>(lines: &[NumberedLine<'a>], rank: usize) -> Option<NumberedLine<'a>> {
    for line in lines {
        if rank_in(*line) > rank {
            return Some(*line);
        }
    }
    None
}

// These lines without the first.
fn behind_first<'a, 'b>(lines: &'b [NumberedLine<'a>]) -> &'b [NumberedLine<'a>] {
    match lines {
        [_, behind @ ..] => behind,
        [] => lines,
    }
}

// A word that begins no line of a plan.
fn put_unknown_keyword(sentence: &mut Sentence, keyword: &[u8], last: usize) -> Done {
    if let Some(text) = of_other_text(keyword) {
        return sentence.text(text);
    }
    sentence.say(&[
        Text("No line of a plan begins with "),
        Word(keyword),
        Text("."),
    ])?;
    let keywords = keywords();
    if meant(keyword, &keywords).is_some() {
        return put_known(sentence, keyword, "", &keywords);
    }
    let behind = keywords_behind(sentence.alloc(), &keywords, last)?;
    let done = put_listed(sentence, " Lines that may stand here begin with ", &behind);
    drop(behind);
    done
}

// A line that stands once, given again.
fn put_again(sentence: &mut Sentence, refused: &Refused<'_>, keyword: &[u8]) -> Done {
    let first = first_with(refused.above, keyword);
    sentence.say(&[
        Text("A plan has one line "),
        Word(keyword),
        Text(", and it is line "),
        Number(number_of(first)),
        Text("."),
    ])
}

// A line of a box that stands too late in it.
fn put_late_in_box(sentence: &mut Sentence, refused: &Refused<'_>, rank: usize) -> Done {
    let behind = first_behind(behind_first(refused.here()), rank);
    sentence.say(&[
        Text(
            "The lines of a box stand in this order: place, lever, signal, starter, berth, clear, permissive, ",
        ),
        Text("track, row. Put this one above line "),
        Number(number_of(behind)),
        Text("."),
    ])
}

// A line of one of the kinds that stand behind the first four, where it may not stand.
fn put_late(sentence: &mut Sentence, refused: &Refused<'_>, rank: usize, last: usize) -> Done {
    if rank == CLASS {
        let first = first_with(refused.above, b"box");
        return sentence.say(&[
            Text("The lines `class` stand above the first box. Put this one above line "),
            Number(number_of(first)),
            Text("."),
        ]);
    }
    if last == TRAIN {
        let first = first_with(refused.above, b"train");
        return sentence.say(&[
            Text("The boxes and their lines stand above the first train. Put this one above line "),
            Number(number_of(first)),
            Text("."),
        ]);
    }
    if last < BOX {
        return sentence.say(&[
            Text("A line "),
            Word(refused.word(0)),
            Text(
                " belongs to a box, and none is begun here. Put it behind the line `box NAME` of its box.",
            ),
        ]);
    }
    put_late_in_box(sentence, refused, rank)
}

/// A line of a plan that may not stand where it stands.
pub fn put_wrong_place(sentence: &mut Sentence, refused: &Refused<'_>) -> Done {
    let keyword = refused.word(0);
    let last = last_rank(refused);
    match rank_of(keyword) {
        None if last < LOOKS && of_other_text(keyword).is_none() => sentence.text(HEADS[last]),
        None => put_unknown_keyword(sentence, keyword, last),
        Some(rank) if rank <= last && rank <= LOOKS => put_again(sentence, refused, keyword),
        Some(_) if last < LOOKS => sentence.text(HEADS[last]),
        Some(rank) => put_late(sentence, refused, rank, last),
    }
}
