//! Lines of a box: its places, levers, signals, berths and track circuits.

ghost use Rattle.std.specs.Prelude.{◌≤◌};

use crate::known_words::{put_known, put_listed};
use crate::numbered_line::{
    NumberedLine, Refused, first_with, naming, number_of, word_in, words_with,
};
use crate::plan_names::put_unknown_place;
use crate::sentence::Piece::{Name, Number, Text, Word};
use crate::sentence::{Done, Sentence};
use rail_text::read_number;

// ---- levers

/// Where in a line with this keyword the number of a lever stands, or another number.
pub fn number_at(keyword: &[u8]) -> usize
    ensures { result ≤ 2 }
{
    if keyword == b"starter".as_slice() || keyword == b"permissive".as_slice() {
        2
    } else {
        1
    }
}

// The first of these lines that gives a lever with a greater number.
fn first_greater<'a>(lines: &[NumberedLine<'a>], number: &[u8]) -> Option<NumberedLine<'a>> {
    let number = read_number(number);
    for line in lines {
        if line.has_keyword(b"lever") && read_number(line.word(1)) > number {
            return Some(*line);
        }
    }
    None
}

/// A lever whose number isn't above that of the lever before.
pub fn put_lever_order(sentence: &mut Sentence, refused: &Refused<'_>) -> Done {
    let number = refused.word(1);
    if let Some(other) = naming(refused.here(), b"lever", 1, number) {
        return sentence.say(&[
            Name(refused.box_name()),
            Text(" has a lever "),
            Name(number),
            Text(" already, in line "),
            Number(u64::from(other.number)),
            Text("."),
        ]);
    }
    let next = first_greater(refused.here(), number);
    sentence.say(&[
        Text("The levers of a box stand by rising numbers. Put lever "),
        Name(number),
        Text(" above line "),
        Number(number_of(next)),
        Text("."),
    ])
}

/// A lever that the box doesn't have.
pub fn put_unknown_lever<'a>(
    sentence: &mut Sentence,
    refused: &Refused<'a>,
    number: &'a [u8],
) -> Done {
    sentence.say(&[
        Name(refused.box_name()),
        Text(" has no lever "),
        Name(number),
        Text("."),
    ])?;
    let levers = words_with(sentence.alloc(), refused.here(), b"lever", 1)?;
    let done = put_listed(sentence, " Its levers are ", &levers);
    drop(levers);
    done
}

/// A lever that isn't of a kind that may stand in the line.
pub fn put_wrong_kind<'a>(
    sentence: &mut Sentence,
    refused: &Refused<'a>,
    number: &'a [u8],
) -> Done {
    let Some(lever) = naming(refused.here(), b"lever", 1, number) else {
        return Ok(());
    };
    sentence.say(&[
        Text("Line "),
        Number(u64::from(lever.number)),
        Text(" says that lever "),
        Name(number),
        Text(" is "),
        Word(lever.word(2)),
    ])?;
    if refused.line.has_keyword(b"signal") || refused.line.has_keyword(b"starter") {
        return sentence.text(". A signal or starter is worked by a lever of the kind `signal`.");
    }
    sentence.text(". A spare lever works nothing, so nothing holds it.")
}

// ---- signals

// A line of the box that works the lever as a signal or starter.
fn worked_by<'a>(lines: &[NumberedLine<'a>], number: &[u8]) -> Option<NumberedLine<'a>> {
    match naming(lines, b"signal", 1, number) {
        Some(line) => Some(line),
        None => naming(lines, b"starter", 2, number),
    }
}

// A lever that has a signal or starter.
fn put_lever_taken<'a>(sentence: &mut Sentence, refused: &Refused<'a>, number: &'a [u8]) -> Done {
    let line = worked_by(refused.here(), number);
    sentence.say(&[
        Text("Lever "),
        Name(number),
        Text(" works a signal or starter already, in line "),
        Number(number_of(line)),
        Text("."),
    ])
}

// A line of railway that has a line of this kind in the plan.
fn put_way_taken(sentence: &mut Sentence, refused: &Refused<'_>, line: NumberedLine<'_>) -> Done {
    sentence.say(&[
        Text("At "),
        Name(refused.box_name()),
        Text(" the "),
        Name(refused.word(1)),
        Text(" line has its line "),
        Word(refused.word(0)),
        Text(" already: line "),
        Number(u64::from(line.number)),
        Text("."),
    ])
}

/// What is given already: the lever, the line of railway, or the place.
pub fn put_taken(sentence: &mut Sentence, refused: &Refused<'_>) -> Done {
    let keyword = refused.word(0);
    if keyword == b"signal".as_slice() {
        return put_lever_taken(sentence, refused, refused.word(1));
    }
    match naming(refused.here(), keyword, 1, refused.word(1)) {
        Some(line) if keyword == b"track".as_slice() => sentence.say(&[
            Text("Lever "),
            Name(refused.word(1)),
            Text(" has its line `track` already: line "),
            Number(u64::from(line.number)),
            Text(". All its places stand in one line."),
        ]),
        Some(line) => put_way_taken(sentence, refused, line),
        None if keyword == b"starter".as_slice() => {
            put_lever_taken(sentence, refused, refused.word(2))
        }
        None => sentence.say(&[
            Word(refused.word(2)),
            Text(" is the berth of the other line already, in line "),
            Number(number_of(first_with(refused.here(), b"berth"))),
            Text("."),
        ]),
    }
}

// ---- lines of railway

/// A line of railway that doesn't leave the box, or doesn't come in there.
pub fn put_no_line(sentence: &mut Sentence, refused: &Refused<'_>) -> Done {
    let is_starter = refused.line.has_keyword(b"starter");
    let is_up = refused.word(1) == b"up".as_slice();
    let is_first = is_starter == is_up;
    let boxes = first_with(refused.above, b"boxes");
    let announced = word_in(boxes, 1);
    sentence.say(&[
        Name(refused.box_name()),
        Text(if is_first {
            " is the first of "
        } else {
            " is the last of "
        }),
        Name(announced),
        Text(" boxes, so no "),
        Name(refused.word(1)),
        Text(if is_starter {
            " line leaves it."
        } else {
            " line comes in there."
        }),
    ])?;
    if is_first {
        return Ok(());
    }
    sentence.say(&[Text(" Is `boxes "), Name(announced), Text("` right?")])
}

/// A way that is none.
pub fn put_unknown_way(sentence: &mut Sentence, word: &[u8]) -> Done {
    let ways = [b"up".as_slice(), b"down".as_slice()];
    sentence.say(&[
        Text("Here may stand `up` or `down`, and not "),
        Word(word),
        Text("."),
    ])?;
    put_known(sentence, word, " The two ways are ", &ways)
}

// ---- berths

// Whether a line of a signal or starter leads into the place or over it.
fn enters(line: &NumberedLine<'_>, place: &[u8]) -> bool {
    let to = line.has_keyword(b"signal") && line.word(3) == place;
    let is_arm = line.has_keyword(b"signal") || line.has_keyword(b"starter");
    let over = line.word(5) == place
        || line.word(6) == place
        || line.word(7) == place
        || line.word(8) == place;
    to || (is_arm && over)
}

// The first of these lines that leads into the place or over it.
fn entered_by<'a>(lines: &[NumberedLine<'a>], place: &[u8]) -> Option<NumberedLine<'a>> {
    for line in lines {
        if enters(line, place) {
            return Some(*line);
        }
    }
    None
}

/// A berth into which a signal leads, or where a train is to be brought.
pub fn put_berth_entered(sentence: &mut Sentence, refused: &Refused<'_>) -> Done {
    if refused.line.has_keyword(b"train") {
        let place = refused.word(4);
        let berth = naming(refused.lines_of_box(refused.word(3)), b"berth", 2, place);
        return sentence.say(&[
            Word(place),
            Text(" is a berth, by line "),
            Number(number_of(berth)),
            Text(", which trains enter from the line alone. Bring the train at another place."),
        ]);
    }
    let place = refused.word(2);
    sentence.say(&[
        Text("Trains come to a berth from the line alone, and line "),
        Number(number_of(entered_by(refused.here(), place))),
        Text(" leads to "),
        Word(place),
        Text(" or over it."),
    ])
}

/// A berth at which no signal begins.
pub fn put_no_home(sentence: &mut Sentence, refused: &Refused<'_>) -> Done {
    let place = refused.word(2);
    sentence.say(&[
        Text("No signal or starter begins at "),
        Word(place),
        Text(", so no train could leave the berth. A line as `signal L "),
        Name(place),
        Text(" TO` has to stand above."),
    ])
}

/// A line of railway without a berth.
pub fn put_no_berth(sentence: &mut Sentence, refused: &Refused<'_>) -> Done {
    let way = refused.word(1);
    sentence.say(&[
        Text("The "),
        Name(way),
        Text(" line has no berth at "),
        Name(refused.box_name()),
        Text(". A line `berth "),
        Name(way),
        Text(" PLACE` has to stand above."),
    ])
}

// ---- places

// The first word of a line, from one with a number on, that stands again behind it.
fn repeated<'a>(line: &NumberedLine<'a>, from: usize) -> Option<&'a [u8]> {
    for first in from..10 {
        let word = line.word(first);
        for second in first + 1..10 {
            if !word.is_empty() && line.word(second) == word {
                return Some(word);
            }
        }
    }
    None
}

// The place of the berth that a `clear` line names.
fn berth_of<'a>(refused: &Refused<'a>) -> &'a [u8] {
    match naming(refused.here(), b"berth", 1, refused.word(1)) {
        Some(line) => line.word(2),
        None => b"",
    }
}

/// Two places of a line that are the same.
pub fn put_same_place(sentence: &mut Sentence, refused: &Refused<'_>) -> Done {
    match repeated(&refused.line, 2) {
        Some(place) => sentence.say(&[
            Word(place),
            Text(" stands twice in the line. All its places have to differ."),
        ]),
        None => sentence.say(&[
            Word(berth_of(refused)),
            Text(" is the berth itself, which has to be clear in any case."),
        ]),
    }
}

// Whether a word of the line is the name of no place of the box.
fn is_no_place(refused: &Refused<'_>, word: &[u8]) -> bool {
    !word.is_empty()
        && word != b"over".as_slice()
        && word != b"away".as_slice()
        && naming(refused.here(), b"place", 1, word).is_none()
}

/// A word that names no place of the box, the first such word of the line.
pub fn put_first_unknown_place(sentence: &mut Sentence, refused: &Refused<'_>) -> Done {
    let from = number_at(refused.word(0)) + 1;
    for at in from..10 {
        let word = refused.word(at);
        if is_no_place(refused, word) {
            return put_unknown_place(sentence, refused.here(), refused.box_name(), word);
        }
    }
    put_unknown_place(sentence, refused.here(), refused.box_name(), b"away")
}

/// A fixed word that is none: the kind of a lever, a way, or `over`.
pub fn put_unknown_word(sentence: &mut Sentence, refused: &Refused<'_>) -> Done {
    let keyword = refused.word(0);
    if keyword == b"lever".as_slice() {
        let kinds = [
            b"signal".as_slice(),
            b"points".as_slice(),
            b"lock".as_slice(),
            b"distant".as_slice(),
            b"spare".as_slice(),
        ];
        sentence.say(&[
            Text("No lever is of the kind "),
            Word(refused.word(2)),
            Text("."),
        ])?;
        return put_known(sentence, refused.word(2), " The kinds are ", &kinds);
    }
    let way = refused.word(1);
    let is_way = way == b"up".as_slice() || way == b"down".as_slice();
    if keyword != b"signal".as_slice() && !is_way {
        return put_unknown_way(sentence, way);
    }
    sentence.say(&[
        Text(
            "Behind the first places may stand `over` and the places over which trains run, and not ",
        ),
        Word(refused.word(4)),
        Text("."),
    ])
}
