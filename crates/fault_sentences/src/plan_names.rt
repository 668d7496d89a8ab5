//! Names and codes of a plan that are new or known.

use crate::known_words::{put_known, put_listed};
use crate::numbered_line::{NumberedLine, Refused, naming, number_of, words_with};
use crate::sentence::Piece::{Name, Number, Text, Word};
use crate::sentence::{Done, Sentence};

// The classes that every plan has.
const OPENING_CLASSES: [(&str, &str); 4] = [
    ("express", "4"),
    ("ordinary", "3-1"),
    ("empty", "2-2-1"),
    ("light", "2-3"),
];

// The codes that every plan has, and what they mean.
const OPENING_CODES: [(&str, &str); 10] = [
    ("1", "Call Attention"),
    ("4", "an express passenger train"),
    ("3-1", "an ordinary passenger train"),
    ("2-2-1", "empty coaching stock"),
    ("2-3", "a light engine"),
    ("2", "Train Entering Section"),
    ("2-1", "Train Out of Section"),
    ("3-5", "Cancelling"),
    ("6", "Obstruction Danger"),
    ("16", "Testing"),
];

// What stands beside a word in these rows.
fn beside(rows: &[(&'static str, &'static str)], word: &[u8]) -> Option<&'static str> {
    for (first, second) in rows {
        if word == first.as_bytes() {
            return Some(*second);
        }
    }
    None
}

// The lines in which another thing of the kind may have the name.
fn lines_of_kind<'a>(refused: &Refused<'a>) -> &'a [NumberedLine<'a>] {
    if refused.line.has_keyword(b"place") {
        refused.here()
    } else {
        refused.above
    }
}

/// A name that another thing of the kind has.
pub fn put_name_twice(sentence: &mut Sentence, refused: &Refused<'_>) -> Done {
    let (keyword, name) = (refused.word(0), refused.word(1));
    if let Some(other) = naming(lines_of_kind(refused), keyword, 1, name) {
        return sentence.say(&[
            Text("There is a "),
            Name(keyword),
            Text(" "),
            Word(name),
            Text(" already, in line "),
            Number(u64::from(other.number)),
            Text("."),
        ]);
    }
    let code = beside(&OPENING_CLASSES, name).unwrap_or("");
    sentence.say(&[
        Text("The class "),
        Word(name),
        Text(" is there in every plan, with the code "),
        Word(code.as_bytes()),
        Text(", and needs no line."),
    ])
}

/// A code of a class that stands for something already.
pub fn put_code_twice(sentence: &mut Sentence, refused: &Refused<'_>) -> Done {
    let code = refused.word(2);
    if let Some(meaning) = beside(&OPENING_CODES, code) {
        return sentence.say(&[
            Text("In every plan the code "),
            Word(code),
            Text(" means "),
            Text(meaning),
            Text(". Take another one."),
        ]);
    }
    let other = naming(refused.above, b"class", 2, code);
    sentence.say(&[
        Text("Line "),
        Number(number_of(other)),
        Text(" gives the code "),
        Word(code),
        Text(" to another class. Take another one."),
    ])
}

// A name that no line with this keyword gives, among these lines, and the names that they give.
fn put_none_of(
    sentence: &mut Sentence,
    lines: &[NumberedLine<'_>],
    keyword: &[u8],
    name: &[u8],
    before: &str,
) -> Done {
    let known = words_with(sentence.alloc(), lines, keyword, 1)?;
    let done = put_known(sentence, name, before, &known);
    drop(known);
    done
}

/// A word that names no place of a box with these lines.
pub fn put_unknown_place<'a>(
    sentence: &mut Sentence,
    lines: &[NumberedLine<'_>],
    box_name: &'a [u8],
    name: &'a [u8],
) -> Done {
    sentence.say(&[
        Name(box_name),
        Text(" has no place "),
        Word(name),
        Text("."),
    ])?;
    if naming(lines, b"lever", 1, name).is_some() {
        return sentence.text(" A lever has that number, and here stands the name of a place.");
    }
    put_none_of(sentence, lines, b"place", name, " Its places are ")
}

/// A word that names no box.
pub fn put_unknown_box(sentence: &mut Sentence, refused: &Refused<'_>, name: &[u8]) -> Done {
    sentence.say(&[Text("No box is called "), Word(name), Text(".")])?;
    put_none_of(sentence, refused.above, b"box", name, " The boxes are ")
}

/// Where no box has a name that was given beside the plan.
pub fn put_boxes_there_are(sentence: &mut Sentence, refused: &Refused<'_>) -> Done {
    sentence.text("No box of the plan has the name that was given.")?;
    let boxes = words_with(sentence.alloc(), refused.above, b"box", 1)?;
    let done = put_listed(sentence, " The boxes are ", &boxes);
    drop(boxes);
    done
}

// A word that names no class.
fn put_unknown_class(sentence: &mut Sentence, refused: &Refused<'_>, name: &[u8]) -> Done {
    sentence.say(&[Text("No class is called "), Word(name), Text(".")])?;
    let opening = [
        b"express".as_slice(),
        b"ordinary".as_slice(),
        b"empty".as_slice(),
        b"light".as_slice(),
    ];
    put_known(sentence, name, " Every plan has the classes ", &opening)?;
    put_none_of(
        sentence,
        refused.above,
        b"class",
        name,
        " Its own classes are ",
    )
}

/// A train's line with a name that nothing has: its class, its box or its place.
pub fn put_unknown_in_train(sentence: &mut Sentence, refused: &Refused<'_>) -> Done {
    let (class, name) = (refused.word(2), refused.word(3));
    let is_class = beside(&OPENING_CLASSES, class).is_some()
        || naming(refused.above, b"class", 1, class).is_some();
    if !is_class {
        return put_unknown_class(sentence, refused, class);
    }
    if naming(refused.above, b"box", 1, name).is_none() {
        return put_unknown_box(sentence, refused, name);
    }
    put_unknown_place(sentence, refused.lines_of_box(name), name, refused.word(4))
}
