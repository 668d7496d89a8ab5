//! What is said of a refused call, in a script or in a journal.

use crate::call_forms::{call_form, call_words};
use crate::known_words::put_known;
use crate::moments::put_bad_moment;
use crate::numbered_line::{NumberedLine, number_of, word_of};
use crate::plan_words::{box_at, box_of_train, name_of_box, trains_at};
use crate::sentence::Piece::{Name, Number, Text, Word};
use crate::sentence::{Done, Sentence};
use crate::wrong_words::{put_bad_code, put_bad_number};
use bell_codes::Code;
use line_plan::{BoxPlan, Kind, Plan, kind_word};
use rail_text::{Cause, read_number};

/// A refused call: the words of its line from its moment on, its box, and the call above it in the text, with the
/// moment of that.
#[derive(Clone, Copy)]
pub struct RefusedCall<'a> {
    pub plan: &'a Plan,
    pub box_no: u32,
    pub words: &'a [u8],
    pub above: Option<NumberedLine<'a>>,
    pub moment: &'a [u8],
}

impl<'a> RefusedCall<'a> {
    // The word with this number, from 0; nothing where the call has no such word.
    fn word(&self, number: usize) -> &'a [u8] {
        word_of(self.words, number)
    }

    // The name of its box.
    fn box_name(&self) -> &'a [u8] {
        name_of_box(self.plan, self.box_no)
    }
}

// How a call with this word is written.
fn put_call_form(sentence: &mut Sentence, word: &[u8]) -> Done {
    let Some(form) = call_form(word) else {
        return sentence.text("No call is written so.");
    };
    sentence.say(&[
        Text("Behind its moment such a call is written "),
        Word(form.words.as_bytes()),
        Text(", as in "),
        Word(form.example.as_bytes()),
        Text("."),
    ])
}

// A call with too few or too many words.
fn put_word_count(sentence: &mut Sentence, call: &RefusedCall<'_>) -> Done {
    sentence.text("The line has too few or too many words. ")?;
    put_call_form(sentence, call.word(1))?;
    if call.word(3) == b"line".as_slice() || call.word(3) == b"train".as_slice() {
        return sentence.text(" A position is one word: `normal`, `line_clear` or `train_on_line`.");
    }
    Ok(())
}

// A moment below that of the call before.
fn put_moment_falls(sentence: &mut Sentence, call: &RefusedCall<'_>) -> Done {
    sentence.say(&[
        Text("The call of "),
        Name(call.box_name()),
        Text(" before it, in line "),
        Number(number_of(call.above)),
        Text(", is at "),
        Word(call.moment),
        Text(", and the moments of a box never fall."),
    ])
}

// A call's word that is none.
fn put_unknown_call(sentence: &mut Sentence, word: &[u8]) -> Done {
    if word.is_empty() {
        return sentence.text("Behind the moment stands the call, as in `ring down 3-1`.");
    }
    sentence.say(&[Text("No call is "), Word(word), Text(".")])?;
    put_known(sentence, word, " The calls are ", &call_words())
}

// A way or a position that is none.
fn put_unknown_word(sentence: &mut Sentence, call: &RefusedCall<'_>) -> Done {
    if call_form(call.word(1)).is_none() {
        return put_unknown_call(sentence, call.word(1));
    }
    let (way, position) = (call.word(2), call.word(3));
    if way != b"up".as_slice() && way != b"down".as_slice() {
        let ways = [b"up".as_slice(), b"down".as_slice()];
        sentence.say(&[
            Text("Here stands `up` or `down`, and not "),
            Word(way),
            Text("."),
        ])?;
        return put_known(sentence, way, " The two ways are ", &ways);
    }
    let positions = [
        b"normal".as_slice(),
        b"line_clear".as_slice(),
        b"train_on_line".as_slice(),
    ];
    sentence.say(&[Text("No instrument shows "), Word(position), Text(".")])?;
    put_known(sentence, position, " The positions are ", &positions)
}

// Whether the call is one of the bell, whose way names a side of the box.
fn is_of_bell(word: &[u8]) -> bool {
    word == b"ring".as_slice() || word == b"hear".as_slice() || word == b"await_bell".as_slice()
}

// A side without a neighbour, or a line of railway that doesn't come in or leave.
fn put_no_line(sentence: &mut Sentence, call: &RefusedCall<'_>) -> Done {
    let (plan, word, way) = (call.plan, call.word(1), call.word(2));
    sentence.say(&[
        Name(call.box_name()),
        Text(if call.box_no == 0 {
            " is the first of "
        } else {
            " is the last of "
        }),
        Number(plan.boxes.len() as u64),
        Text(" boxes, so "),
    ])?;
    if is_of_bell(word) {
        return sentence.say(&[Text("there is no box on its "), Name(way), Text(" side.")]);
    }
    let what = if word == b"await_block".as_slice() {
        " line leaves it."
    } else {
        " line comes in there."
    };
    sentence.say(&[Text("no "), Name(way), Text(what)])
}

// A line of railway without a berth.
fn put_no_berth(sentence: &mut Sentence, call: &RefusedCall<'_>) -> Done {
    sentence.say(&[
        Text("In the plan the "),
        Name(call.word(2)),
        Text(" line has no berth at "),
        Name(call.box_name()),
        Text(": a line `berth "),
        Name(call.word(2)),
        Text(" PLACE` is wanted there."),
    ])
}

// The groups of a code, with `-` between them.
fn put_groups(sentence: &mut Sentence, groups: &[u8]) -> Done {
    for (at, group) in groups.iter().enumerate() {
        sentence.say(&[
            Text(if at == 0 { "" } else { "-" }),
            Number(u64::from(*group)),
        ])?;
    }
    Ok(())
}

// The codes of a plan.
fn put_codes(sentence: &mut Sentence, codes: &[Code]) -> Done {
    for (at, code) in codes.iter().enumerate() {
        sentence.text(if at == 0 { "" } else { ", " })?;
        put_groups(sentence, code.groups())?;
    }
    Ok(())
}

// A code that the plan doesn't have.
fn put_unknown_code(sentence: &mut Sentence, call: &RefusedCall<'_>) -> Done {
    let plan = call.plan;
    sentence.say(&[
        Text("The plan has no code "),
        Word(call.word(3)),
        Text(". A line `class NAME CODE` of the plan gives one more. The codes are "),
    ])?;
    put_codes(sentence, plan.codes.codes())?;
    sentence.text(".")
}

// The levers of a box, or those of them that work a signal or starter.
fn put_levers(sentence: &mut Sentence, at: &BoxPlan, with_arm: bool) -> Done {
    let mut is_first = true;
    for lever in at.levers.as_slice() {
        if !with_arm || at.signal(lever.number).is_some() {
            let before = if is_first { "" } else { ", " };
            sentence.say(&[Text(before), Number(u64::from(lever.number))])?;
            is_first = false;
        }
    }
    if is_first {
        return sentence.text("none");
    }
    Ok(())
}

// A lever that the box doesn't have.
fn put_unknown_lever(sentence: &mut Sentence, call: &RefusedCall<'_>, at: &BoxPlan) -> Done {
    sentence.say(&[
        Name(call.box_name()),
        Text(" has no lever "),
        Name(call.word(2)),
        Text(". Its levers are: "),
    ])?;
    put_levers(sentence, at, false)?;
    sentence.text(".")
}

// The word of the kind of a lever.
fn kind_of(at: &BoxPlan, number: &[u8]) -> &'static str {
    let number = read_number(number).unwrap_or(0);
    for lever in at.levers.as_slice() {
        if u64::from(lever.number) == number {
            return kind_word(lever.kind);
        }
    }
    kind_word(Kind::Spare)
}

// A lever that works no signal or starter.
fn put_no_arm(sentence: &mut Sentence, call: &RefusedCall<'_>, at: &BoxPlan) -> Done {
    sentence.say(&[
        Text("A train passes a signal, and lever "),
        Name(call.word(2)),
        Text(" of "),
        Name(call.box_name()),
        Text(", of the kind `"),
        Text(kind_of(at, call.word(2))),
        Text("`, works none. Levers with a signal or starter: "),
    ])?;
    put_levers(sentence, at, true)?;
    sentence.text(".")
}

// A call on a lever.
fn put_lever_sentence(sentence: &mut Sentence, call: &RefusedCall<'_>, cause: Cause) -> Done {
    match (cause, box_at(call.plan, call.box_no)) {
        (Cause::UnknownLever, Some(at)) => put_unknown_lever(sentence, call, at),
        (Cause::NoArm, Some(at)) => put_no_arm(sentence, call, at),
        (Cause::BadNumber, _) => put_bad_number(sentence, call.word(2)),
        _ => sentence.say(&[
            Word(call.word(2)),
            Text(" is out of range. The levers of a box have numbers from 1 to 120."),
        ]),
    }
}

// The trains that are brought at the box of a call.
fn put_trains_there(sentence: &mut Sentence, call: &RefusedCall<'_>) -> Done {
    let trains = trains_at(sentence.alloc(), call.plan, call.box_no)?;
    let done = put_trains_among(sentence, call, &trains);
    drop(trains);
    done
}

// The same: these are the trains.
fn put_trains_among(sentence: &mut Sentence, call: &RefusedCall<'_>, trains: &[&[u8]]) -> Done {
    if trains.is_empty() {
        return sentence.say(&[
            Text(" No train is brought at "),
            Name(call.box_name()),
            Text("."),
        ]);
    }
    put_known(sentence, call.word(2), " At this box are brought ", trains)
}

// A train that the plan doesn't have, or that is brought at another box.
fn put_train_sentence(sentence: &mut Sentence, call: &RefusedCall<'_>) -> Done {
    let train = call.word(2);
    match box_of_train(call.plan, train) {
        None => sentence.say(&[Text("The plan has no train "), Word(train), Text(".")])?,
        Some(box_no) => sentence.say(&[
            Text("By the plan the train "),
            Name(train),
            Text(" is brought at "),
            Name(name_of_box(call.plan, box_no)),
            Text("."),
        ])?,
    }
    put_trains_there(sentence, call)
}

/// What is said of a refused call.
pub fn put_call_sentence(sentence: &mut Sentence, call: &RefusedCall<'_>, cause: Cause) -> Done {
    let plan = call.plan;
    match cause {
        Cause::BadMoment => put_bad_moment(sentence, plan.version, call.word(0)),
        Cause::MomentFalls => put_moment_falls(sentence, call),
        Cause::UnknownWord => put_unknown_word(sentence, call),
        Cause::WordCount => put_word_count(sentence, call),
        Cause::NoLine => put_no_line(sentence, call),
        Cause::NoBerth => put_no_berth(sentence, call),
        Cause::BadCode => put_bad_code(sentence, call.word(3)),
        Cause::UnknownCode => put_unknown_code(sentence, call),
        Cause::UnknownName | Cause::OtherBox => put_train_sentence(sentence, call),
        Cause::BadNumber | Cause::OutOfRange | Cause::UnknownLever | Cause::NoArm => {
            put_lever_sentence(sentence, call, cause)
        }
        _ => put_call_form(sentence, call.word(1)),
    }
}
