//! What is said of a refused script.

use crate::call_sentences::{RefusedCall, put_call_sentence};
use crate::known_words::put_known;
use crate::numbered_line::{NumberedLine, Refused, first_with, word_in};
use crate::plan_words::{box_named, box_names, name_of_box};
use crate::sentence::Piece::{Name, Number, Text, Word};
use crate::sentence::{Done, Sentence};
use line_plan::Plan;
use rail_text::Cause;

// The first line that is wanted.
fn put_first_line(sentence: &mut Sentence, plan: &Plan, box_no: u32) -> Done {
    sentence.say(&[
        Text("The first line of the script of "),
        Name(name_of_box(plan, box_no)),
        Text(" is `script "),
        Name(name_of_box(plan, box_no)),
        Text("`."),
    ])
}

// The boxes, in the order in which their scripts are given.
fn put_order(sentence: &mut Sentence, plan: &Plan, name: &[u8]) -> Done {
    let boxes = box_names(sentence.alloc(), plan)?;
    let done = put_known(
        sentence,
        name,
        " Scripts are given in the order of the boxes in the plan: ",
        &boxes,
    );
    drop(boxes);
    done
}

// A script that is that of another box, or of none.
fn put_wrong_box<'a>(sentence: &mut Sentence, plan: &'a Plan, box_no: u32, name: &'a [u8]) -> Done {
    match box_named(plan, name) {
        Some(other) => {
            sentence.say(&[
                Text("This is the script of "),
                Name(name),
                Text(", box "),
                Number(u64::from(other) + 1),
                Text(" of the plan; it was given as that of "),
                Name(name_of_box(plan, box_no)),
                Text(", box "),
                Number(u64::from(box_no) + 1),
                Text("."),
            ])?;
            put_order(sentence, plan, b"")
        }
        None => {
            sentence.say(&[
                Text("The plan has no box "),
                Word(name),
                Text("; the script was given as that of "),
                Name(name_of_box(plan, box_no)),
                Text("."),
            ])?;
            put_order(sentence, plan, name)
        }
    }
}

// A line that stands where the first one is wanted.
fn put_no_script(sentence: &mut Sentence, plan: &Plan, box_no: u32, keyword: &[u8]) -> Done {
    if keyword == b"plan".as_slice() {
        return sentence.text(
            "A plan begins so, and a script is wanted here. The plan is given before the scripts.",
        );
    }
    if keyword == b"journal".as_slice() {
        return sentence.text("A journal begins so, and a script is wanted here.");
    }
    put_first_line(sentence, plan, box_no)
}

// The last of these lines.
fn last_of<'a>(lines: &[NumberedLine<'a>]) -> Option<NumberedLine<'a>> {
    match lines {
        [.., last] => Some(*last),
        [] => None,
    }
}

/// What is said of the refused line of the script of this box.
pub fn put_script_sentence<'a>(
    sentence: &mut Sentence,
    plan: &'a Plan,
    box_no: u32,
    refused: &Refused<'a>,
    cause: Cause,
) -> Done {
    let keyword = refused.word(0);
    match cause {
        Cause::WrongKeyword => return put_no_script(sentence, plan, box_no, keyword),
        Cause::WrongBox => return put_wrong_box(sentence, plan, box_no, refused.word(1)),
        Cause::WordCount if first_with(refused.above, b"script").is_none() => {
            return put_first_line(sentence, plan, box_no);
        }
        Cause::WordCount if keyword == b"end".as_slice() => {
            return sentence.text("The line `end` has no further words.");
        }
        Cause::TooMany => return sentence.text("A script has at most 10000 calls."),
        Cause::BadMoment if keyword == b"script".as_slice() => {
            return sentence.text(
                "A script has one line `script`, its first: the script of another box is another file.",
            );
        }
        _ => {}
    }
    let above = last_of(refused.above);
    let call = RefusedCall {
        plan,
        box_no,
        words: refused.line.text,
        above,
        moment: word_in(above, 0),
    };
    put_call_sentence(sentence, &call, cause)
}
